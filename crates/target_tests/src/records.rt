//! The stripes of a line's records on the small drive.

use pblk_core::{LineRecords, Stripe};
use pblk_layout::Layout;
use pblk_meta::{Rows, StartRecord};
use pblk_model::{Mark, Shape};
use std::alloc::{AllocError, Global};

// The mark of the blocks of both records of the line with sequence number 1.
const META: Mark = Mark {
    lba: Mark::META_LBA,
    position: 1,
};

// The first bytes of a start record: magic, version, kind, line and width.
const START: [u8; 24] = [
    0x6b, 0x6c, 0x62, 0x70, 1, 0, 1, 0, 0, 0, 0, 0, 2, 0, 0, 0, 1, 0, 0, 0, 0, 0, 0, 0,
];

// The first stripe of the start record of a line of width 2.
fn start_stripe(alloc: Global) -> Result<Stripe, AllocError> {
    if Shape::SMALL.refusal().is_some() {
        return Err(AllocError);
    }
    let mut records = LineRecords::new(alloc, &Layout::new(&Shape::SMALL))?;
    let mut stripe = Stripe::new(alloc, &Shape::SMALL)?;
    let start = StartRecord {
        line: 0,
        width: 2,
        seq: 1,
        first_seq: 1,
        front: 0,
        capacity: 64,
        rows: Rows::new(alloc),
    };
    records.open(&start);
    records.start_stripe(0, &mut stripe);
    Ok(stripe)
}

// A stripe of one sector, whose bytes are ones, and of pads.
fn padded_stripe(alloc: Global) -> Result<Stripe, AllocError> {
    if Shape::SMALL.refusal().is_some() {
        return Err(AllocError);
    }
    let mut stripe = Stripe::new(alloc, &Shape::SMALL)?;
    stripe.begin(3, 1, 8, false, 0);
    stripe.append(
        Mark {
            lba: 5,
            position: 9,
        },
        &[1; 512],
    );
    stripe.pad();
    Ok(stripe)
}

#[test]
fn a_start_record_stands_in_its_stripe(rt: HostRuntime) -> Result<(), AllocError> {
    let stripe = start_stripe(rt.alloc())?;
    let (bytes, marks) = stripe.parts();
    assert!(rt; bytes.starts_with(&START));
    assert_eq!(rt; bytes.len(), 2048);
    assert_eq!(rt; marks, &[META; 4][..]);
    Ok(())
}

#[test]
fn a_short_stripe_is_padded(rt: HostRuntime) -> Result<(), AllocError> {
    let stripe = padded_stripe(rt.alloc())?;
    let (bytes, marks) = stripe.parts();
    assert!(rt; bytes.starts_with(&[1; 512]));
    assert_eq!(rt; bytes.len(), 2048);
    assert_eq!(rt;
        marks,
        &[
            Mark {
                lba: 5,
                position: 9
            },
            Mark::PAD,
            Mark::PAD,
            Mark::PAD
        ][..]
    );
    assert_eq!(rt; (stripe.chunk(), stripe.unit(), stripe.at()), (3, 1, 8));
    Ok(())
}
