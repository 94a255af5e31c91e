//! Parities as files.

ghost use Rattle.std.specs.Prelude.{IfOk};
ghost use Rattle.pblk_model.specs.Accepted.{IsAccepted};

use crate::drives::{MIXED, Written, drive_of, parity_of};
use std::alloc::Global;
use std::test::Fail;
use stripe_parity::{Parity, ParityErr, Shape};

// Two chunks of 24 blocks with the same number.
static PAIR: [Written; 2] = [(0, 0, Some(24)), (1, 0, Some(24))];

// The file of a drive's parity, and the drive's numbers.
fn file(alloc: Global, written: &[Written]) -> Result<(Vec<u8>, Shape), Fail>
    ensures { IfOk result (λ f. IsAccepted f.1) }
{
    let mut drive = drive_of(alloc, written)?;
    let parity = parity_of(alloc, &mut drive)?;
    let mut bytes = Vec::new(alloc);
    parity.write(&mut bytes)?;
    Ok((bytes, parity.shape()))
}

// What reading is refused for, if it is.
fn refusal(alloc: Global, bytes: &[u8], shape: &Shape) -> Option<ParityErr>
    requires { IsAccepted shape.now }
{
    Parity::read(alloc, bytes, shape).err()
}

// A file read and written again.
fn again(alloc: Global, bytes: &[u8], shape: &Shape) -> Result<Vec<u8>, Fail>
    requires { IsAccepted shape.now }
{
    let parity = Parity::read(alloc, bytes, shape)?;
    let mut again = Vec::new(alloc);
    parity.write(&mut again)?;
    Ok(again)
}

#[test]
fn a_file_has_the_blocks_of_the_longer_chunks(rt: HostRuntime) -> Result<(), Fail> {
    let (bytes, _shape) = file(rt.alloc(), &PAIR)?;
    assert!(rt; bytes.len() == 32 + 8 * 16 + 24 * 528);
    let (bytes, _shape) = file(rt.alloc(), &MIXED)?;
    assert!(rt; bytes.len() == 32 + 8 * 16 + 66 * 528);
    Ok(())
}

#[test]
fn a_file_begins_with_the_numbers_of_the_drive(rt: HostRuntime) -> Result<(), Fail> {
    let (bytes, _shape) = file(rt.alloc(), &PAIR)?;
    assert!(rt;
        bytes.starts_with(
            b"PBLKPRTY\x01\0\0\0\0\x02\0\0\x02\0\0\0\x08\0\0\0\x18\0\0\0\0\0\0\0\x02\0\0\0\x18"
        )
    );
    Ok(())
}

#[test]
fn a_file_is_read_as_it_was_written(rt: HostRuntime) -> Result<(), Fail> {
    let (bytes, shape) = file(rt.alloc(), &MIXED)?;
    assert!(rt; again(rt.alloc(), &bytes, &shape)? == bytes);
    Ok(())
}

#[test]
fn a_file_cut_at_any_byte_is_short(rt: HostRuntime) -> Result<(), Fail> {
    let (bytes, shape) = file(rt.alloc(), &PAIR)?;
    for end in 0..bytes.len() {
        let told = refusal(rt.alloc(), &bytes[..end], &shape);
        assert!(rt; told == Some(ParityErr::Short(end as u64)));
    }
    Ok(())
}

#[test]
fn a_byte_too_many_is_refused(rt: HostRuntime) -> Result<(), Fail> {
    let (mut bytes, shape) = file(rt.alloc(), &PAIR)?;
    bytes.push(0)?;
    assert!(rt; refusal(rt.alloc(), &bytes, &shape) == Some(ParityErr::Long));
    Ok(())
}

// What reading is refused for where a byte is wrong before the exclusive ors of the small drive.
fn named(at: usize) -> Option<ParityErr> {
    match at {
        0..8 => Some(ParityErr::Magic),
        8..12 => Some(ParityErr::Version),
        12..32 => Some(ParityErr::Numbers),
        32..160 => Some(ParityErr::State {
            unit: (at as u32 - 32) / 64,
            chunk: (at as u32 - 32) / 8 % 8,
        }),
        _ => None,
    }
}

#[test]
fn a_wrong_byte_is_refused_by_its_name(rt: HostRuntime) -> Result<(), Fail> {
    let (mut bytes, shape) = file(rt.alloc(), &MIXED)?;
    for at in 0..bytes.len().min(700) {
        bytes[at] ^= 64;
        assert!(rt; refusal(rt.alloc(), &bytes, &shape) == named(at));
        bytes[at] ^= 64;
    }
    Ok(())
}

#[test]
fn exclusive_ors_that_are_wrong_stay_as_they_are(rt: HostRuntime) -> Result<(), Fail> {
    let (mut bytes, shape) = file(rt.alloc(), &MIXED)?;
    for block in 0..66 {
        let at = 160 + 528 * block;
        if at < bytes.len() {
            bytes[at] ^= 64;
        }
    }
    assert!(rt; again(rt.alloc(), &bytes, &shape)? == bytes);
    Ok(())
}
