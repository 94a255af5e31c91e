//! Units made anew.

use crate::drives::{MIXED, drive_of, listing, parity_of};
use ocssd_drive::{Chunk, Drive};
use std::alloc::{AllocError, Global};
use std::test::Fail;
use stripe_parity::{Parity, ParityErr, rebuild};

// Takes all blocks of a chunk away.
fn wipe(alloc: Global, drive: &mut Drive, unit: u32, chunk: u32) -> Result<(), AllocError> {
    let shape = drive.shape();
    let free = Chunk::new(alloc, &shape)?;
    if unit < shape.units() && chunk < shape.chunks {
        drive.replace_chunk(unit, chunk, free);
    }
    Ok(())
}

fn wipe_unit(alloc: Global, drive: &mut Drive, unit: u32) -> Result<(), AllocError> {
    for chunk in 0..8 {
        wipe(alloc, drive, unit, chunk)?;
    }
    Ok(())
}

// `rebuild`, where the parity is one of the drive's shape and the drive has the unit.
fn rebuilt(
    alloc: Global,
    drive: &mut Drive,
    parity: &Parity,
    lost: u32,
) -> Result<Option<u32>, ParityErr> {
    let shape = parity.shape();
    if shape == drive.shape() && lost < shape.units() {
        return Ok(Some(rebuild(alloc, drive, parity, lost)?));
    }
    Ok(None)
}

// What a drive holds before a unit is lost and once it is made anew, and how many blocks were made.
fn around(alloc: Global, lost: u32) -> Result<(Vec<u8>, Vec<u8>, Option<u32>), Fail> {
    let mut drive = drive_of(alloc, &MIXED)?;
    let parity = parity_of(alloc, &mut drive)?;
    let before = listing(alloc, &drive)?;
    wipe_unit(alloc, &mut drive, lost)?;
    let blocks = rebuilt(alloc, &mut drive, &parity, lost)?;
    let after = listing(alloc, &drive)?;
    Ok((before, after, blocks))
}

#[test]
fn unit_0_comes_back(rt: HostRuntime) -> Result<(), Fail> {
    let (before, after, blocks) = around(rt.alloc(), 0)?;
    assert!(rt; before == after);
    assert!(rt; blocks == Some(48));
    Ok(())
}

#[test]
fn unit_1_comes_back(rt: HostRuntime) -> Result<(), Fail> {
    let (before, after, blocks) = around(rt.alloc(), 1)?;
    assert!(rt; before == after);
    assert!(rt; blocks == Some(52));
    Ok(())
}

#[test]
fn a_drive_that_differs_elsewhere_is_refused(rt: HostRuntime) -> Result<(), Fail> {
    let mut drive = drive_of(rt.alloc(), &MIXED)?;
    let parity = parity_of(rt.alloc(), &mut drive)?;
    wipe_unit(rt.alloc(), &mut drive, 1)?;
    wipe(rt.alloc(), &mut drive, 0, 1)?;
    let before = listing(rt.alloc(), &drive)?;
    let told = rebuilt(rt.alloc(), &mut drive, &parity, 1);
    assert!(rt; told == Err(ParityErr::Differs { unit: 0, chunk: 1 }));
    let after = listing(rt.alloc(), &drive)?;
    assert!(rt; before == after);
    Ok(())
}
