//! Drives with some chunks written, and their parities.

use ocssd_chunks::has_sectors;
use ocssd_drive::{Chunk, ChunkState, Drive, Geometry, Mark, MemoryUnit};
use std::alloc::{AllocError, Global};
use std::test::Fail;
use stripe_parity::{Parity, make_for, pad_drive};

/// Which chunks of a drive are written: the unit, the chunk, and how many blocks it has, or none
/// where it is out of use.
pub(crate) type Written = (u32, u32, Option<u32>);

/// Chunks written whole, in part by a failed write, and not at all, on both units or on one.
pub(crate) static MIXED: [Written; 7] = [
    (0, 0, Some(24)),
    (1, 0, Some(24)),
    (0, 1, Some(24)),
    (1, 1, Some(10)),
    (0, 2, None),
    (1, 2, Some(2)),
    (1, 7, Some(16)),
];

/// The small drive, two units of eight chunks of 24 blocks, with these chunks.
pub(crate) fn drive_of(alloc: Global, written: &[Written]) -> Result<Drive, Fail> {
    let mut drive = blank(alloc)?;
    for (unit, chunk, count) in written {
        match count {
            Some(count) => write(alloc, &mut drive, *unit, *chunk, *count)?,
            None => retire(&mut drive, *unit, *chunk),
        }
    }
    Ok(drive)
}

fn blank(alloc: Global) -> Result<Drive, Fail> {
    let mut page = [0u8; 4096];
    Geometry::small().write(&mut page);
    let geometry = Geometry::read(&page)?;
    match Drive::refusal(&geometry, 512, 64, 64) {
        Some(refusal) => Err(refusal.into()),
        None => Ok(Drive::new(alloc, geometry, 512, 64, 64)?),
    }
}

// Closes a chunk with blocks whose bytes and marks are its own.
fn write(
    alloc: Global,
    drive: &mut Drive,
    unit: u32,
    chunk: u32,
    count: u32,
) -> Result<(), AllocError> {
    let mut bytes = Vec::new(alloc);
    let mut marks = Vec::new(alloc);
    for block in 0..count {
        let tag = u64::from(unit) << 32 | u64::from(chunk) << 16 | u64::from(block);
        for word in 0..64u64 {
            bytes.extend_from_slice(&tag.wrapping_mul(word + 1).to_le_bytes())?;
        }
        marks.push(Mark {
            lba: tag,
            position: tag.wrapping_mul(3),
        })?;
    }
    close(drive, unit, chunk, &bytes, &marks);
    Ok(())
}

// Closes a chunk with these blocks, where it may have them.
fn close(drive: &mut Drive, unit: u32, chunk: u32, bytes: &[u8], marks: &[Mark]) {
    let shape = drive.shape();
    let least = shape.ws_min as usize;
    if unit < shape.units()
        && chunk < shape.chunks
        && marks.len() <= shape.clba as usize
        && least > 0
        && marks.len() % least == 0
        && has_sectors(&shape, bytes, marks)
    {
        drive.restore(unit, chunk, 3, ChunkState::Closed, bytes, marks);
    }
}

// Takes a chunk out of use.
fn retire(drive: &mut Drive, unit: u32, chunk: u32) {
    let shape = drive.shape();
    if unit < shape.units() && chunk < shape.chunks {
        drive.restore(unit, chunk, 3, ChunkState::Offline, &[], &[]);
    }
}

/// A drive's parity, once its Open chunks are closed.
pub(crate) fn parity_of(alloc: Global, drive: &mut Drive) -> Result<Parity, Fail> {
    pad_drive(alloc, drive)?;
    Ok(make_for(alloc, drive)?)
}

/// All that a drive holds: of each chunk its state, its wear index and its blocks.
pub(crate) fn listing(alloc: Global, drive: &Drive) -> Result<Vec<u8>, AllocError> {
    let mut bytes = Vec::new(alloc);
    for unit in &drive.units {
        list_unit(unit, &mut bytes)?;
    }
    Ok(bytes)
}

fn list_unit(unit: &MemoryUnit, bytes: &mut Vec<u8>) -> Result<(), AllocError> {
    let shape = unit.shape();
    for chunk in 0..shape.chunks {
        bytes.extend_from_slice(&[unit.wear(chunk)])?;
        list_chunk(unit.chunk(chunk), bytes)?;
    }
    Ok(())
}

fn list_chunk(chunk: &Chunk, bytes: &mut Vec<u8>) -> Result<(), AllocError> {
    let (state, pointer) = chunk.state();
    bytes.extend_from_slice(&[code_of(state)])?;
    for block in 0..pointer {
        if let Some((sector, mark)) = chunk.written(block) {
            bytes.extend_from_slice(sector)?;
            bytes.extend_from_slice(&mark.lba.to_le_bytes())?;
            bytes.extend_from_slice(&mark.position.to_le_bytes())?;
        }
    }
    Ok(())
}

fn code_of(state: ChunkState) -> u8 {
    match state {
        ChunkState::Free => 1,
        ChunkState::Open => 2,
        ChunkState::Closed => 3,
        ChunkState::Offline => 4,
    }
}
