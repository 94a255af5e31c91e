//! Images as drives in memory.

ghost use Rattle.std.specs.Prelude.{IsTrue};
ghost use Rattle.pblk_model.specs.Chunk.{PointerFits};

use crate::image::{Step, Units, made};
use ocssd_drive::{ChunkState, Drive, Geometry};
use pblk_model::Mark;
use pblk_reference::Chunk as Written;
use std::alloc::{AllocError, Global};

/// The small drive after these steps from a blank image.
pub fn restored(alloc: Global, steps: &[Step]) -> Result<Drive, AllocError> {
    let image = made(alloc, steps)?;
    let mut drive = Drive::new(alloc, Geometry::small(), 512, 64, 64)?;
    for unit in 0..2u32 {
        restore_unit(alloc, &mut drive, unit, &image)?;
    }
    Ok(drive)
}

fn restore_unit(
    alloc: Global,
    drive: &mut Drive,
    unit: u32,
    image: &Units,
) -> Result<(), AllocError> {
    if let Some(chunks) = image.get(unit as usize) {
        for line in 0..8u32 {
            if let Some(chunk) = chunks.get(line as usize) {
                let (bytes, marks) = blocks_of(alloc, chunk)?;
                restore(drive, unit, line, chunk.state, &bytes, &marks);
            }
        }
    }
    Ok(())
}

// The bytes of a chunk's blocks, one after another, and their marks.
fn blocks_of(alloc: Global, chunk: &Written) -> Result<(Vec<u8>, Vec<Mark>), AllocError> {
    let mut bytes = Vec::new(alloc);
    let mut marks = Vec::new(alloc);
    for block in &chunk.blocks {
        bytes.extend_from_slice(&block.sector)?;
        marks.push(block.mark)?;
    }
    Ok((bytes, marks))
}

// Writes a chunk of the small drive, if there is such a chunk.
fn restore(
    drive: &mut Drive,
    unit: u32,
    chunk: u32,
    state: ChunkState,
    bytes: &[u8],
    marks: &[Mark],
) {
    let shape = drive.shape();
    let count = marks.len();
    if unit < shape.units()
        && chunk < shape.chunks
        && shape.sector == 512
        && shape.ws_min == 2
        && count <= 24
        && count % 2 == 0
        && bytes.len() == count * 512
        && fits(state, shape.clba, count)
    {
        drive.restore(unit, chunk, 0, state, bytes, marks);
    }
}

// Whether a chunk in this state may have so many blocks.
fn fits(state: ChunkState, clba: u32, count: usize) -> bool
    ensures { IsTrue result → PointerFits state clba count }
{
    match state {
        ChunkState::Free | ChunkState::Offline => count == 0,
        ChunkState::Open => 0 < count && count < clba as usize,
        ChunkState::Closed => count <= clba as usize,
    }
}
