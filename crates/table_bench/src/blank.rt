//! What recovery finds on a blank drive.
ghost use Rattle.std.specs.Prelude.{IfOk};
ghost use Rattle.pblk_model.specs.Found.{IsFitFound};

use pblk_layout::Layout;
use pblk_model::{ChunkState, Found, Items, LineRow};
use std::alloc::{AllocError, Global};

const UNUSED: LineRow = LineRow {
    seq: None,
    bound: 0,
    top: 0,
    full: false,
    young: false,
};

/// The findings on a drive whose chunks are all Free.
pub(crate) fn blank(alloc: Global, layout: &Layout) -> Result<Found, AllocError>
    ensures { IfOk result (IsFitFound layout.now) }
{
    let shape = layout.shape();
    let count = shape.units() as usize * shape.chunks as usize;
    let chunks = vec![in alloc; ChunkState::Free; count]?;
    let lines = vec![in alloc; UNUSED; shape.chunks as usize]?;
    Ok(Found {
        winners: Items::new(alloc),
        head: None,
        front: 0,
        end: 0,
        strays: Items::new(alloc),
        chunks: Items::from_vec(chunks),
        lines: Items::from_vec(lines),
    })
}
