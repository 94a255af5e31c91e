//! What recovery finds on a blank small drive.
ghost use Rattle.std.specs.Prelude.{IfOk};
ghost use Rattle.pblk_model.specs.Found.{IsFitFound};
ghost use Rattle.pblk_model.specs.Shape.{small};

use pblk_model::{ChunkState, Found, Items, LineRow};
use std::alloc::{AllocError, Global};

const UNUSED: LineRow = LineRow {
    seq: None,
    bound: 0,
    top: 0,
    full: false,
    young: false,
};

/// The findings on a small drive whose chunks are all Free.
pub(crate) fn blank(alloc: Global) -> Result<Found, AllocError>
    ensures { IfOk result (IsFitFound small) }
{
    let chunks = vec![in alloc; ChunkState::Free; 16]?;
    let lines = vec![in alloc; UNUSED; 8]?;
    Ok(Found {
        winners: Items::new(alloc),
        head: None,
        front: 0,
        end: 0,
        strays: Items::new(alloc),
        chunks: Items::from_vec(chunks),
        lines: Items::from_vec(lines),
    })
}
