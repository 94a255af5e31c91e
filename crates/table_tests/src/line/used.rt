//! What recovery finds on a small drive with lines of every kind.
ghost use Rattle.std.specs.Prelude.{IfOk};
ghost use Rattle.pblk_model.specs.Found.{IsFitFound};
ghost use Rattle.pblk_model.specs.Shape.{small};

use pblk_model::{ChunkState, Found, Items, LineRow, Winner};
use std::alloc::{AllocError, Global};

// By unit, then by chunk. Lines 0 and 1 are written, line 2 is written on one unit, line 3 is Offline, and
// line 4 is Offline on one unit.
const CHUNKS: [ChunkState; 16] = [
    ChunkState::Closed,
    ChunkState::Closed,
    ChunkState::Closed,
    ChunkState::Offline,
    ChunkState::Free,
    ChunkState::Free,
    ChunkState::Free,
    ChunkState::Free,
    ChunkState::Closed,
    ChunkState::Closed,
    ChunkState::Free,
    ChunkState::Offline,
    ChunkState::Offline,
    ChunkState::Free,
    ChunkState::Free,
    ChunkState::Free,
];

const UNUSED: LineRow = LineRow {
    seq: None,
    bound: 0,
    top: 0,
    full: false,
    young: false,
};

// With its end record.
const FIRST: LineRow = LineRow {
    seq: Some(1),
    bound: 0,
    top: 2,
    full: true,
    young: true,
};

// The head, without one.
const SECOND: LineRow = LineRow {
    seq: Some(2),
    bound: 0,
    top: 3,
    full: false,
    young: true,
};

const LINES: [LineRow; 8] = [
    FIRST, SECOND, UNUSED, UNUSED, UNUSED, UNUSED, UNUSED, UNUSED,
];

// Two sectors of line 0.
const WINNERS: [Winner; 2] = [
    Winner {
        lba: 3,
        position: 1,
        line: 0,
        at: 4,
    },
    Winner {
        lba: 5,
        position: 0,
        line: 0,
        at: 8,
    },
];

/// The findings on a small drive with a line that is full, one that isn't, a stray, and lines with chunks that
/// are Offline.
pub(crate) fn used(alloc: Global) -> Result<Found, AllocError>
    ensures { IfOk result (IsFitFound small) }
{
    let winners = Vec::from_array(alloc, WINNERS)?;
    let strays = Vec::from_array(alloc, [2])?;
    let chunks = Vec::from_array(alloc, CHUNKS)?;
    let lines = Vec::from_array(alloc, LINES)?;
    Ok(Found {
        winners: Items::from_vec(winners),
        head: Some(1),
        front: 0,
        end: 3,
        strays: Items::from_vec(strays),
        chunks: Items::from_vec(chunks),
        lines: Items::from_vec(lines),
    })
}
