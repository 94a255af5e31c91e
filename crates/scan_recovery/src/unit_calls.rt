//! Commands of one unit out of several.

ghost use Rattle.std.specs.Prelude.{ℕ, ◌≡◌, ◌≢◌, ◌*◌, length, map, slice_get};
ghost use Rattle.pblk_model.specs.Blocks.{blocks_of};
ghost use Rattle.pblk_model.specs.ChunkStep.{Read, Write};
ghost use Rattle.unit_port.specs.Unit.{TellsBlock, TellsDone};
ghost use Rattle.unit_port.specs.Commands.{AreKept, IsTaken};
ghost use Rattle.unit_port.specs.Did.{AreOfSize, DidAt, command_at};

use pblk_model::{Got, Mark};
use unit_port::{Unit, UnitErr};

/// Programs blocks from a block of a chunk of a unit on. `size` is the length of a sector.
pub(crate) fn program_at<U: Unit>(
    units: &mut [U],
    unit: usize,
    chunk: u32,
    at: u32,
    size: usize,
    bytes: &[u8],
    marks: &[Mark],
) -> Result<(), UnitErr>
    requires sector { AreOfSize size (map U.model units.old) }
    requires whole { length bytes.now ≡ length marks.now * size }
    requires taken { let blocks = blocks_of size bytes.now marks.now
        in IsTaken (map U.model units.old) (command_at unit chunk (Write at blocks)) }
    ensures did { let blocks = blocks_of size bytes.now marks.now
        in DidAt (map U.model units.old) (command_at unit chunk (Write at blocks))
        (TellsDone result) (map U.model units.new) }
    ensures kept { AreKept (map U.model units.old) (map U.model units.new) }
    ensures wear { map U.wear units.new ≡ map U.wear units.old }
{
    let found = &mut units[unit];
    found.program(chunk, at, bytes, marks)
}

/// Fetches a block of a chunk of a unit. No other unit is commanded.
pub(crate) fn fetch_at<U: Unit>(
    units: &mut [U],
    unit: usize,
    chunk: u32,
    block: u32,
    out: &mut [u8],
) -> Result<Got, UnitErr>
    requires sector { AreOfSize (length out.old) (map U.model units.old) }
    requires taken { IsTaken (map U.model units.old) (command_at unit chunk (Read block)) }
    ensures did { DidAt (map U.model units.old) (command_at unit chunk (Read block))
        (TellsBlock out.old out.new result) (map U.model units.new) }
    ensures kept { AreKept (map U.model units.old) (map U.model units.new) }
    ensures wear { map U.wear units.new ≡ map U.wear units.old }
    ensures others { (k : ℕ) → k ≢ unit → slice_get units.new k ≡ slice_get units.old k }
{
    let found = &mut units[unit];
    found.fetch(chunk, block, out)
}
