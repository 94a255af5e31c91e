//! Commands of one unit out of several.
ghost use Rattle.std.specs.Prelude.{◌≡◌, ◌*◌, length, map};
ghost use Rattle.pblk_model.specs.Blocks.{blocks_of};
ghost use Rattle.pblk_model.specs.ChunkStep.{Write, Read, Reset};
ghost use Rattle.unit_port.specs.Commands.{AreKept, IsTaken};
ghost use Rattle.unit_port.specs.Did.{AreOfSize, command_at};
ghost use Rattle.vector_io.specs.Status.{WasDone, WasFetched};

use pblk_model::{Got, Mark};
use unit_port::{Unit, UnitErr};

/// Resets a chunk of a unit, and says whether that failed or was stopped.
pub(crate) fn reset_at<U: Unit>(units: &mut [U], unit: usize, chunk: u32) -> bool
    requires { IsTaken (map U.model units.old) (command_at unit chunk Reset) }
    ensures did { WasDone (map U.model units.old) (command_at unit chunk Reset) result
        (map U.model units.new) }
    ensures kept { AreKept (map U.model units.old) (map U.model units.new) }
{
    let found = &mut units[unit];
    found.reset(chunk).is_err()
}

/// Programs blocks from a block of a chunk of a unit on, and says whether that failed or was stopped.
/// `size` is the length of a sector.
pub(crate) fn program_at<U: Unit>(
    units: &mut [U],
    unit: usize,
    chunk: u32,
    at: u32,
    size: usize,
    bytes: &[u8],
    marks: &[Mark],
) -> bool
    requires sector { AreOfSize size (map U.model units.old) }
    requires whole { length bytes.now ≡ length marks.now * size }
    requires taken { let blocks = blocks_of size bytes.now marks.now
        in IsTaken (map U.model units.old) (command_at unit chunk (Write at blocks)) }
    ensures did { let command = command_at unit chunk
        (Write at (blocks_of size bytes.now marks.now))
        in WasDone (map U.model units.old) command result (map U.model units.new) }
    ensures kept { AreKept (map U.model units.old) (map U.model units.new) }
{
    let found = &mut units[unit];
    found.program(chunk, at, bytes, marks).is_err()
}

/// Fetches a block of a chunk of a unit.
pub(crate) fn fetch_at<U: Unit>(
    units: &mut [U],
    unit: usize,
    chunk: u32,
    block: u32,
    out: &mut [u8],
) -> Result<Got, UnitErr>
    requires sector { AreOfSize (length out.old) (map U.model units.old) }
    requires taken { IsTaken (map U.model units.old) (command_at unit chunk (Read block)) }
    ensures did { let command = command_at unit chunk (Read block)
        in WasFetched (map U.model units.old) command out.old out.new result
        (map U.model units.new) }
    ensures kept { AreKept (map U.model units.old) (map U.model units.new) }
{
    let found = &mut units[unit];
    found.fetch(chunk, block, out)
}
