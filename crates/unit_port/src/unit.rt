//! A parallel unit of a drive, as the layers above command it.
ghost use Rattle.std.specs.Prelude.{ℕ, List, [], ◌≡◌, ◌≢◌, ◌*◌, ◌-◌, ◌^◌, ◌<◌, length, min, true, IsOk, Err};
ghost use Rattle.pblk_model.specs.Blocks.{blocks_of};
ghost use Rattle.pblk_model.specs.Chunk.{pointer};
ghost use Rattle.pblk_model.specs.ChunkStep.{Write, Read, Reset};
ghost use Rattle.unit_port.specs.Armed.{IsUnarmed};
ghost use Rattle.unit_port.specs.Unit.{ModelUnit, Takes, IsChunkOf, IsFitUnit, DidProgram, DidFetch, DidReset};

use pblk_model::{ChunkState, Got, Mark};
use thiserror::Error;

/// Why a unit didn't do a command.
#[derive(Clone, Copy, Debug, PartialEq, Eq, Error)]
pub enum UnitErr {
    /// The command failed.
    #[error("the command failed")]
    Failed,
    /// The drive has stopped.
    #[error("the drive has stopped")]
    Stopped,
}

/// A parallel unit of a drive: chunks, to be programmed, fetched from and reset (Open-Channel SSD
/// Specification 2.0, Parallel units; Vector write, read and reset).
///
/// Each program, fetch and reset adds one event to the unit's log, and leaves the chunks as that event
/// says. A unit is stopped from its first `Stopped` answer until it is disarmed or armed anew. A stopped
/// unit answers `Stopped` to every command, and changes nothing but its log. After `Failed` or `Stopped`
/// the log's last event says what the command had landed. A unit that is armed with no plan fails no
/// command, and one that is armed with no fuse either stops at none.
pub trait Unit {
    /// The shape of the unit's drive, its chunks, its log, and what it was armed with.
    ghost model: { Self → ModelUnit };

    /// The wear level index of each chunk (Open-Channel SSD Specification 2.0, Chunk information). It is as the
    /// unit was given it: no command changes it.
    ghost wear: { Self → List ℕ };

    /// Appends blocks to a chunk, from the block `at` on. `bytes` has the sectors one after another, and
    /// `marks` their marks.
    ///
    /// The chunk is one of the unit's, and doesn't refuse the write, unless the unit is stopped: it is Free
    /// or Open, `at` is its write pointer, and the blocks are a positive multiple of WS_MIN that fits below
    /// CLBA. A program that fails or is stopped may have landed some multiples of WS_MIN; the log's event
    /// says how many.
    fn program(&mut self, chunk: u32, at: u32, bytes: &[u8], marks: &[Mark]) -> Result<(), UnitErr>
        requires whole { length bytes.now ≡ length marks.now * (model self.old).shape.sector }
        requires taken { let blocks = blocks_of (model self.old).shape.sector bytes.now marks.now
            in Takes (model self.old) chunk (Write at blocks) }
        ensures event { DidProgram (model self.old) chunk at bytes.now marks.now result
            (model self.new) }
        ensures fits { IsFitUnit (model self.old) → IsFitUnit (model self.new) }
        ensures wear { wear self.new ≡ wear self.old }
        ensures quiet { IsUnarmed (model self.old).armed → IsOk result }
        ensures unfailing { (model self.old).armed.plans ≡ [] → result ≢ Err UnitErr.Failed };

    /// Copies the sector of a block to `out`, which has the length of a sector, and gives its mark, or
    /// `Empty` exactly where the block isn't readable. Where no sector is given `out` is as before.
    ///
    /// The chunk is one of the unit's, isn't Offline, and has the block, unless the unit is stopped.
    fn fetch(&mut self, chunk: u32, block: u32, out: &mut [u8]) -> Result<Got, UnitErr>
        requires whole { length out.old ≡ (model self.old).shape.sector }
        requires taken { Takes (model self.old) chunk (Read block) }
        ensures event { DidFetch (model self.old) chunk block out.old out.new result
            (model self.new) }
        ensures fits { IsFitUnit (model self.old) → IsFitUnit (model self.new) }
        ensures wear { wear self.new ≡ wear self.old }
        ensures quiet { IsUnarmed (model self.old).armed → IsOk result }
        ensures unfailing { (model self.old).armed.plans ≡ [] → result ≢ Err UnitErr.Failed };

    /// Takes all blocks of a chunk away, and leaves it Free, or Offline where it was closed before its end.
    ///
    /// The chunk is one of the unit's, and neither Free nor Offline, unless the unit is stopped. A reset
    /// that fails leaves the chunk Offline. One that is stopped may have been done; the log's event says so.
    fn reset(&mut self, chunk: u32) -> Result<(), UnitErr>
        requires { Takes (model self.old) chunk Reset }
        ensures event { DidReset (model self.old) chunk result (model self.new) }
        ensures fits { IsFitUnit (model self.old) → IsFitUnit (model self.new) }
        ensures wear { wear self.new ≡ wear self.old }
        ensures quiet { IsUnarmed (model self.old).armed → IsOk result }
        ensures unfailing { (model self.old).armed.plans ≡ [] → result ≢ Err UnitErr.Failed };

    /// The state of a chunk of the unit, and its write pointer, from 0 to CLBA. It isn't logged.
    fn state(&self, chunk: u32) -> (ChunkState, u32)
        requires { chunk < length (model self.now).media }
        ensures { (found : _) × IsChunkOf (model self.now) chunk found × (result.0 ≡ found.state)
            × (result.1 ≡ pointer found) };

    /// How many events the log has, or 2^64 - 1 where that is less.
    fn events(&self) -> u64
        ensures count { result ≡ min (length (model self.now).log) (2 ^ 64 - 1) };
}
