//! A port, as the layers above write, read and flush through it.
ghost use Rattle.std.specs.Prelude.{◌≡◌, ◌↔◌, ◌++◌, ◌<◌, ◌≤◌, ◌^◌, length, max, IfOk, OnErr, IsErrOf};
ghost use Rattle.block_port.specs.Own.{sectors_of};
ghost use Rattle.block_port.specs.Port.{ModelPort, IsSectorSize, AreSectors, IsPastEnd, count_in, sectors_at, written_by};
ghost use Rattle.block_port.specs.Port.{IsSameTarget, Learns, IsWritten, IsSeen, AreShort};
ghost use Rattle.block_port.specs.Port.{write_faults, write_worns, read_faults, flush_faults, flush_worns};

use pblk_model::{Front, Place};
use std::sync::Wait;
use thiserror::Error;

/// Why a write wasn't made.
#[derive(Clone, Copy, Debug, PartialEq, Eq, Error)]
pub enum WriteErr {
    /// Its sectors aren't all below the capacity.
    #[error("a sector is past the capacity")]
    Range,
    /// This event of this unit, from 1, was a failed fetch or a stopped command.
    #[error("event {event} of unit {unit} failed or was stopped")]
    Drive { unit: u32, event: u64 },
    /// There is no room: positions up to `wanted` were asked for, and those below `have` are
    /// granted.
    #[error("{wanted} is wanted, and there is {have}")]
    Worn { wanted: u64, have: u64 },
}

/// Why a read wasn't answered.
#[derive(Clone, Copy, Debug, PartialEq, Eq, Error)]
pub enum ReadErr {
    /// Its sectors aren't all below the capacity.
    #[error("a sector is past the capacity")]
    Range,
    /// This event of this unit, from 1, was a failed fetch or a stopped command.
    #[error("event {event} of unit {unit} failed or was stopped")]
    Drive { unit: u32, event: u64 },
}

/// Why a flush wasn't answered.
#[derive(Clone, Copy, Debug, PartialEq, Eq, Error)]
pub enum FlushErr {
    /// This event of this unit, from 1, was a failed fetch or a stopped command.
    #[error("event {event} of unit {unit} failed or was stopped")]
    Drive { unit: u32, event: u64 },
    /// No more can be put on the drive: all below `wanted` was asked for, and all below `have` is
    /// there.
    #[error("{wanted} is wanted, and there is {have}")]
    Worn { wanted: u64, have: u64 },
}

/// What a port has seen, for another port to hear: all positions below this one, which is below
/// 2^63.
#[derive(Clone, Copy, Debug, PartialEq, Eq)]
pub struct Note {
    pub position: u64,
    ghost small: { position < 2 ^ 63 },
}

/// A port to a block device of sectors, which are numbered from 0.
///
/// All writes, of this port and of others, stand in one order, the history. A position is a number
/// in that order, and a front is all that stands below a position (Bjørling, González, Bonnet, FAST
/// 2017, write buffering). What a port has seen is a position too: the greatest among the ends of
/// its own writes, the fronts that it answered, and the notes that it heard.
///
/// A call that is refused has written nothing, and its port has seen no more than before. `write`,
/// `read` and `flush` may wait for others.
pub trait Port {
    /// The contents at the beginning, what is known of the history, what was seen, written and
    /// flushed, the Drive and Worn answers, the capacity, the sector size and the drive below.
    ghost model: { Self → ModelPort };

    /// Writes 1 to 16 sectors from `lba` on, and gives their place in the order of all writes,
    /// which is past all that the port has seen.
    ///
    /// `Range` comes exactly where the sectors aren't all below the capacity, and first. `Drive`
    /// names an event of a unit that was a failed fetch or a stopped command. `Worn` comes where
    /// there is no room.
    fn write<R: Wait>(&mut self, rt: &R, lba: u64, bytes: &[u8]) -> Result<Place, WriteErr>
        requires sectors { AreSectors (model self.old).sector (length bytes.now) }

        ensures range { IsErrOf result WriteErr.Range
            ↔ IsPastEnd (model self.old) lba (length bytes.now) }
        ensures untouched { IsErrOf result WriteErr.Range → model self.new ≡ model self.old }

        ensures written { IfOk result (λ place.
            IsWritten lba bytes.now place (model self.old) (model self.new)) }
        ensures refused_own { OnErr result ((model self.new).own ≡ (model self.old).own) }
        ensures refused_seen { OnErr result ((model self.new).seen ≡ (model self.old).seen) }

        ensures faults { (model self.new).faults ≡ (model self.old).faults ++ write_faults result }
        ensures worns { let count = count_in (model self.old) (length bytes.now) in
            (model self.new).worns ≡ (model self.old).worns
            ++ write_worns (written_by (model self.old)) count result }
        ensures short { let count = count_in (model self.old) (length bytes.now) in
            AreShort (write_worns (written_by (model self.old)) count result) }

        ensures learns { Learns (model self.old) (model self.new) }
        ensures target { IsSameTarget (model self.old) (model self.new) };

    /// Reads the 1 to 16 sectors from `lba` on that have room in `out`, each with its latest write
    /// at a front, and gives that front. It holds all that the port has seen.
    ///
    /// `Range` comes exactly where the sectors aren't all below the capacity, and first. `Drive`
    /// names an event of a unit that was a failed fetch or a stopped command. After an `Err`
    /// nothing is known of what `out` has.
    fn read<R: Wait>(&mut self, rt: &R, lba: u64, out: &mut [u8]) -> Result<Front, ReadErr>
        requires sectors { AreSectors (model self.old).sector (length out.old) }

        ensures range { IsErrOf result ReadErr.Range
            ↔ IsPastEnd (model self.old) lba (length out.old) }
        ensures untouched { IsErrOf result ReadErr.Range → model self.new ≡ model self.old }

        ensures front { IfOk result (λ front. IsSeen front (model self.old) (model self.new)) }
        ensures words { let count = count_in (model self.old) (length out.old) in
            IfOk result (λ front. sectors_of (model self.old).sector count out.new
            ≡ sectors_at (model self.new) front lba count) }
        ensures refused_seen { OnErr result ((model self.new).seen ≡ (model self.old).seen) }

        ensures own { (model self.new).own ≡ (model self.old).own }
        ensures faults { (model self.new).faults ≡ (model self.old).faults ++ read_faults result }
        ensures worns { (model self.new).worns ≡ (model self.old).worns }

        ensures learns { Learns (model self.old) (model self.new) }
        ensures target { IsSameTarget (model self.old) (model self.new) };

    /// Puts all that the port has seen on the drive, and gives a front that holds it and is there.
    ///
    /// `Drive` names an event of a unit that was a failed fetch or a stopped command. `Worn` comes
    /// where no more can be put there.
    fn flush<R: Wait>(&mut self, rt: &R) -> Result<Front, FlushErr>
        ensures front { IfOk result (λ front. IsSeen front (model self.old) (model self.new)) }
        ensures flushed { IfOk result (λ front. front.position ≤ (model self.new).flushed) }
        ensures refused_seen { OnErr result ((model self.new).seen ≡ (model self.old).seen) }

        ensures own { (model self.new).own ≡ (model self.old).own }
        ensures faults { (model self.new).faults ≡ (model self.old).faults ++ flush_faults result }
        ensures worns { (model self.new).worns ≡ (model self.old).worns
            ++ flush_worns (written_by (model self.old)) result }
        ensures short { AreShort (flush_worns (written_by (model self.old)) result) }

        ensures learns { Learns (model self.old) (model self.new) }
        ensures target { IsSameTarget (model self.old) (model self.new) };

    /// What the port has seen.
    fn tell(&self) -> Note
        ensures { result.position ≡ (model self.now).seen };

    /// The port has seen what the note tells too, from now on.
    fn hear(&mut self, note: Note)
        ensures { model self.new ≡ record (model self.old) {
          seen = max (model self.old).seen note.position;
        } };

    /// How many bytes a sector has: 512 or 4096.
    fn sector(&self) -> u32
        ensures sector { result ≡ (model self.now).sector }
        ensures size { IsSectorSize result };
}
