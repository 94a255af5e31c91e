//! Units that hold a program until programs of all units have begun.
ghost use Rattle.std.specs.Prelude.{◌≡◌, ◌*◌, ◌^◌, ◌-◌, ◌<◌, ◌≢◌, length, min, IsOk, Err, []};
ghost use Rattle.pblk_model.specs.Blocks.{blocks_of};
ghost use Rattle.pblk_model.specs.Chunk.{pointer};
ghost use Rattle.pblk_model.specs.ChunkStep.{Write, Read, Reset};
ghost use Rattle.unit_port.specs.Armed.{IsUnarmed};
ghost use Rattle.unit_port.specs.Unit.{IsChunkOf, IsFitUnit, Takes, DidProgram, DidFetch, DidReset};

use crossbeam_utils::Backoff;
use ocssd_drive::MemoryUnit;
use pblk_model::{ChunkState, Got, Mark};
use std::sync::atomic::{AtomicBool, AtomicU64, Ordering};
use unit_port::{Unit, UnitErr};

// How many turns a program is held at most.
const TURNS: u32 = 1_000_000;

/// What units know of the programs that they hold.
#[derive(Drop)]
pub(crate) struct Gate {
    // how many are to be held at once
    units: u64,
    // how many have begun
    begun: AtomicU64,
    // whether one was held for as long as may be
    late: AtomicBool,
}

impl Gate {
    /// A gate at which a program of each of so many units is held.
    pub(crate) fn new(units: u64) -> Gate {
        Gate {
            units,
            begun: AtomicU64::new(0),
            late: AtomicBool::new(false),
        }
    }

    /// Whether all programs that were to be held were held at once.
    pub(crate) fn has_opened(&self) -> bool {
        self.begun.load(Ordering::SeqCst) == self.units && !self.late.load(Ordering::SeqCst)
    }

    // A program has begun. It is held until those of all units have, or for as long as may be.
    fn pass(&self) {
        self.begun.fetch_add(1, Ordering::SeqCst);
        let backoff = Backoff::new();
        for _ in 0..TURNS {
            if self.begun.load(Ordering::SeqCst) >= self.units {
                return;
            }
            backoff.snooze();
        }
        self.late.store(true, Ordering::SeqCst);
    }
}

/// A unit in memory that holds one of its programs.
#[derive(Drop)]
pub(crate) struct HeldUnit<'g> {
    /// The unit in memory.
    pub(crate) unit: MemoryUnit,
    /// Where the program is held.
    pub(crate) gate: &'g Gate,
    /// How many programs there are up to the one that is held; 0 once it was.
    pub(crate) programs: u32,
}

impl Unit for HeldUnit<'_> {
    ghost model = { λ h. h.unit.unit };

    ghost wear = { λ h. h.unit.wear };

    fn program(&mut self, chunk: u32, at: u32, bytes: &[u8], marks: &[Mark]) -> Result<(), UnitErr>
        requires whole { length bytes.now ≡ length marks.now * self.old.unit.unit.shape.sector }
        requires taken { let blocks = blocks_of self.old.unit.unit.shape.sector bytes.now marks.now
            in Takes self.old.unit.unit chunk (Write at blocks) }
        ensures event { DidProgram self.old.unit.unit chunk at bytes.now marks.now result
            self.new.unit.unit }
        ensures fits { IsFitUnit self.old.unit.unit → IsFitUnit self.new.unit.unit }
        ensures wear { self.new.unit.wear ≡ self.old.unit.wear }
        ensures quiet { IsUnarmed self.old.unit.unit.armed → IsOk result }
        ensures unfailing { self.old.unit.unit.armed.plans ≡ [] → result ≢ Err UnitErr.Failed }
    {
        if self.programs == 1 {
            self.gate.pass();
        }
        self.programs = self.programs.saturating_sub(1);
        self.unit.program(chunk, at, bytes, marks)
    }

    fn fetch(&mut self, chunk: u32, block: u32, out: &mut [u8]) -> Result<Got, UnitErr>
        requires whole { length out.old ≡ self.old.unit.unit.shape.sector }
        requires taken { Takes self.old.unit.unit chunk (Read block) }
        ensures event { DidFetch self.old.unit.unit chunk block out.old out.new result
            self.new.unit.unit }
        ensures fits { IsFitUnit self.old.unit.unit → IsFitUnit self.new.unit.unit }
        ensures wear { self.new.unit.wear ≡ self.old.unit.wear }
        ensures quiet { IsUnarmed self.old.unit.unit.armed → IsOk result }
        ensures unfailing { self.old.unit.unit.armed.plans ≡ [] → result ≢ Err UnitErr.Failed }
    {
        self.unit.fetch(chunk, block, out)
    }

    fn reset(&mut self, chunk: u32) -> Result<(), UnitErr>
        requires { Takes self.old.unit.unit chunk Reset }
        ensures event { DidReset self.old.unit.unit chunk result self.new.unit.unit }
        ensures fits { IsFitUnit self.old.unit.unit → IsFitUnit self.new.unit.unit }
        ensures wear { self.new.unit.wear ≡ self.old.unit.wear }
        ensures quiet { IsUnarmed self.old.unit.unit.armed → IsOk result }
        ensures unfailing { self.old.unit.unit.armed.plans ≡ [] → result ≢ Err UnitErr.Failed }
    {
        self.unit.reset(chunk)
    }

    fn state(&self, chunk: u32) -> (ChunkState, u32)
        requires { chunk < length self.now.unit.unit.media }
        ensures { (found : _) × IsChunkOf self.now.unit.unit chunk found
            × (result.0 ≡ found.state) × (result.1 ≡ pointer found) }
    {
        self.unit.state(chunk)
    }

    fn events(&self) -> u64
        ensures count { result ≡ min (length self.now.unit.unit.log) (2 ^ 64 - 1) }
    {
        self.unit.events()
    }
}
