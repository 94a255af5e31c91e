//! A unit that holds a fetch until it is let go, and a unit that counts what is done with a chunk.
ghost use Rattle.std.specs.Prelude.{◌≡◌, ◌*◌, ◌^◌, ◌-◌, ◌<◌, ◌≢◌, length, min, IsOk, Err, []};
ghost use Rattle.pblk_model.specs.Blocks.{blocks_of};
ghost use Rattle.pblk_model.specs.Chunk.{pointer};
ghost use Rattle.pblk_model.specs.ChunkStep.{Write, Read, Reset};
ghost use Rattle.unit_port.specs.Armed.{IsUnarmed};
ghost use Rattle.unit_port.specs.Unit.{IsChunkOf, IsFitUnit, Takes, DidProgram, DidFetch, DidReset};

use crossbeam_utils::Backoff;
use ocssd_drive::MemoryUnit;
use pblk_model::{ChunkState, Got, Mark};
use std::sync::atomic::{AtomicBool, AtomicU64, Ordering};
use unit_port::{Unit, UnitErr};

/// What threads know of a fetch that is held, and of a chunk.
#[derive(Drop)]
pub(crate) struct Gate {
    // Whether the next fetch is to be held.
    shut: AtomicBool,
    // Whether one is held, or was.
    held: AtomicBool,
    // Whether it is let go.
    open: AtomicBool,
    // How often the chunk was to be reset, and programmed since.
    resets: AtomicU64,
    programs: AtomicU64,
}

impl Gate {
    /// A gate through which fetches go.
    pub(crate) fn new() -> Gate {
        Gate {
            shut: AtomicBool::new(false),
            held: AtomicBool::new(false),
            open: AtomicBool::new(false),
            resets: AtomicU64::new(0),
            programs: AtomicU64::new(0),
        }
    }

    /// Has the next fetch be held.
    pub(crate) fn shut(&self) {
        self.shut.store(true, Ordering::SeqCst);
    }

    /// Lets the fetch go that is held, and all others.
    pub(crate) fn open(&self) {
        self.open.store(true, Ordering::SeqCst);
    }

    /// Whether a fetch is held, or was.
    pub(crate) fn has_held(&self) -> bool {
        self.held.load(Ordering::SeqCst)
    }

    /// How often the chunk was to be reset, and to be programmed since.
    pub(crate) fn resets(&self) -> u64 {
        self.resets.load(Ordering::SeqCst)
    }

    /// How often the chunk was to be programmed since it was to be reset.
    pub(crate) fn programs(&self) -> u64 {
        self.programs.load(Ordering::SeqCst)
    }

    // A fetch goes through, once it may.
    fn pass(&self) {
        if !self.shut.swap(false, Ordering::SeqCst) {
            return;
        }
        self.held.store(true, Ordering::SeqCst);
        let backoff = Backoff::new();
        for _ in 0..u64::MAX {
            if self.open.load(Ordering::SeqCst) {
                return;
            }
            backoff.snooze();
        }
    }

    fn count_reset(&self) {
        self.resets.fetch_add(1, Ordering::SeqCst);
    }

    fn count_program(&self) {
        if self.resets() > 0 {
            self.programs.fetch_add(1, Ordering::SeqCst);
        }
    }
}

/// What a unit does with a gate.
#[derive(Clone, Copy)]
pub(crate) enum Part {
    /// Its fetches go through the gate.
    Gated,
    /// It counts what is done with this chunk.
    Counts(u32),
}

impl Part {
    // Whether it counts what is done with the chunk.
    fn counts(self, chunk: u32) -> bool {
        match self {
            Part::Gated => false,
            Part::Counts(counted) => chunk == counted,
        }
    }
}

/// A unit in memory with a gate.
#[derive(Drop)]
pub(crate) struct GatedUnit<'g> {
    pub(crate) unit: MemoryUnit,
    pub(crate) gate: &'g Gate,
    pub(crate) part: Part,
}

impl Unit for GatedUnit<'_> {
    ghost model = { λ g. g.unit.unit };

    ghost wear = { λ g. g.unit.wear };

    fn program(&mut self, chunk: u32, at: u32, bytes: &[u8], marks: &[Mark]) -> Result<(), UnitErr>
        requires whole { length bytes.now ≡ length marks.now * self.old.unit.unit.shape.sector }
        requires taken { let blocks = blocks_of self.old.unit.unit.shape.sector bytes.now marks.now
            in Takes self.old.unit.unit chunk (Write at blocks) }
        ensures event { DidProgram self.old.unit.unit chunk at bytes.now marks.now result
            self.new.unit.unit }
        ensures fits { IsFitUnit self.old.unit.unit → IsFitUnit self.new.unit.unit }
        ensures wear { self.new.unit.wear ≡ self.old.unit.wear }
        ensures quiet { IsUnarmed self.old.unit.unit.armed → IsOk result }
        ensures unfailing { self.old.unit.unit.armed.plans ≡ [] → result ≢ Err UnitErr.Failed }
    {
        if self.part.counts(chunk) {
            self.gate.count_program();
        }
        self.unit.program(chunk, at, bytes, marks)
    }

    fn fetch(&mut self, chunk: u32, block: u32, out: &mut [u8]) -> Result<Got, UnitErr>
        requires whole { length out.old ≡ self.old.unit.unit.shape.sector }
        requires taken { Takes self.old.unit.unit chunk (Read block) }
        ensures event { DidFetch self.old.unit.unit chunk block out.old out.new result
            self.new.unit.unit }
        ensures fits { IsFitUnit self.old.unit.unit → IsFitUnit self.new.unit.unit }
        ensures wear { self.new.unit.wear ≡ self.old.unit.wear }
        ensures quiet { IsUnarmed self.old.unit.unit.armed → IsOk result }
        ensures unfailing { self.old.unit.unit.armed.plans ≡ [] → result ≢ Err UnitErr.Failed }
    {
        if let Part::Gated = self.part {
            self.gate.pass();
        }
        self.unit.fetch(chunk, block, out)
    }

    fn reset(&mut self, chunk: u32) -> Result<(), UnitErr>
        requires { Takes self.old.unit.unit chunk Reset }
        ensures event { DidReset self.old.unit.unit chunk result self.new.unit.unit }
        ensures fits { IsFitUnit self.old.unit.unit → IsFitUnit self.new.unit.unit }
        ensures wear { self.new.unit.wear ≡ self.old.unit.wear }
        ensures quiet { IsUnarmed self.old.unit.unit.armed → IsOk result }
        ensures unfailing { self.old.unit.unit.armed.plans ≡ [] → result ≢ Err UnitErr.Failed }
    {
        if self.part.counts(chunk) {
            self.gate.count_reset();
        }
        self.unit.reset(chunk)
    }

    fn state(&self, chunk: u32) -> (ChunkState, u32)
        requires { chunk < length self.now.unit.unit.media }
        ensures { (found : _) × IsChunkOf self.now.unit.unit chunk found
            × (result.0 ≡ found.state) × (result.1 ≡ pointer found) }
    {
        self.unit.state(chunk)
    }

    fn events(&self) -> u64
        ensures count { result ≡ min (length self.now.unit.unit.log) (2 ^ 64 - 1) }
    {
        self.unit.events()
    }
}
