//! How an engine begins, with its heart.

ghost use Rattle.std.specs.Prelude.{◌≡◌, [], false};
ghost use Rattle.numbered_locks.specs.Handles.{places};
ghost use Rattle.pblk_model.specs.Shape.{units};
ghost use Rattle.pblk_model.specs.declared.found.Found.{Found as FoundOf};
ghost use Rattle.chronicle.specs.Handles.{first_author};
ghost use Rattle.pblk_engine.specs.Beginnings.{AreFirstParts};
ghost use Rattle.pblk_engine.specs.Hearts.{HasDecided, IsRingOf};
ghost use Rattle.pblk_engine.specs.Mounts.{IsMounted};

use crate::arm::Arm;
use crate::engine::Engine;
use crate::engine_author::EngineAuthor;
use crate::heart::Heart;
use crate::mount::Mount;
use crate::places::ArmPlaces;
use crate::settling::settle;
use crate::shared::Shared;
use chronicle::{Author, Chronicle};
use numbered_locks::NumberedLocks;
use pblk_core::Core;
use std::marker::PhantomData;
use std::sync::Mutex;
use std::sync::atomic::AtomicU64;
use unit_port::Unit;
use write_ring::{Batch, Intake, Ring};

/// Of what an engine's heart is made.
pub struct HeartParts {
    /// The core.
    pub core: Core,
    /// The author of the engine's log.
    pub author: Author,
    /// For each unit how often the engine noted that a program of it was stopped.
    pub stops: Vec<u64>,
    /// The intake of the write ring.
    pub intake: Intake,
    /// A batch of one frame, for copies.
    pub batch: Batch,
    /// A sector, for a block that is to be copied.
    pub sector: Vec<u8>,
    /// How many slots the ring has.
    pub slots: u64,
}

impl<M: Mount> Heart<M> {
    /// The heart of a mount that has just begun. It frees each line that may be freed, and grants
    /// users what there is room for.
    pub(crate) fn new(chronicle: &Chronicle, ring: &Ring, parts: HeartParts) -> Heart<M>
        requires mounted { IsMounted M.past M.key M.handed M.wear }
        requires of { chronicle.now ≡ M.chronicle }
        requires ring { IsRingOf M.ring M.key ring.now }
        requires first { (f : FoundOf) × AreFirstParts M.chronicle M.ring M.past M.key f parts }
        ensures decided { HasDecided (first_author M.chronicle M.past 0) result.author }
        ensures taken { result.intake.intake.taken ≡ M.key.first }
        ensures none_claimed { result.intake.pass.claims ≡ [] }
        ensures idle { result.copying ≡ false }
        ensures unasked { result.asked ≡ 0 }
    {
        let HeartParts {
            mut core,
            author,
            stops,
            mut intake,
            batch,
            sector,
            slots,
        } = parts;
        let mut author = EngineAuthor::new(author, stops);
        settle(&mut core, &mut author, chronicle, ring, &mut intake);
        Heart {
            core,
            author,
            intake,
            batch,
            sector,
            slots,
            asked: 0,
            of: PhantomData,
        }
    }
}

impl<M: Mount, U: Unit> Engine<M, U> {
    /// The engine of a mount that has just begun. Each line that may be freed is freed, and users
    /// are granted what there is room for. In each place of the locks is the arm of the unit with
    /// the place's number.
    pub fn new(
        chronicle: Chronicle,
        ring: Ring,
        parts: HeartParts,
        arms: NumberedLocks<Arm<M, U>, ArmPlaces<M, U>>,
    ) -> Engine<M, U>
        requires mounted { IsMounted M.past M.key M.handed M.wear }
        requires of { chronicle ≡ M.chronicle }
        requires ring { IsRingOf M.ring M.key ring }
        requires first { (f : FoundOf) × AreFirstParts M.chronicle M.ring M.past M.key f parts }
        requires arms { places arms ≡ units M.past.image.shape }
    {
        let heart = Heart::new(&chronicle, &ring, parts);
        Engine {
            shared: Shared {
                ring,
                chronicle,
                arms,
            },
            heart: Mutex::new(heart),
            queue: AtomicU64::new(0),
        }
    }
}
