//! What a mount needs beside its frames and its logs.
ghost use Rattle.std.specs.Prelude.{◌≡◌, ◌+◌, ◌≤◌, IfOk, length};
ghost use Rattle.std.specs.List.{AllByRecursion};
ghost use Rattle.pblk_model.specs.Accepted.{IsAccepted};
ghost use Rattle.block_target.specs.Rooms.{AreNewLists, AreRooms, IsNewWorker};

use block_port::{DriveAnswer, OwnWrite, WornAnswer};
use pblk_core::Stripe;
use pblk_engine::Made;
use pblk_model::Shape;
use std::alloc::{AllocError, Global};
use unit_port::Log;

/// The lists of a session that contracts alone see: its writes, and the calls that answered Drive
/// and Worn.
#[derive(Drop)]
pub(crate) struct SessionLists {
    pub(crate) own: Log<OwnWrite>,
    pub(crate) faults: Log<DriveAnswer>,
    pub(crate) worns: Log<WornAnswer>,
}

/// What a worker has beside its token: the stripe that it has a unit program, and the commands that
/// it made.
#[derive(Drop)]
pub(crate) struct WorkerParts {
    pub(crate) stripe: Stripe,
    pub(crate) made: Log<Made>,
}

/// What a mount needs beside its frames and its logs. All of it may be dropped.
#[derive(Drop)]
pub(crate) struct Rooms {
    // of each unit, how many of its stops the engine noted
    pub(crate) stops: Vec<u64>,
    // for a block that is to be copied
    pub(crate) sector: Vec<u8>,
    // of each session, of each lane, and of the collector
    pub(crate) workers: Vec<WorkerParts>,
    // of each session
    pub(crate) lists: Vec<SessionLists>,
}

impl SessionLists {
    // Empty lists.
    fn new(alloc: Global) -> Result<SessionLists, AllocError>
        ensures { IfOk result AreNewLists }
    {
        Ok(SessionLists {
            own: Log::new(alloc)?,
            faults: Log::new(alloc)?,
            worns: Log::new(alloc)?,
        })
    }

    // Those of so many sessions.
    fn of_all(alloc: Global, sessions: u32) -> Result<Vec<SessionLists>, AllocError>
        ensures new { IfOk result (λ lists. AllByRecursion AreNewLists lists.items) }
        ensures count { IfOk result (λ lists. length lists.items ≡ sessions) }
    {
        let mut lists = Vec::new(alloc);
        for _number in 0..sessions {
            lists.push(SessionLists::new(alloc)?)?;
        }
        Ok(lists)
    }
}

impl WorkerParts {
    // A stripe without blocks, and no commands.
    fn new(alloc: Global, shape: &Shape) -> Result<WorkerParts, AllocError>
        requires accepted { IsAccepted shape.now }
        ensures { IfOk result (IsNewWorker shape.now) }
    {
        Ok(WorkerParts {
            stripe: Stripe::new(alloc, shape)?,
            made: Log::new(alloc)?,
        })
    }

    // Those of so many workers.
    fn of_all(alloc: Global, shape: &Shape, workers: u32) -> Result<Vec<WorkerParts>, AllocError>
        requires accepted { IsAccepted shape.now }
        ensures new { IfOk result (λ parts. AllByRecursion (IsNewWorker shape.now) parts.items) }
        ensures count { IfOk result (λ parts. length parts.items ≡ workers) }
    {
        let mut parts = Vec::new(alloc);
        for _number in 0..workers {
            parts.push(WorkerParts::new(alloc, shape)?)?;
        }
        Ok(parts)
    }
}

impl Rooms {
    /// What a mount of a drive of this shape needs, for so many sessions and lanes.
    pub(crate) fn new(
        alloc: Global,
        shape: &Shape,
        sessions: u32,
        lanes: u32,
    ) -> Result<Rooms, AllocError>
        requires accepted { IsAccepted shape.now }
        requires sessions { sessions ≤ 64 }
        requires lanes { lanes ≤ 8 }
        ensures { IfOk result (AreRooms shape.now sessions lanes) }
    {
        Ok(Rooms {
            stops: vec![in alloc; 0u64; shape.units() as usize]?,
            sector: vec![in alloc; 0u8; shape.sector as usize]?,
            workers: WorkerParts::of_all(alloc, shape, sessions + lanes + 1)?,
            lists: SessionLists::of_all(alloc, sessions)?,
        })
    }
}
