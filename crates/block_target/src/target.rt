//! The target that sessions, lanes and a collector share, and how an opening makes it.
ghost use Rattle.std.specs.Prelude.{◌≡◌, ◌+◌, ◌^◌, ◌≤◌, ◌<◌, [], ◌∷◌, map, length, IfOk, IfErr, Some, vec_capacity};
ghost use Rattle.std.specs.List.{AllByRecursion, range_with_len};
ghost use Rattle.numbered_locks.specs.Handles.{places};
ghost use Rattle.pblk_model.specs.Shape.{units as units_of};
ghost use Rattle.chronicle.specs.Handles.{first_author};
ghost use Rattle.chronicle.specs.Prefixes.{logs_of};
ghost use Rattle.pblk_engine.specs.Endings.{AreArmsInOrder};
ghost use Rattle.pblk_engine.specs.Hearts.{IsRingOf};
ghost use Rattle.pblk_engine.specs.Mounts.{IsMounted};
ghost use Rattle.world_laws.specs.EarlyLogs.{AreEarly};
ghost use Rattle.block_target.specs.Rooms.{IsNewWorker};
ghost use Rattle.block_target.specs.Supplies.{HasSupplies, HaveGoneOut, IsBeginning, IsSupplied};
ghost use Rattle.block_target.specs.Targets.{AreHandedUnits, AreTakenOut, Names, arms_of, first_session, first_sessions, first_target, first_worker, first_workers, naming};

use crate::frames::Frames;
use crate::opened::{FirstLogs, Opened, Parts, Works};
use crate::opening::{OpenErr, Refused};
use crate::rooms::{Rooms, SessionLists, WorkerParts};
use crate::session::Ticket;
use crate::vectors::{put, take_last};
use chronicle::{Author, Chronicle, Token};
use numbered_locks::NumberedLocks;
use pblk_engine::{
    Arm, ArmPlaces, Engine, HeartParts, Mount, Worker, an_opening_is_a_past,
    what_has_just_begun_is_mounted,
};
use pblk_model::Shape;
use sector_pool::Pool;
use std::alloc::{AllocError, AllocFailed, Global};
use std::marker::Model;
use unit_port::Unit;
use write_ring::{Batch, Pass, Ring};

/// A target over the units of a drive, to be shared by any number of threads.
pub struct Target<M: Mount, U: Unit> {
    pub(crate) engine: Engine<M, U>,
    // what is left of the ring's shares
    pub(crate) pass: Pass,
    // names workers
    pub(crate) token: Token,
    pub(crate) pool: Pool,
    // room for the units as they come back, and for all workers
    pub(crate) units: Vec<U>,
    pub(crate) room: Vec<Worker<M>>,
}

// Contracts see how many sessions and workers were named.
impl<M: Mount, U: Unit> Model for Target<M, U> {
    ghost use Rattle.std.specs.Prelude.{vec_capacity};
    ghost use Rattle.block_target.specs.Targets.{IsTarget, TargetView, target_view};
    ghost use Rattle.write_ring.specs.Handles.{pass_view};

    ghost Value = { TargetView };

    ghost view = { λ t. target_view (pass_view t.pass) t.token.spare };

    ghost invariant = { λ t. IsTarget M.chronicle M.past M.ring M.key M.handed M.wear
        t.pass t.token t.pool t.units.items (vec_capacity t.units) t.room.items
        (vec_capacity t.room) };
}

impl<M: Mount, U: Unit> Target<M, U> {
    /// The engine, for lanes and a collector.
    pub fn engine(&self) -> &Engine<M, U> {
        &self.engine
    }
}

// Rooms for the tickets and the workers that an opening hands out, and for all workers as they come
// back.
struct Handouts<M: Mount> {
    tickets: Vec<Ticket<M>>,
    workers: Vec<Worker<M>>,
    room: Vec<Worker<M>>,
}

// The units of a mount under their locks, the author of the engine's log, and room for the units as
// they come back.
struct Locked<M: Mount, U: Unit> {
    arms: NumberedLocks<Arm<M, U>, ArmPlaces<M, U>>,
    engine: Author,
    units: Vec<U>,
}

impl<M: Mount> Handouts<M> {
    // Rooms for so many tickets and workers. Each ticket has a worker besides.
    fn new(alloc: Global, tickets: u32, workers: u32) -> Result<Handouts<M>, AllocError>
        requires few { tickets ≤ 64 }
        requires few_workers { workers ≤ 9 }
        ensures tickets { IfOk result (λ h. h.tickets.items ≡ []) }
        ensures tickets_room { IfOk result (λ h. tickets ≤ vec_capacity h.tickets) }
        ensures workers { IfOk result (λ h. h.workers.items ≡ []) }
        ensures workers_room { IfOk result (λ h. workers ≤ vec_capacity h.workers) }
        ensures room { IfOk result (λ h. h.room.items ≡ []) }
        ensures seats { IfOk result (λ h. tickets + workers ≤ vec_capacity h.room) }
    {
        let of_workers = Vec::with_capacity(alloc, workers as usize)?;
        let room = Vec::with_capacity(alloc, (tickets + workers) as usize)?;
        let of_tickets = Vec::with_capacity(alloc, tickets as usize)?;
        Ok(Handouts {
            tickets: of_tickets,
            workers: of_workers,
            room,
        })
    }

    // Ends them, where nothing was put into them.
    fn end(self)
        requires { self.tickets.items ≡ [] }
    {
        let Handouts {
            tickets,
            workers: _,
            room: _,
        } = self;
        tickets.destroy_empty();
    }
}

// Makes an arm of each unit, with its author. The engine's author is left, and so is the units'
// room.
fn make_arms<M: Mount, U: Unit>(
    authors: &mut Vec<Author>,
    units: &mut Vec<U>,
    arms: &mut Vec<Arm<M, U>>,
)
    requires mounted { IsMounted M.past M.key M.handed M.wear }
    requires early { AreEarly (logs_of M.past.logs) }
    requires count { length units.old.items ≡ units_of M.past.image.shape }
    requires authors { authors.old.items ≡ map (first_author M.chronicle M.past)
        (range_with_len 0 (length units.old.items + 1)) }
    requires units { AreHandedUnits M.past M.handed M.wear (map U.model units.old.items)
        (map U.wear units.old.items) }
    requires empty { arms.old.items ≡ [] }
    requires room { length units.old.items ≤ vec_capacity arms.old }
    ensures arms { arms.new.items ≡ arms_of M.past 0 (map U.model units.old.items) }
    ensures engine { authors.new.items ≡ first_author M.chronicle M.past 0 ∷ [] }
    ensures taken { units.new.items ≡ [] }
    ensures units_room { length units.old.items ≤ vec_capacity units.new }
{
    while let Some(unit) = units.pop() {
        let number = units.len() as u32;
        let author = take_last(authors);
        put(arms, Arm::new(number, author, unit));
    }
    arms.reverse();
}

// Takes the units out of arms that nobody has used, in their order.
fn take_units<M: Mount, U: Unit>(arms: Vec<Arm<M, U>>, units: &mut Vec<U>)
    requires arms { AreArmsInOrder arms.items }
    requires empty { units.old.items ≡ [] }
    requires room { length arms.items ≤ vec_capacity units.old }
    ensures units { AreTakenOut M.wear arms.items (map U.model units.new.items)
        (map U.wear units.new.items) }
{
    let mut arms = arms;
    arms.reverse();
    while let Some(arm) = arms.pop() {
        let (unit, _) = arm.end();
        put(units, unit);
    }
    arms.destroy_empty();
}

// Puts each unit under its lock, with its author. The units come back where there isn't the memory.
fn lock_units<M: Mount, U: Unit>(
    alloc: Global,
    authors: Vec<Author>,
    units: Vec<U>,
) -> Result<Locked<M, U>, Vec<U>>
    requires mounted { IsMounted M.past M.key M.handed M.wear }
    requires early { AreEarly (logs_of M.past.logs) }
    requires count { length units.items ≡ units_of M.past.image.shape }
    requires authors { authors.items ≡ map (first_author M.chronicle M.past)
        (range_with_len 0 (length units.items + 1)) }
    requires units { AreHandedUnits M.past M.handed M.wear (map U.model units.items)
        (map U.wear units.items) }
    ensures places { IfOk result (λ l. places l.arms ≡ units_of M.past.image.shape) }
    ensures engine { IfOk result (λ l. l.engine ≡ first_author M.chronicle M.past 0) }
    ensures empty { IfOk result (λ l. l.units.items ≡ []) }
    ensures room { IfOk result (λ l. units_of M.past.image.shape ≤ vec_capacity l.units) }
    ensures unchanged { IfErr result (λ us. map U.model us.items ≡ map U.model units.items) }
    ensures wear { IfErr result (λ us. map U.wear us.items ≡ map U.wear units.items) }
{
    let Ok(arms) = Vec::with_capacity(alloc, units.len()) else {
        return Err(units);
    };
    let mut arms = arms;
    let mut units = units;
    let mut authors = authors;
    make_arms(&mut authors, &mut units, &mut arms);
    let engine = take_last(&mut authors);
    match NumberedLocks::new(alloc, arms) {
        Ok(arms) => Ok(Locked {
            arms,
            engine,
            units,
        }),
        Err(AllocFailed { value }) => {
            take_units(value, &mut units);
            Err(units)
        }
    }
}

// Names the next worker, which has one of these stripes.
fn name_worker<M: Mount>(
    chronicle: &Chronicle,
    token: &mut Token,
    parts: &mut Vec<WorkerParts>,
    number: u64,
) -> Worker<M>
    requires mounted { IsMounted M.past M.key M.handed M.wear }
    requires early { AreEarly (logs_of M.past.logs) }
    requires of { chronicle.now ≡ M.chronicle }
    requires token { token.old ≡ naming M.chronicle M.past number }
    requires small { number < 2 ^ 32 }
    requires some { 0 < length parts.old.items }
    requires new { AllByRecursion (IsNewWorker M.past.image.shape) parts.old.items }
    ensures worker { result ≡ first_worker M.past number }
    ensures token { token.new ≡ naming M.chronicle M.past (number + 1) }
    ensures fewer { length parts.old.items ≡ length parts.new.items + 1 }
    ensures still_new { AllByRecursion (IsNewWorker M.past.image.shape) parts.new.items }
{
    let last = take_last(parts);
    let WorkerParts { stripe, made } = last;
    let named = token.name_worker(chronicle);
    Worker::new(number, named, stripe, made)
}

// What tickets and workers are made of.
struct Supply {
    token: Token,
    pass: Pass,
    workers: Vec<WorkerParts>,
    lists: Vec<SessionLists>,
    batches: Vec<Batch>,
}

// The ticket of the next session, with one share of the ring.
fn make_ticket<M: Mount>(
    chronicle: &Chronicle,
    ring: &Ring,
    shape: &Shape,
    supply: &mut Supply,
    number: u32,
) -> Ticket<M>
    requires mounted { IsMounted M.past M.key M.handed M.wear }
    requires early { AreEarly (logs_of M.past.logs) }
    requires of { chronicle.now ≡ M.chronicle }
    requires ring { IsRingOf M.ring M.key ring.now }
    requires shape { shape.now ≡ M.past.image.shape }
    requires few { number < 64 }
    requires supply { IsSupplied M.chronicle M.past M.ring M.key number supply.old }
    requires some { HasSupplies supply.old }
    ensures ticket { result ≡ first_session M.past M.key number }
    ensures supply { IsSupplied M.chronicle M.past M.ring M.key (number + 1) supply.new }
    ensures less { HaveGoneOut 1 supply.old supply.new }
{
    let worker = name_worker(
        chronicle,
        &mut supply.token,
        &mut supply.workers,
        u64::from(number),
    );
    let lists = take_last(&mut supply.lists);
    let SessionLists { own, faults, worns } = lists;
    let batch = take_last(&mut supply.batches);
    let pass = ring.split(&mut supply.pass);
    Ticket {
        worker,
        pass,
        batch,
        capacity: shape.capacity,
        sector: shape.sector,
        seen: 0,
        written: 0,
        own,
        faults,
        worns,
    }
}

// The tickets of so many sessions.
fn make_tickets<M: Mount>(
    chronicle: &Chronicle,
    ring: &Ring,
    shape: &Shape,
    supply: &mut Supply,
    sessions: u32,
    tickets: &mut Vec<Ticket<M>>,
)
    requires mounted { IsMounted M.past M.key M.handed M.wear }
    requires early { AreEarly (logs_of M.past.logs) }
    requires of { chronicle.now ≡ M.chronicle }
    requires ring { IsRingOf M.ring M.key ring.now }
    requires shape { shape.now ≡ M.past.image.shape }
    requires few { sessions ≤ 64 }
    requires supply { IsSupplied M.chronicle M.past M.ring M.key 0 supply.old }
    requires batches { length supply.old.batches.items ≡ sessions }
    requires lists { length supply.old.lists.items ≡ sessions }
    requires workers { sessions ≤ length supply.old.workers.items }
    requires empty { tickets.old.items ≡ [] }
    requires room { sessions ≤ vec_capacity tickets.old }
    ensures tickets { tickets.new.items ≡ first_sessions M.past M.key sessions }
    ensures supply { IsSupplied M.chronicle M.past M.ring M.key sessions supply.new }
    ensures less { HaveGoneOut sessions supply.old supply.new }
{
    for number in 0..sessions {
        put(tickets, make_ticket(chronicle, ring, shape, supply, number));
    }
}

// So many workers, whose numbers begin with this one.
fn make_workers<M: Mount>(
    chronicle: &Chronicle,
    token: &mut Token,
    parts: &mut Vec<WorkerParts>,
    from: u32,
    count: u32,
    workers: &mut Vec<Worker<M>>,
)
    requires mounted { IsMounted M.past M.key M.handed M.wear }
    requires early { AreEarly (logs_of M.past.logs) }
    requires of { chronicle.now ≡ M.chronicle }
    requires token { token.old ≡ naming M.chronicle M.past from }
    requires few { from ≤ 64 }
    requires few_more { count ≤ 9 }
    requires enough { count ≤ length parts.old.items }
    requires new { AllByRecursion (IsNewWorker M.past.image.shape) parts.old.items }
    requires empty { workers.old.items ≡ [] }
    requires room { count ≤ vec_capacity workers.old }
    ensures workers { workers.new.items ≡ first_workers M.past from count }
    ensures token { token.new ≡ naming M.chronicle M.past (from + count) }
{
    for number in 0..count {
        let worker = name_worker(chronicle, token, parts, u64::from(from + number));
        put(workers, worker);
    }
}

// A target, and what an opening hands out with it.
struct Made<M: Mount, U: Unit> {
    target: Target<M, U>,
    tickets: Vec<Ticket<M>>,
    workers: Vec<Worker<M>>,
}

// The logs of a mount without their authors, and what else is put together to a target.
struct Beginning {
    shape: Shape,
    sessions: u32,
    lanes: u32,
    chronicle: Chronicle,
    token: Token,
    rooms: Rooms,
    works: Works,
}

// Puts the parts of a mount together. Nothing of it takes memory.
fn put_together<M: Mount, U: Unit>(
    beginning: Beginning,
    locked: Locked<M, U>,
    handouts: Handouts<M>,
) -> Made<M, U>
    requires beginning { IsBeginning M.chronicle M.past M.ring M.key M.handed M.wear beginning }
    requires places { places locked.arms ≡ units_of M.past.image.shape }
    requires engine { locked.engine ≡ first_author M.chronicle M.past 0 }
    requires empty { locked.units.items ≡ [] }
    requires room { units_of M.past.image.shape ≤ vec_capacity locked.units }
    requires no_tickets { handouts.tickets.items ≡ [] }
    requires tickets_room { beginning.sessions ≤ vec_capacity handouts.tickets }
    requires no_workers { handouts.workers.items ≡ [] }
    requires workers_room { beginning.lanes + 1 ≤ vec_capacity handouts.workers }
    requires no_room { handouts.room.items ≡ [] }
    requires seats { beginning.sessions + (beginning.lanes + 1) ≤ vec_capacity handouts.room }
    ensures target { result.target
        ≡ first_target M.key beginning.sessions (beginning.lanes + 1) }
    ensures tickets { result.tickets.items
        ≡ first_sessions M.past M.key beginning.sessions }
    ensures workers { result.workers.items
        ≡ first_workers M.past beginning.sessions (beginning.lanes + 1) }
{
    let Beginning {
        shape,
        sessions,
        lanes,
        chronicle,
        token,
        rooms,
        works,
    } = beginning;
    let Rooms {
        stops,
        sector,
        workers: parts,
        lists,
    } = rooms;
    let Works { pool, frames, core } = works;
    let Frames {
        ring,
        intake,
        pass,
        copies,
        sessions: batches,
    } = frames;
    let Handouts {
        mut tickets,
        mut workers,
        room,
    } = handouts;
    let Locked {
        arms,
        engine: author,
        units,
    } = locked;
    let mut supply = Supply {
        token,
        pass,
        workers: parts,
        lists,
        batches,
    };
    make_tickets(
        &chronicle,
        &ring,
        &shape,
        &mut supply,
        sessions,
        &mut tickets,
    );
    let Supply {
        mut token,
        pass,
        workers: mut parts,
        lists: _,
        batches,
    } = supply;
    batches.destroy_empty();
    make_workers(
        &chronicle,
        &mut token,
        &mut parts,
        sessions,
        lanes + 1,
        &mut workers,
    );
    let heart = HeartParts {
        core,
        author,
        stops,
        intake,
        batch: copies,
        sector,
        slots: u64::from(shape.ring),
    };
    Made {
        target: Target {
            engine: Engine::new(chronicle, ring, heart, arms),
            pass,
            token,
            pool,
            units,
            room,
        },
        tickets,
        workers,
    }
}

impl<U: Unit> Opened<U> {
    /// The target, a ticket for each session, and a worker for each lane and one for the collector.
    /// The mount is the one that this opening made. Workers are numbered from 0: first those of the
    /// sessions, in the order of their tickets.
    ///
    /// Fails only where there isn't the memory for the lists of these. Then the units are handed
    /// back as they were.
    pub fn target<M: Mount>(
        self,
        alloc: Global,
    ) -> Result<(Target<M, U>, Vec<Ticket<M>>, Vec<Worker<M>>), Refused<U>>
        requires named { Names M.chronicle M.past M.ring M.key M.handed M.wear self }
        ensures target { IfOk result (λ r. r.0
            ≡ first_target M.key self.sessions (self.lanes + 1)) }
        ensures tickets { IfOk result (λ r. r.1.items
            ≡ first_sessions M.past M.key self.sessions) }
        ensures workers { IfOk result (λ r. r.2.items
            ≡ first_workers M.past self.sessions (self.lanes + 1)) }
        ensures sessions { IfOk result (λ _. (1 ≤ self.sessions) × (self.sessions ≤ 64)) }
        ensures lanes { IfOk result (λ _. self.lanes ≤ 8) }
        ensures cause { IfErr result (λ r. r.cause ≡ OpenErr.Memory) }
        ensures units { IfErr result (λ r. map U.model r.units.items ≡ self.units) }
        ensures wear { IfErr result (λ r. map U.wear r.units.items ≡ self.wear) }
    {
        an_opening_is_a_past();
        what_has_just_begun_is_mounted();
        let Opened { units, parts } = self;
        let Parts {
            shape,
            sessions,
            lanes,
            handed: _,
            logs,
            rooms,
            works,
        } = parts;
        let FirstLogs {
            chronicle,
            authors,
            token,
        } = logs;
        let Ok(handouts) = Handouts::new(alloc, sessions, lanes + 1) else {
            works.give_up();
            return Err(Refused {
                units,
                cause: OpenErr::Memory,
            });
        };
        match lock_units(alloc, authors, units) {
            Ok(locked) => {
                let beginning = Beginning {
                    shape,
                    sessions,
                    lanes,
                    chronicle,
                    token,
                    rooms,
                    works,
                };
                let Made {
                    target,
                    tickets,
                    workers,
                } = put_together(beginning, locked, handouts);
                Ok((target, tickets, workers))
            }
            Err(units) => {
                handouts.end();
                works.give_up();
                Err(Refused {
                    units,
                    cause: OpenErr::Memory,
                })
            }
        }
    }
}
