//! How a target is closed.
ghost use Rattle.std.specs.Prelude.{◌≡◌, ◌≤◌, ◌+◌, ◌*◌, ◌∷◌, [], length, map, vec_capacity};
ghost use Rattle.std.specs.List.{AllByRecursion};
ghost use Rattle.pblk_model.specs.Frames.{count_out};
ghost use Rattle.write_ring.specs.Handles.{pass_view};
ghost use Rattle.pblk_engine.specs.Endings.{IsPassIn};
ghost use Rattle.pblk_engine.specs.Hearts.{IsRingOf};
ghost use Rattle.block_target.specs.Closes.{AreAllBack, IsClosed, IsKept, joined, with_workers};

use crate::session::Ticket;
use crate::target::Target;
use crate::vectors::{put, take_last};
use pblk_engine::{Mount, SettleErr, Worker};
use sector_pool::Pool;
use std::sync::Wait;
use unit_port::Unit;
use write_ring::{Pass, Ring};

// Moves workers into a vector that has room for them, in their order.
fn gather<M: Mount>(workers: Vec<Worker<M>>, room: Vec<Worker<M>>) -> Vec<Worker<M>>
    requires empty { room.items ≡ [] }
    requires room { length workers.items ≤ vec_capacity room }
    ensures items { result.items ≡ workers.items }
    ensures capacity { vec_capacity room ≤ vec_capacity result }
{
    let mut workers = workers;
    let mut room = room;
    while let Some(worker) = workers.pop() {
        put(&mut room, worker);
    }
    room.reverse();
    room
}

// Takes a ticket's part of the ring in, and gives its frames back to the pool. Its worker is left.
fn take_in<M: Mount>(ring: &Ring, pass: &mut Pass, pool: &mut Pool, ticket: Ticket<M>) -> Worker<M>
    requires ring { IsRingOf M.ring M.key ring.now }
    requires pass_of { IsPassIn M.ring M.key pass.old }
    requires region { pool.old.region ≡ M.key.origin.region }
    ensures pass_of { IsPassIn M.ring M.key pass.new }
    ensures joined { (pass_view pass.new).pass
        ≡ joined (pass_view pass.old).pass (ticket ∷ []) }
    ensures region { pool.new.region ≡ pool.old.region }
    ensures out { count_out pool.old.left ≡ count_out pool.new.left + 16 }
    ensures worker { result ≡ ticket.worker }
    ensures kept { IsKept M.past M.handed ticket }
{
    let Ticket {
        worker,
        pass: its,
        batch,
        capacity: _,
        sector: _,
        seen: _,
        written: _,
        own: _,
        faults: _,
        worns: _,
    } = ticket;
    worker.stands();
    ring.join(pass, its);
    batch.close(pool);
    worker
}

// Takes all tickets in. Their workers are put behind the others, the first ticket's last.
fn take_all_in<M: Mount>(
    ring: &Ring,
    pass: &mut Pass,
    pool: &mut Pool,
    tickets: Vec<Ticket<M>>,
    workers: &mut Vec<Worker<M>>,
)
    requires ring { IsRingOf M.ring M.key ring.now }
    requires pass_of { IsPassIn M.ring M.key pass.old }
    requires region { pool.old.region ≡ M.key.origin.region }
    requires room { length tickets.items + length workers.old.items ≤ vec_capacity workers.old }
    ensures pass_of { IsPassIn M.ring M.key pass.new }
    ensures joined { (pass_view pass.new).pass
        ≡ joined (pass_view pass.old).pass tickets.items }
    ensures region { pool.new.region ≡ pool.old.region }
    ensures out { count_out pool.old.left ≡ count_out pool.new.left + 16 * length tickets.items }
    ensures workers { workers.new.items ≡ with_workers workers.old.items tickets.items }
    ensures within { length workers.new.items ≤ vec_capacity workers.new }
    ensures kept { AllByRecursion (IsKept M.past M.handed) tickets.items }
{
    let mut tickets = tickets;
    while let Some(ticket) = tickets.pop() {
        let worker = take_in(ring, pass, pool, ticket);
        put(workers, worker);
    }
    tickets.destroy_empty();
}

impl<M: Mount, U: Unit> Target<M, U> {
    /// Ends the target. All tickets and workers that the opening handed out have come back. First
    /// it works, by the first ticket's worker, until all that was claimed is on the drive, and
    /// collection isn't due or the target is at rest. No line is left that may be freed. It hands
    /// the units back, in their order, and all frames go back to the pool.
    ///
    /// `Drive` and `Worn` come as those of `Engine::close`, of the target as it is at its end.
    pub fn close<R: Wait>(
        self,
        rt: &R,
        tickets: Vec<Ticket<M>>,
        workers: Vec<Worker<M>>,
    ) -> (Vec<U>, Result<(), SettleErr>)
        requires all { AreAllBack self tickets.items workers.items }
        ensures closed { IsClosed M.past M.key M.handed M.wear tickets.items workers.items result.1
            (map U.model result.0.items) (map U.wear result.0.items) }
    {
        let Target {
            engine,
            mut pass,
            token,
            mut pool,
            units,
            room,
        } = self;
        let mut workers = gather(workers, room);
        take_all_in(engine.ring(), &mut pass, &mut pool, tickets, &mut workers);
        let first = take_last(&mut workers);
        first.stands();
        engine.close(rt, first, workers, token, pass, pool, units)
    }
}
