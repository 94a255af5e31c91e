//! A target that is opened, worked on by the threads of its sessions, and closed.
ghost use Rattle.std.specs.Prelude.{◌≡◌, ◌≤◌, ◌<◌, ◌+◌, ◌++◌, ◌∷◌, [], length, map, vec_capacity};
ghost use Rattle.block_target.specs.Opened.{CanOpen};
ghost use Rattle.block_target.specs.Targets.{Names, first_sessions, first_target, first_workers};
ghost use Rattle.target_crew.specs.Numbers.{AreNumbered, EachFits};

use crate::work::Work;
use block_target::{OpenErr, Opened, Refused, Session, SettleErr, Target, Ticket, open};
use pblk_engine::{Mount, Worker};
use pblk_model::Shape;
use std::alloc::Global;
use std::marker::Brand;
use std::sync::Wait;
use std::thread::{Threads, for_each_mut};
use unit_port::Unit;

/// What is left of a target that was closed: its units, the works of its sessions, each as its
/// thread left it, and how the close ended.
#[derive(Drop)]
pub struct Closed<U, W> {
    /// The units, in their order.
    pub units: Vec<U>,
    /// The works, in their order.
    pub works: Vec<W>,
    /// What the close told.
    pub settled: Result<(), SettleErr>,
}

// A session, and what its thread does.
struct Seat<'t, M: Mount, U: Unit, W> {
    session: Session<'t, M, U>,
    work: W,
}

impl<M: Mount, U: Unit, W: Work<U>> Seat<'_, M, U, W> {
    // Does the work.
    fn work<R: Wait>(&mut self, rt: &R)
        ensures { self.new.session.worker.number ≡ self.old.session.worker.number }
    {
        self.work.work(rt, &mut self.session);
    }
}

// Puts a value behind the others.
fn put<T>(values: &mut Vec<T>, value: T)
    requires room { length values.old.items < vec_capacity values.old }
    ensures items { values.new.items ≡ values.old.items ++ value ∷ [] }
    ensures capacity { vec_capacity values.old ≤ vec_capacity values.new }
{
    values.push(value).unwrap();
}

// Takes the last of some values.
fn take_last<T>(values: &mut Vec<T>) -> T
    requires some { 0 < length values.old.items }
    ensures items { values.old.items ≡ values.new.items ++ result ∷ [] }
    ensures capacity { vec_capacity values.old ≤ vec_capacity values.new }
{
    values.pop().unwrap()
}

// Gives each work a session, the last ones first.
fn seat_all<'t, M: Mount, U: Unit, W>(
    target: &'t Target<M, U>,
    tickets: &mut Vec<Ticket<M>>,
    works: &mut Vec<W>,
    seats: &mut Vec<Seat<'t, M, U, W>>,
)
    requires numbered { AreNumbered tickets.old.items }
    requires works { length works.old.items ≡ length tickets.old.items }
    requires empty { seats.old.items ≡ [] }
    requires room { length tickets.old.items ≤ vec_capacity seats.old }
    requires tickets_room { length tickets.old.items ≤ vec_capacity tickets.old }
    requires works_room { length tickets.old.items ≤ vec_capacity works.old }
    ensures seated { EachFits (λ k s. s.session.worker.number + k + 1
        ≡ length tickets.old.items) seats.new.items }
    ensures count { length seats.new.items ≡ length tickets.old.items }
    ensures no_ticket { tickets.new.items ≡ [] }
    ensures no_work { works.new.items ≡ [] }
    ensures tickets_room { length tickets.old.items ≤ vec_capacity tickets.new }
    ensures works_room { length tickets.old.items ≤ vec_capacity works.new }
{
    while !tickets.is_empty() {
        let session = target.session(take_last(tickets));
        let work = take_last(works);
        put(seats, Seat { session, work });
    }
}

// Has each session worked on in a thread of its own.
fn work_all<M: Mount + Send + Sync, U: Unit + Send, W: Work<U> + Send, R: Threads + Wait + Sync>(
    rt: &R,
    seats: &mut Vec<Seat<'_, M, U, W>>,
    threads: usize,
)
    requires some { 1 ≤ threads }
    requires seated { EachFits (λ k s. s.session.worker.number + k + 1
        ≡ threads) seats.old.items }
    ensures seated { EachFits (λ k s. s.session.worker.number + k + 1
        ≡ threads) seats.new.items }
    ensures count { length seats.new.items ≡ length seats.old.items }
{
    for_each_mut(rt, seats.as_mut_slice(), threads, &|_, seat| seat.work(rt));
}

// Ends all sessions, the first one first.
fn end_all<M: Mount, U: Unit, W>(
    seats: Vec<Seat<'_, M, U, W>>,
    tickets: &mut Vec<Ticket<M>>,
    works: &mut Vec<W>,
)
    requires seated { EachFits (λ k s. s.session.worker.number + k + 1
        ≡ length seats.items) seats.items }
    requires no_ticket { tickets.old.items ≡ [] }
    requires no_work { works.old.items ≡ [] }
    requires tickets_room { length seats.items ≤ vec_capacity tickets.old }
    requires works_room { length seats.items ≤ vec_capacity works.old }
    ensures numbered { AreNumbered tickets.new.items }
    ensures count { length tickets.new.items ≡ length seats.entry.items }
{
    let mut seats = seats;
    while !seats.is_empty() {
        let Seat { session, work } = take_last(&mut seats);
        put(tickets, session.end());
        put(works, work);
    }
    seats.destroy_empty();
}

// Has each session worked on in a thread of its own, and closes the target.
fn serve_target<
    M: Mount + Send + Sync,
    U: Unit + Send + Drop,
    W: Work<U> + Send + Drop,
    R: Threads + Wait + Sync,
>(
    rt: &R,
    alloc: Global,
    target: Target<M, U>,
    tickets: Vec<Ticket<M>>,
    workers: Vec<Worker<M>>,
    works: Vec<W>,
) -> Result<Closed<U, W>, OpenErr>
    requires target { target ≡ first_target M.key (length works.items) 1 }
    requires tickets { tickets.items ≡ first_sessions M.past M.key (length works.items) }
    requires workers { workers.items ≡ first_workers M.past (length works.items) 1 }
    requires some { 1 ≤ length works.items }
    requires few { length works.items ≤ 64 }
{
    let count = works.len();
    let Ok(seats) = Vec::with_capacity(alloc, count) else {
        let _ = target.close(rt, tickets, workers);
        return Err(OpenErr::Memory);
    };
    let mut seats = seats;
    let mut tickets = tickets;
    let mut works = works;
    seat_all(&target, &mut tickets, &mut works, &mut seats);
    work_all(rt, &mut seats, count);
    end_all(seats, &mut tickets, &mut works);
    let (units, settled) = target.close(rt, tickets, workers);
    Ok(Closed {
        units,
        works,
        settled,
    })
}

// Makes the target of an opened drive, has its sessions worked on, and closes it.
fn serve_opened<
    M: Mount + Send + Sync,
    U: Unit + Send + Drop,
    W: Work<U> + Send + Drop,
    R: Threads + Wait + Sync,
>(rt: &R, alloc: Global, opened: Opened<U>, works: Vec<W>) -> Result<Closed<U, W>, OpenErr>
    requires named { Names M.chronicle M.past M.ring M.key M.handed M.wear opened }
    requires sessions { opened.sessions ≡ length works.items }
    requires some { 1 ≤ length works.items }
    requires few { length works.items ≤ 64 }
    requires lanes { opened.lanes ≡ 0 }
{
    match opened.target::<M>(alloc) {
        Ok((target, tickets, workers)) => serve_target(rt, alloc, target, tickets, workers, works),
        Err(Refused { units: _, cause }) => Err(cause),
    }
}

/// Opens a target over the units of a drive, with a session for each work, without lanes. Each
/// session is worked on in a thread of its own. Then the target is closed.
///
/// Fails only where `open` or `Opened::target` does. The units and the works are lost then.
pub fn serve<U: Unit + Send + Drop, W: Work<U> + Send + Drop, R: Threads + Wait + Sync>(
    rt: &R,
    alloc: Global,
    units: Vec<U>,
    shape: &Shape,
    works: Vec<W>,
) -> Result<Closed<U, W>, OpenErr>
    requires opens { CanOpen shape.now (map U.model units.items) }
    requires some { 1 ≤ length works.items }
    requires few { length works.items ≤ 64 }
{
    match open(alloc, units, shape, works.len() as u32, 0) {
        Ok(opened) => serve_opened::<Brand, U, W, R>(rt, alloc, opened, works),
        Err(Refused { units: _, cause }) => Err(cause),
    }
}
