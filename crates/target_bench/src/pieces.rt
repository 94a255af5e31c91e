//! How long the pieces of a worker's work take, one after another.
ghost use Rattle.std.specs.Prelude.{◌≡◌, ◌≤◌, ◌∷◌, [], length, vec_capacity};
ghost use Rattle.block_target.specs.Targets.{Names, first_target};

use crate::bench_drive::{CAPACITY, SECTOR, units};
use crate::moments::now;
use anyhow::{Result, bail};
use block_target::{Opened, Port, Refused, Session, Target, Ticket, open};
use ocssd_drive::MemoryUnit;
use pblk_engine::{Did, Engine, Mount, Role, Worker};
use std::alloc::{AllocError, Global};
use std::marker::Brand;
use std::rt::Clock;
use std::sync::Wait;
use unit_port::Unit;

/// The pieces of work of one kind.
#[derive(Clone, Copy, Default, Drop)]
pub(crate) struct Piece {
    /// How many there were.
    pub(crate) count: u64,
    /// How many nanoseconds all of them took.
    pub(crate) nanos: u64,
}

/// The pieces of work by their kinds.
#[derive(Clone, Copy, Default, Drop)]
pub(crate) struct Pieces {
    /// A stripe was programmed.
    pub(crate) programs: Piece,
    /// A line was opened.
    pub(crate) openings: Piece,
    /// A sector was copied.
    pub(crate) copies: Piece,
    /// A chunk was reset.
    pub(crate) resets: Piece,
    /// Nothing was done.
    pub(crate) looks: Piece,
}

impl Pieces {
    // Counts a piece of work, which took so many nanoseconds.
    fn note(&mut self, did: Did, nanos: u64) {
        let piece = match did {
            Did::Programmed | Did::Lost(_) => &mut self.programs,
            Did::Opened => &mut self.openings,
            Did::Copied => &mut self.copies,
            Did::Reset => &mut self.resets,
            Did::NotCopied | Did::Other | Did::Nothing(_) => &mut self.looks,
        };
        piece.count = piece.count.wrapping_add(1);
        piece.nanos = piece.nanos.wrapping_add(nanos);
    }
}

// How many sectors are written before each piece of work, and how far they stand apart.
const WRITTEN: u64 = 8;

const APART: u64 = 517;

// The numbers of a linear congruential generator are those of Knuth's MMIX.
fn next(drawn: u64) -> u64 {
    drawn
        .wrapping_mul(6_364_136_223_846_793_005)
        .wrapping_add(1_442_695_040_888_963_407)
}

// Writes sectors at random, as far as there is room, and has a piece of work done.
fn turn<M: Mount, U: Unit, R: Wait + Clock>(
    rt: &R,
    engine: &Engine<M, U>,
    session: &mut Session<'_, M, U>,
    worker: &mut Worker<M>,
    drawn: u64,
    pieces: &mut Pieces,
)
    requires sector { M.past.image.shape.sector ≡ 4096 }
    ensures session { session.new.worker.number ≡ session.old.worker.number }
    ensures worker { worker.new.number ≡ worker.old.number }
{
    let bytes = [7; SECTOR];
    for offset in 0..WRITTEN {
        let lba = (drawn >> 20).wrapping_add(offset.wrapping_mul(APART)) % CAPACITY;
        if session.try_write(lba, &bytes).is_err() {
            break;
        }
    }
    let start = now(rt);
    let pumped = engine.pump(rt, worker, Role::All);
    let end = now(rt);
    if let Ok(did) = pumped {
        pieces.note(did, end.wrapping_sub(start));
    }
}

// Does so many turns.
fn turns<M: Mount, U: Unit, R: Wait + Clock>(
    rt: &R,
    engine: &Engine<M, U>,
    session: &mut Session<'_, M, U>,
    worker: &mut Worker<M>,
    turns: u32,
) -> Pieces
    ensures session { session.new.worker.number ≡ session.old.worker.number }
    ensures worker { worker.new.number ≡ worker.old.number }
{
    let mut pieces = Pieces::default();
    if session.sector() as usize != SECTOR {
        return pieces;
    }
    let mut drawn = 11;
    for _turn in 0..turns {
        drawn = next(drawn);
        turn(rt, engine, session, worker, drawn, &mut pieces);
    }
    pieces
}

// Closes a target that has one session and one more worker.
fn close<M: Mount, R: Wait>(
    rt: &R,
    target: Target<M, MemoryUnit>,
    ticket: Ticket<M>,
    worker: Worker<M>,
    tickets: Vec<Ticket<M>>,
    workers: Vec<Worker<M>>,
)
    requires target { target ≡ first_target M.key 1 1 }
    requires number { ticket.worker.number ≡ 0 }
    requires worker { worker.number ≡ 1 }
    requires no_ticket { tickets.items ≡ [] }
    requires no_worker { workers.items ≡ [] }
    requires room { 1 ≤ vec_capacity tickets }
    requires workers_room { 1 ≤ vec_capacity workers }
{
    let mut tickets = tickets;
    tickets.push(ticket).unwrap();
    let mut workers = workers;
    workers.push(worker).unwrap();
    let _ = target.close(rt, tickets, workers);
}

// Does so many turns on an opened drive.
fn turns_on<M: Mount, R: Wait + Clock>(
    rt: &R,
    alloc: Global,
    opened: Opened<MemoryUnit>,
    count: u32,
) -> Result<Pieces, AllocError>
    requires named { Names M.chronicle M.past M.ring M.key M.handed M.wear opened }
    requires session { opened.sessions ≡ 1 }
    requires lanes { opened.lanes ≡ 0 }
{
    match opened.target::<M>(alloc) {
        Ok((target, tickets, workers)) => {
            let mut tickets = tickets;
            let ticket = tickets.pop().unwrap();
            let mut workers = workers;
            let mut worker = workers.pop().unwrap();
            let mut session = target.session(ticket);
            let pieces = turns(rt, target.engine(), &mut session, &mut worker, count);
            let ticket = session.end();
            close(rt, target, ticket, worker, tickets, workers);
            Ok(pieces)
        }
        Err(Refused { units: _, cause: _ }) => Err(AllocError),
    }
}

/// Has so many pieces of work done, one after another, while sectors are written at random.
///
/// Fails only where no target can be opened.
pub(crate) fn measure<R: Wait + Clock>(rt: &R, alloc: Global, count: u32) -> Result<Pieces> {
    let (shape, units) = units(alloc)?;
    match open(alloc, units, &shape, 1, 0) {
        Ok(opened) => Ok(turns_on::<Brand, R>(rt, alloc, opened, count)?),
        Err(Refused { units: _, cause: _ }) => bail!("no target"),
    }
}
