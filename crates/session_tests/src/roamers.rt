//! Sessions that write, read, flush and tell each other at random.
ghost use Rattle.std.specs.Prelude.{◌≡◌, ◌≤◌};
ghost use Rattle.block_target.specs.Sessions.{device};

use crate::deeds::{Deed, MOST, SECTOR, fill, words_of};
use block_target::{FlushErr, Note, Port, ReadErr, Session, WriteErr};
use pblk_engine::Mount;
use std::alloc::{AllocError, Global};
use std::sync::Wait;
use std::sync::atomic::{AtomicU64, Ordering};
use target_crew::Work;
use unit_port::Unit;

/// How often of 16 times a session writes, reads and flushes. Else it tells or hears a note.
#[derive(Clone, Copy)]
pub(crate) struct Mix {
    pub(crate) writes: u64,
    pub(crate) reads: u64,
    pub(crate) flushes: u64,
    /// How many sectors a command has at most, from 1 to 16.
    pub(crate) sectors: u64,
}

/// What each session has told last. There are places for four.
#[derive(Drop)]
pub(crate) struct Board {
    told: [AtomicU64; 4],
}

impl Board {
    /// Nobody has told anything.
    pub(crate) fn new() -> Board {
        Board {
            told: [
                AtomicU64::new(0),
                AtomicU64::new(0),
                AtomicU64::new(0),
                AtomicU64::new(0),
            ],
        }
    }

    // Whose place this is.
    fn place(&self, number: u64) -> &AtomicU64 {
        &self.told[(number % 4) as usize]
    }
}

/// A session that does what numbers say, which are drawn from a seed.
#[derive(Drop)]
pub(crate) struct Roamer<'b> {
    number: u64,
    board: &'b Board,
    mix: Mix,
    turns: u32,
    capacity: u64,
    drawn: u64,
    // how many sectors it was to write
    words: u64,
    /// What it did, unless there wasn't the memory to note that.
    pub(crate) deeds: Vec<Deed>,
    pub(crate) forgot: bool,
}

// The numbers of a linear congruential generator are those of Knuth's MMIX.
const MULTIPLIER: u64 = 6_364_136_223_846_793_005;

const INCREMENT: u64 = 1_442_695_040_888_963_407;

impl<'b> Roamer<'b> {
    /// A session with this number, that does so many things on a target of so many sectors.
    pub(crate) fn new(
        alloc: Global,
        number: u64,
        board: &'b Board,
        mix: Mix,
        turns: u32,
        capacity: u64,
        seed: u64,
    ) -> Result<Roamer<'b>, AllocError> {
        Ok(Roamer {
            number,
            board,
            mix,
            turns,
            capacity,
            drawn: seed.wrapping_add(number),
            words: 0,
            deeds: Vec::with_capacity(alloc, turns as usize)?,
            forgot: false,
        })
    }

    // The next number, which is below 2^31.
    fn draw(&mut self) -> u64 {
        self.drawn = self.drawn.wrapping_mul(MULTIPLIER).wrapping_add(INCREMENT);
        self.drawn >> 33
    }

    fn note(&mut self, deed: Deed) {
        self.forgot = self.forgot || self.deeds.push(deed).is_err();
    }

    // How many sectors, and from which one on.
    fn draw_run(&mut self) -> (u64, usize)
        ensures some { 1 ≤ result.1 }
        ensures few { result.1 ≤ 16 }
    {
        let most = self.mix.sectors.clamp(1, 16);
        let count = self.draw() % most + 1;
        let lbas = self.capacity.saturating_sub(count).saturating_add(1);
        (self.draw() % lbas, count as usize)
    }

    fn write<M: Mount, U: Unit, R: Wait>(&mut self, rt: &R, session: &mut Session<'_, M, U>)
        requires sector { M.past.image.shape.sector ≡ 512 }
        ensures { session.new.worker.number ≡ session.old.worker.number }
    {
        let (lba, count) = self.draw_run();
        let word = (self.number.wrapping_add(1) << 48).wrapping_add(self.words);
        self.words = self.words.wrapping_add(count as u64);
        let mut bytes = [0; MOST * SECTOR];
        fill(&mut bytes, count, word);
        let deed = match session.write(rt, lba, &bytes[..count * SECTOR]) {
            Ok(place) => Deed::Wrote {
                lba,
                count: count as u32,
                word,
                place,
            },
            Err(WriteErr::Range) => Deed::Range,
            Err(WriteErr::Drive { unit, event }) => Deed::Lost(unit, event),
            Err(WriteErr::Worn { wanted, have }) => Deed::Worn(wanted, have),
        };
        self.note(deed);
    }

    fn read<M: Mount, U: Unit, R: Wait>(&mut self, rt: &R, session: &mut Session<'_, M, U>)
        requires sector { M.past.image.shape.sector ≡ 512 }
        ensures { session.new.worker.number ≡ session.old.worker.number }
    {
        let (lba, count) = self.draw_run();
        let mut bytes = [0; MOST * SECTOR];
        let deed = match session.read(rt, lba, &mut bytes[..count * SECTOR]) {
            Ok(front) => Deed::Read {
                lba,
                count: count as u32,
                words: words_of(&bytes, count),
                front,
            },
            Err(ReadErr::Range) => Deed::Range,
            Err(ReadErr::Drive { unit, event }) => Deed::Lost(unit, event),
        };
        self.note(deed);
    }

    fn flush<M: Mount, U: Unit, R: Wait>(&mut self, rt: &R, session: &mut Session<'_, M, U>)
        ensures { session.new.worker.number ≡ session.old.worker.number }
    {
        let deed = match session.flush(rt) {
            Ok(front) => Deed::Flushed(front),
            Err(FlushErr::Drive { unit, event }) => Deed::Lost(unit, event),
            Err(FlushErr::Worn { wanted, have }) => Deed::Worn(wanted, have),
        };
        self.note(deed);
    }

    // It tells what it has seen, or hears what another told last.
    fn exchange<M: Mount, U: Unit>(&mut self, session: &mut Session<'_, M, U>)
        ensures { session.new.worker.number ≡ session.old.worker.number }
    {
        let draw = self.draw();
        if draw % 2 == 0 {
            let told = session.tell().position;
            self.board.place(self.number).store(told, Ordering::SeqCst);
        } else {
            let position = self.board.place(draw / 2).load(Ordering::SeqCst);
            if position < 1 << 63 {
                session.hear(Note { position });
                self.note(Deed::Heard(position));
            }
        }
    }

    fn turn<M: Mount, U: Unit, R: Wait>(&mut self, rt: &R, session: &mut Session<'_, M, U>)
        requires sector { M.past.image.shape.sector ≡ 512 }
        ensures { session.new.worker.number ≡ session.old.worker.number }
    {
        let Mix {
            writes,
            reads,
            flushes,
            ..
        } = self.mix;
        let draw = self.draw() % 16;
        if draw < writes {
            self.write(rt, session);
        } else if draw - writes < reads {
            self.read(rt, session);
        } else if draw - writes - reads < flushes {
            self.flush(rt, session);
        } else {
            self.exchange(session);
        }
    }
}

impl<U: Unit> Work<U> for Roamer<'_> {
    fn work<M: Mount, R: Wait>(&mut self, rt: &R, session: &mut Session<'_, M, U>)
        ensures { session.new.worker.number ≡ session.old.worker.number }
    {
        if session.sector() as usize != SECTOR {
            return;
        }
        for _turn in 0..self.turns {
            self.turn(rt, session);
        }
    }
}
