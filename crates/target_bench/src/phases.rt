//! What sessions do while they are measured.
ghost use Rattle.std.specs.Prelude.{◌≡◌, ◌≤◌, length};

use crate::bench_drive::{CAPACITY, SECTOR};
use crate::moments::now;
use block_target::{Port, Session};
use pblk_engine::Mount;
use std::alloc::{AllocError, Global};
use std::rt::Clock;
use std::sync::Wait;
use std::sync::atomic::{AtomicU64, Ordering};
use std::thread;
use target_crew::Work;
use unit_port::Unit;

// How many sectors a session has for itself.
const OWN: u64 = 960;

// How many of them it reads, where all were written: the first ones, which left the cache.
const READ: u64 = 480;

/// What is measured.
#[derive(Clone, Copy)]
pub(crate) enum Task {
    /// Writes of 16 sectors.
    Write,
    /// Reads of a sector that was written just before.
    Cached,
    /// Reads of a sector that is on the drive.
    Written,
    /// Reads of 16 sectors that were written just before.
    CachedRun,
    /// Reads of 16 sectors that are on the drive.
    WrittenRun,
}

/// A session that is measured.
#[derive(Drop)]
pub(crate) struct Phase<'r, C: Clock> {
    clock: &'r C,
    // How many sessions are ready.
    ready: &'r AtomicU64,
    task: Task,
    number: u32,
    sessions: u32,
    turns: u32,
    // The 16 sectors that it writes. It reads over them, as what is written doesn't matter.
    bytes: Vec<u8>,
    /// How often it did the thing rightly.
    pub(crate) right: u64,
    /// How many nanoseconds all of that took.
    pub(crate) nanos: u64,
}

impl<'r, C: Clock> Phase<'r, C> {
    /// The session with this number, of so many, which is to do the thing so often.
    ///
    /// Fails only for want of memory.
    pub(crate) fn new(
        alloc: Global,
        clock: &'r C,
        ready: &'r AtomicU64,
        task: Task,
        number: u32,
        sessions: u32,
        turns: u32,
    ) -> Result<Phase<'r, C>, AllocError> {
        Ok(Phase {
            clock,
            ready,
            task,
            number,
            sessions,
            turns,
            bytes: vec![in alloc; 0u8; 16 * SECTOR]?,
            right: 0,
            nanos: 0,
        })
    }

    // The sector of its own with this number, from the first on again past the last.
    fn own(&self, index: u64) -> u64 {
        (u64::from(self.number).wrapping_mul(OWN)).wrapping_add(index % OWN) % CAPACITY
    }

    // Waits until all sessions are ready.
    fn wait<R: Wait>(&self, rt: &R) {
        self.ready.fetch_add(1, Ordering::SeqCst);
        for _ in rt.forever() {
            if self.ready.load(Ordering::SeqCst) >= u64::from(self.sessions) {
                return;
            }
            thread::yield_now();
        }
        unreachable!()
    }

    // Writes 16 sectors. Tells whether that was done.
    fn write<M: Mount, U: Unit, R: Wait>(
        &self,
        rt: &R,
        session: &mut Session<'_, M, U>,
        index: u64,
    ) -> bool
        requires sector { M.past.image.shape.sector ≡ 4096 }
        requires bytes { length self.now.bytes.items ≡ 65536 }
        ensures { session.new.worker.number ≡ session.old.worker.number }
    {
        session
            .write(rt, self.own(index), self.bytes.as_slice())
            .is_ok()
    }

    // Reads so many sectors, 1 to 16. Tells whether that was done.
    fn read<M: Mount, U: Unit, R: Wait>(
        &mut self,
        rt: &R,
        session: &mut Session<'_, M, U>,
        index: u64,
        count: usize,
    ) -> bool
        requires sector { M.past.image.shape.sector ≡ 4096 }
        requires bytes { length self.old.bytes.items ≡ 65536 }
        requires some { 1 ≤ count }
        requires few { count ≤ 16 }
        ensures number { session.new.worker.number ≡ session.old.worker.number }
        ensures bytes { length self.new.bytes.items ≡ 65536 }
    {
        let lba = self.own(index);
        let out = &mut self.bytes[..count * SECTOR];
        session.read(rt, lba, out).is_ok()
    }

    // Writes so many of its own sectors, the first ones, and has them put on the drive.
    fn prepare<M: Mount, U: Unit, R: Wait>(
        &self,
        rt: &R,
        session: &mut Session<'_, M, U>,
        sectors: u64,
    )
        requires sector { M.past.image.shape.sector ≡ 4096 }
        requires bytes { length self.now.bytes.items ≡ 65536 }
        ensures { session.new.worker.number ≡ session.old.worker.number }
    {
        for index in 0..sectors / 16 {
            self.write(rt, session, index.wrapping_mul(16));
        }
        let _ = session.flush(rt);
    }

    // Does the thing once.
    fn turn<M: Mount, U: Unit, R: Wait>(
        &mut self,
        rt: &R,
        session: &mut Session<'_, M, U>,
        turn: u64,
    ) -> bool
        requires sector { M.past.image.shape.sector ≡ 4096 }
        requires bytes { length self.old.bytes.items ≡ 65536 }
        ensures number { session.new.worker.number ≡ session.old.worker.number }
        ensures bytes { length self.new.bytes.items ≡ 65536 }
    {
        match self.task {
            Task::Write => self.write(rt, session, turn.wrapping_mul(16)),
            Task::Cached => self.read(rt, session, turn % 16, 1),
            Task::Written => self.read(rt, session, turn.wrapping_mul(7) % READ, 1),
            Task::CachedRun => self.read(rt, session, 0, 16),
            Task::WrittenRun => self.read(rt, session, turn.wrapping_mul(16) % READ, 16),
        }
    }
}

impl<U: Unit, C: Clock> Work<U> for Phase<'_, C> {
    fn work<M: Mount, R: Wait>(&mut self, rt: &R, session: &mut Session<'_, M, U>)
        ensures { session.new.worker.number ≡ session.old.worker.number }
    {
        if session.sector() as usize != SECTOR || self.bytes.len() != 16 * SECTOR {
            return;
        }
        match self.task {
            Task::Write => (),
            Task::Cached | Task::CachedRun => {
                self.write(rt, session, 0);
            }
            Task::Written | Task::WrittenRun => self.prepare(rt, session, OWN),
        }
        self.wait(rt);
        let start = now(self.clock);
        for turn in 0..u64::from(self.turns) {
            let is_right = self.turn(rt, session, turn);
            self.right = self.right.wrapping_add(u64::from(is_right));
        }
        self.nanos = now(self.clock).saturating_sub(start);
    }
}
