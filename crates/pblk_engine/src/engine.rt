//! An engine: the heart under its lock, and each unit's arm under a lock of its own.
ghost use Rattle.std.specs.Prelude.{◌≡◌};
ghost use Rattle.pblk_engine.specs.Hearts.{IsRingOf};
ghost use Rattle.chronicle.specs.Prefixes.{AreLegalLogs, ArePrefixes, logs_of};

use crate::heart::Heart;
use crate::mount::Mount;
use crate::shared::Shared;
use crate::worker::Worker;
use std::marker::Model;
use std::sync::atomic::AtomicU64;
use std::sync::atomic::Ordering::Relaxed;
use std::sync::{Mutex, MutexGuard, Wait};
use unit_port::Unit;
use write_ring::Ring;

/// What decides and works for a target, to be shared by any number of threads.
///
/// The heart decides, under the engine's lock. Each unit lies with the author of its log under a
/// lock of its own. Who holds both locks took the engine's first. A program and most fetches hold a
/// unit's lock alone, so units work at the same time.
pub struct Engine<M: Mount, U: Unit> {
    pub(crate) shared: Shared<M, U>,
    pub(crate) heart: Mutex<Heart<M>>,
    // How many threads sleep until the engine's lock is free.
    pub(crate) queue: AtomicU64,
}

// Contracts see nothing of it: the heart is under its lock.
impl<M: Mount, U: Unit> Model for Engine<M, U> {
    ghost Value = { Unit {0} };

    ghost view = { λ _. tt };
}

// How often a thread looks again whether the engine's lock is free, before it sleeps.
const LOOKS: u32 = 8;

// Where so many threads sleep for the lock already, another one sleeps at once.
const SLEEPERS: u64 = 2;

// How many loads there are before the first of these looks, and before a later one at most. A
// thousand are less than half a microsecond.
const FEWEST: u32 = 200;

const MOST: u32 = 3200;

impl<M: Mount, U: Unit> Engine<M, U> {
    /// Takes the engine's lock. A hold that looks sectors up is shorter than the time in which a
    /// thread is put to sleep and woken, so where somebody has the lock, the thread looks again a
    /// few times. Holds that place stripes and copy sectors are longer. While these go on, other
    /// threads sleep for the lock, and then it sleeps at once: to look for so long takes the time
    /// of a processor from those who work.
    pub(crate) fn hold<R: Wait>(&self, rt: &R) -> MutexGuard<'_, Heart<M>> {
        if let Some(heart) = self.heart.try_lock() {
            return heart;
        }
        if let Some(heart) = self.look_again() {
            return heart;
        }
        self.queue.fetch_add(1, Relaxed);
        let heart = self.heart.lock(rt);
        self.queue.fetch_sub(1, Relaxed);
        heart
    }

    // Takes the engine's lock if one of some looks finds it free. Each pause is twice as long as
    // the one before it, up to the longest. A look takes the cache line of the lock from whoever
    // has it, so looks that come too often make holds longer.
    fn look_again(&self) -> Option<MutexGuard<'_, Heart<M>>> {
        let mut loads = FEWEST;
        for _ in 0..LOOKS {
            if self.queue.load(Relaxed) >= SLEEPERS {
                return None;
            }
            self.pause(loads);
            if let Some(heart) = self.heart.try_lock() {
                return Some(heart);
            }
            loads = loads.saturating_mul(2).min(MOST);
        }
        None
    }

    // Passes a little time. Each turn has a load, since a loop without one takes none.
    fn pause(&self, loads: u32) {
        for _ in 0..loads {
            let _ = self.queue.load(Relaxed);
        }
    }

    /// Ends a hold of the engine's lock, and then wakes a session that waits for a grant, where
    /// more was granted meanwhile. To wake a thread takes longer than most holds.
    pub(crate) fn release(&self, heart: MutexGuard<'_, Heart<M>>) {
        drop(heart);
        self.shared.ring.tell_grant();
    }

    /// Whether a thread sleeps until the engine's lock is free. Nothing is promised of the answer.
    pub fn is_contended(&self) -> bool {
        self.queue.load(Relaxed) != 0
    }

    /// The write ring of the mount.
    pub fn ring(&self) -> &Ring
        ensures ring { IsRingOf M.ring M.key result.now }
    {
        &self.shared.ring
    }

    /// The heart learns what the worker knows, and then the worker knows all that the heart does.
    pub(crate) fn tell(&self, heart: &mut Heart<M>, worker: &mut Worker<M>)
        ensures heart { let old = heart.old in heart.new ≡ record old {
          author = record old.author { known = heart.new.author.known };
        } }
        ensures worker { let old = worker.old in worker.new
            ≡ record old { known = heart.new.author.known } }
        ensures own { logs_of heart.new.author.known 0 ≡ logs_of heart.old.author.known 0 }
        ensures heart_keeps { ArePrefixes heart.old.author.known heart.new.author.known }
        ensures keeps { ArePrefixes worker.old.known worker.new.known }
        ensures legal { AreLegalLogs M.past.image heart.new.author.known }
    {
        self.shared.tell(heart, worker);
    }
}
