// Threads that have nothing to do sleep until something is claimed.
use crate::table::{CLAIMED, GRANTED, Ring};
use std::sync::Wait;
use std::sync::atomic::Ordering::SeqCst;
use std::time::Duration;

// Those who doze are woken once for so many positions.
const STEP: u64 = 64;

impl Ring {
    /// Loads `claimed` once, for `doze`. It takes no pass and no intake. Nothing is promised of the
    /// answer.
    pub fn peek(&self) -> u64 {
        self.table.shared.peek(CLAIMED)
    }

    /// Loads what is granted once, for `await_grant`. Nothing is promised of the answer.
    pub fn peek_granted(&self) -> u64 {
        self.table.shared.peek(GRANTED)
    }

    /// Sleeps if `claimed` is this number still: until a claim passes a multiple of 64, and for no
    /// longer than the limit. Only the lowest 32 bits are compared. It may also end for no reason.
    /// Nothing is promised of how long it sleeps, and nothing of what is claimed afterwards.
    pub fn doze<R: Wait>(&self, rt: &R, claimed: u64, limit: Duration) {
        self.sleepers.fetch_add(1, SeqCst);
        let low = (claimed & 0xffff_ffff) as u32;
        self.table.shared.park_timeout(rt, CLAIMED, low, limit);
        self.sleepers.fetch_sub(1, SeqCst);
    }

    /// Wakes all threads that doze. Where none does it is one load. Nothing is promised of when
    /// they run.
    pub fn wake(&self) {
        if self.sleepers.load(SeqCst) != 0 {
            self.table.shared.wake_all(CLAIMED);
        }
    }

    // Wakes all threads that doze, where the claim of these positions passes a multiple of 64: to
    // wake a thread takes as long as several claims, and fewer entries than a stripe are no work.
    pub(crate) fn wake_past(&self, first: u64, end: u64) {
        if first / STEP != end / STEP {
            self.wake();
        }
    }

    /// Sleeps if what is granted ends at this position still: until more is granted, and for no
    /// longer than the limit. Only the lowest 32 bits are compared. It may also end for no reason.
    /// Nothing is promised of how long it sleeps, and nothing of what is granted afterwards.
    pub fn await_grant<R: Wait>(&self, rt: &R, granted: u64, limit: Duration) {
        self.waiters.fetch_add(1, SeqCst);
        let low = (granted & 0xffff_ffff) as u32;
        self.table.shared.park_timeout(rt, GRANTED, low, limit);
        self.waiters.fetch_sub(1, SeqCst);
    }

    /// Wakes one of those who wait for a grant, where more is granted than when the last was woken.
    /// Where nobody waits it is one load. Whoever grants calls it, once other threads needn't wait
    /// for it any more, since to wake a thread takes its time. Nothing is promised of when it runs.
    pub fn tell_grant(&self) {
        if self.waiters.load(SeqCst) == 0 {
            return;
        }
        let granted = self.table.shared.peek(GRANTED);
        if self.told.swap(granted, SeqCst) != granted {
            self.table.shared.wake_one(GRANTED);
        }
    }
}
