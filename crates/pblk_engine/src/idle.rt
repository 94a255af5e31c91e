//! How a thread waits for work.

use std::sync::Wait;
use std::time::Duration;
use write_ring::Ring;

// how long the first sleep lasts at most, and how long any does, in microseconds
const FIRST: u64 = 100;

const LONGEST: u64 = 10_000;

/// A thread's wait for work, turn by turn.
///
/// In each turn it sleeps: at first for at most 100 microseconds, and then for twice as long in
/// each turn, up to 10 milliseconds. A claim in the write ring that passes a multiple of 64 wakes
/// it, and so does `Ring::wake`. Nothing is promised of how long a turn takes.
#[derive(Drop)]
pub struct Idle {
    // how long the next sleep lasts at most, in microseconds
    limit: u64,
    // what was claimed at the last turn
    claimed: u64,
}

impl Idle {
    /// A wait that hasn't begun.
    pub fn new() -> Idle {
        Idle {
            limit: FIRST,
            claimed: 0,
        }
    }

    /// Begins anew, since there was work.
    pub fn reset(&mut self) {
        self.limit = FIRST;
    }

    /// Sleeps for one turn. `claimed` is what `Ring::peek` answered before the thread looked for
    /// work. Where that has changed since the last turn, it begins anew, since more is about to be
    /// claimed.
    pub fn wait<R: Wait>(&mut self, rt: &R, ring: &Ring, claimed: u64) {
        if claimed != self.claimed {
            self.claimed = claimed;
            self.reset();
        }
        ring.doze(rt, ring.peek(), Duration::from_micros(self.limit));
        self.limit = self.limit.saturating_mul(2).min(LONGEST);
    }
}
