//! Values that say which place they are of.
ghost use Rattle.std.specs.Prelude.{◌≡◌, ◌<◌};
ghost use Rattle.numbered_locks.specs.Handles.{places};

use numbered_locks::{Keeps, NumberedLocks};
use std::sync::Wait;
use std::thread;

/// A number that is counted up, and the place that it is of.
#[derive(Clone, Copy, Debug, PartialEq, Eq, Drop)]
pub struct Counter {
    /// The place.
    pub place: u32,
    /// How often it was counted up.
    pub count: u64,
}

/// Each place has the counter that says its number.
pub struct OwnPlace;

impl Keeps<Counter> for OwnPlace {
    ghost keeps = { λ place counter. counter.place ≡ place };
}

/// Locks of such counters.
pub type Counters = NumberedLocks<Counter, OwnPlace>;

/// Counts a place's counter up, and tells the place that it said. Others may run while it is held.
pub fn count_up<R: Wait>(rt: &R, counters: &Counters, place: u32, pauses: u32) -> u32
    requires there { place < places counters.now }
    ensures own { result ≡ place }
{
    let (held, mut counter) = counters.lock(rt, place);
    for _pause in 0..pauses {
        thread::yield_now();
    }
    counter.count = counter.count.wrapping_add(1);
    counters.unlock(held, counter);
    counter.place
}
