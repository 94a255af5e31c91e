//! What the time is.

use std::rt::Clock;

/// The nanoseconds of a clock, or 0 where it can't be read.
pub(crate) fn now<C: Clock>(clock: &C) -> u64 {
    let Ok(time) = clock.monotonic() else {
        return 0;
    };
    time.as_secs()
        .saturating_mul(1_000_000_000)
        .saturating_add(u64::from(time.subsec_nanos()))
}
