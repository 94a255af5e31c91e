//! Numbers that jump about, the same in each run.
ghost use Rattle.std.specs.Prelude.{◌<◌};

/// How many numbers a loop draws.
pub(crate) const DRAWS: u64 = 4096;

/// A generator of numbers (D. Knuth, MMIX; a linear congruence modulo 2^64).
#[derive(Clone, Copy, Debug)]
pub(crate) struct Draw {
    state: u64,
}

impl Draw {
    pub(crate) fn new() -> Draw {
        Draw { state: 1 }
    }

    /// The next number below `count`.
    pub(crate) fn below(&mut self, count: u64) -> u64
        requires { 0 < count }
        ensures { result < count }
    {
        self.state = self
            .state
            .wrapping_mul(6364136223846793005)
            .wrapping_add(1442695040888963407);
        (self.state >> 33) % count
    }
}

/// The loop that draws numbers and does nothing with them but to add them up.
pub(crate) fn draw_all(count: u64) -> u64
    requires { 0 < count }
{
    let mut draw = Draw::new();
    let mut sum = 0u64;
    for _ in 0..DRAWS {
        sum = sum.wrapping_add(draw.below(count));
    }
    sum
}
