//! Lines that are held, compared with one another.

ghost use Rattle.std.specs.Prelude.{◌↔◌, IsTrue};
ghost use Rattle.victim_index.specs.Tournament.{IsNoWorse, IsWinner};

use crate::candidate::Candidate;

/// A line that is held.
#[derive(Clone, Copy, Debug, PartialEq, Eq)]
pub(crate) struct Held {
    pub(crate) line: u32,
    pub(crate) candidate: Candidate,
}

impl Held {
    /// Whether it is preferred to another, or level with it and of no greater number.
    fn is_no_worse(&self, other: &Held) -> bool
        ensures { IsTrue result ↔ IsNoWorse self.now other.now }
    {
        if self.candidate == other.candidate {
            self.line <= other.line
        } else {
            self.candidate.is_preferred(&other.candidate)
        }
    }
}

/// The better of two lines, where both are held.
pub(crate) fn winner(left: Option<Held>, right: Option<Held>) -> Option<Held>
    ensures { IsWinner left right result }
{
    let Some(one) = left else {
        return right;
    };
    match right {
        Some(other) if !one.is_no_worse(&other) => right,
        _ => left,
    }
}
