//! What the choice of a line looks at.

ghost use Rattle.std.specs.Prelude.{◌↔◌, IsTrue};
ghost use Rattle.victim_index.specs.Choice.{IsPreferred};

/// What the choice of a line to collect looks at. Contracts speak of it; `Victims::set` is given its parts.
#[derive(Clone, Copy, Debug, PartialEq, Eq)]
pub struct Candidate {
    /// A program in the line failed, or the line was found without its end record.
    pub failed: bool,
    /// How many sectors have their latest content in it.
    pub live: u32,
    /// The sequence number with which it was opened.
    pub seq: u64,
}

impl Candidate {
    /// Whether it is preferred to another, whatever their lines are.
    pub(crate) fn is_preferred(&self, other: &Candidate) -> bool
        ensures { IsTrue result ↔ IsPreferred self.now other.now }
    {
        if self.failed != other.failed {
            self.failed
        } else {
            (self.live, self.seq) < (other.live, other.seq)
        }
    }
}
