//! A law of settlings: it is the contract of a function that does nothing.

ghost use Rattle.std.specs.Prelude.{◌≤◌, ℕ};
ghost use Rattle.room_law.specs.Settling.{Drive, IsDrive, IsSettling, IsStart, State, most_pumps};

/// A settling ends: it makes at most eight pumps for each block of a line, for each claimed
/// position that isn't on the drive as it begins, for each line, and for 64 more.
pub fn a_settling_ends()
    ensures { (z : Drive) (start s : State) (claimed lines pumps : ℕ) → IsDrive z
        → IsStart z claimed lines start → IsSettling z start pumps s
        → pumps ≤ most_pumps z claimed lines }
{}
