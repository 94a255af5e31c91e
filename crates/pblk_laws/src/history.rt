//! How many lines of a history are below a position.

ghost use Rattle.std.specs.Prelude.{◌≡◌, ◌<◌, ◌≤◌, ◌↔◌, ℕ, List, Some, length, slice_get};
ghost use Rattle.std.specs.List.Sorted.{IsStrictlyIncreasing};
ghost use Rattle.pblk_model.specs.History.{users};

/// Where the positions of a history's lines rise, those below a position are its first lines: a
/// line's position is below it exactly where the line's number is below their number.
pub fn users_are_the_first()
    ensures first { (positions : List ℕ) (p k q : ℕ) → IsStrictlyIncreasing positions
        → slice_get positions k ≡ Some q → (q < p) ↔ (k < users positions p) }
    ensures few { (positions : List ℕ) (p : ℕ) → users positions p ≤ length positions }
{}
