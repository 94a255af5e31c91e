//! Laws over ranges and their counts: each is the contract of a function that does nothing.
ghost use Rattle.std.specs.Prelude.{◌≡◌, ◌≢◌, ◌≤◌, ◌+◌, ℕ, Bool, List, length};
ghost use Rattle.pblk_model.specs.Frames.{Region, AreApart, count_left, count_out};

/// Two ranges of a region have no byte in common, if none is longer than the way to the next.
pub fn ranges_are_apart()
    ensures { (r : Region) (j k : ℕ) → r.size ≤ r.stride → j ≢ k → AreApart r j k }
{}

/// The ranges that are left and those that are out are all.
pub fn counts_add_up()
    ensures { (left : List Bool) → count_left left + count_out left ≡ length left }
{}
