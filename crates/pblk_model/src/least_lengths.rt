//! Laws on how many blocks a line's two records take.

ghost use Rattle.std.specs.Prelude.{◌*◌, ◌≤◌, ℕ};
ghost use Rattle.pblk_model.specs.declared.shape.Shape.{Shape};
ghost use Rattle.pblk_model.specs.Accepted.{IsAccepted};
ghost use Rattle.pblk_model.specs.Shape.{units};
ghost use Rattle.pblk_model.specs.LineOrder.{IsLeastMultiple, HoldsStart, HoldsEnd, start_len, end_len};

/// A start record takes the least number of whole stripes that hold one.
pub fn start_len_is_least()
    ensures { (s : Shape) → IsAccepted s → IsLeastMultiple s.ws_opt (HoldsStart s) (start_len s) }
{}

/// An end record takes the least number of whole stripes that hold one.
pub fn end_len_is_least()
    ensures { (s : Shape) (g : ℕ) → IsAccepted s
        → IsLeastMultiple s.ws_opt (HoldsEnd s g) (end_len s g) }
{}

/// A line has at most 65536 blocks, since a drive has at least 8 lines and at most 256 MiB of sectors.
pub fn a_line_is_short()
    ensures { (s : Shape) (g : ℕ) → IsAccepted s → g ≤ units s → g * s.clba ≤ 65536 }
{}
