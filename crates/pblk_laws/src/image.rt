//! The widths of lines.

ghost use Rattle.std.specs.Prelude.{◌≤◌, ℕ};
ghost use Rattle.pblk_model.specs.Shape.{units};
ghost use Rattle.pblk_model.specs.Image.{Image, IsFit, width};

/// A line of a fit image isn't wider than there are units.
pub fn width_is_within_units()
    ensures { (i : Image) (line : ℕ) → IsFit i → width i line ≤ units i.shape }
{}
