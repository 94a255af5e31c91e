//! The units of a line of an image, as bits.

ghost use Rattle.std.specs.Prelude.{◌≡◌, ◌≤◌, ℕ, length};
ghost use Rattle.pblk_model.specs.Image.{Image, line_units};
ghost use Rattle.pblk_layout.specs.Online.{HasOnlineUnits, units_in};

/// Bits that are set exactly for the units whose chunk of a line isn't Offline are the line's units, in their
/// order. So what `place` and `addr_of` say of the bits holds for the line.
pub fn online_units_are_the_lines()
    ensures { (i : Image) (line online : ℕ) → length i.units ≤ 64 → HasOnlineUnits i line online
        → units_in online ≡ line_units i line }
{}
