//! Laws on how a line's addresses are paired with the blocks of its chunks.

ghost use Rattle.std.specs.Prelude.{◌≡◌, ◌↔◌, ℕ, ◌*◌, ◌%◌, ◌<◌, List, Some, length, slice_get};
ghost use Rattle.pblk_model.specs.declared.shape.Shape.{Shape};
ghost use Rattle.pblk_model.specs.LineOrder.{line_order, column_of, block_of, address_of};

/// Each address of a line of g chunks is the address of one block of one of these chunks.
pub fn one_to_one()
    ensures { (s : Shape) (g a : ℕ) → 0 < s.ws_opt → s.clba % s.ws_opt ≡ 0 → 0 < g
        → a < g * s.clba → (column_of s g a < g) × (block_of s g a < s.clba)
        × (address_of s g (column_of s g a) (block_of s g a) ≡ a) }
{}

/// Each block of each of a line's g chunks has one address, and is the block at that address.
pub fn address_is_of()
    ensures { (s : Shape) (g k b : ℕ) → 0 < s.ws_opt → s.clba % s.ws_opt ≡ 0 → k < g → b < s.clba
        → (address_of s g k b < g * s.clba) × (column_of s g (address_of s g k b) ≡ k)
        × (block_of s g (address_of s g k b) ≡ b) }
{}

/// The list of a line's blocks and the equations are one order. At an address the list has the unit that the
/// address's column names, with the block that the equation gives. The list has as many entries as the units'
/// chunks have blocks.
pub fn line_order_is()
    ensures block { (s : Shape) (line_units : List ℕ) (a unit : ℕ) → 0 < s.ws_opt
        → s.clba % s.ws_opt ≡ 0
        → ((slice_get (line_order s line_units) a ≡ Some (unit, block_of s (length line_units) a))
        ↔ ((slice_get line_units (column_of s (length line_units) a) ≡ Some unit)
        × (a < length line_units * s.clba))) }
    ensures length { (s : Shape) (line_units : List ℕ) → 0 < s.ws_opt → s.clba % s.ws_opt ≡ 0
        → length (line_order s line_units) ≡ length line_units * s.clba }
{}
