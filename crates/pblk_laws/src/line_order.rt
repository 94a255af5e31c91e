//! Which blocks of an image a line has, and in which order.

ghost use Rattle.std.specs.Prelude.{◌≡◌, ℕ, ◌%◌, ◌<◌, Some, None, length, slice_get};
ghost use Rattle.std.specs.List.Sorted.{IsStrictlyIncreasing};
ghost use Rattle.std.specs.Option.{option_and_then};
ghost use Rattle.pblk_model.specs.LineOrder.{line_order};
ghost use Rattle.pblk_model.specs.Image.{Image, IsFit, line_chunks, line_units, width, block_at};
ghost use Rattle.pblk_laws.specs.LineBlocks.{chunk_in, written_at};

/// The block at a line address is the written block at the place that the order of the line's units
/// has there. Past the end of that order there is none.
pub fn block_at_is()
    ensures named { (i : Image) (line a : ℕ) (place : ℕ × ℕ) → 0 < i.shape.ws_opt
        → i.shape.clba % i.shape.ws_opt ≡ 0
        → slice_get (line_order i.shape (line_units i line)) a ≡ Some place
        → block_at i line a ≡ written_at i line place }
    ensures past { (i : Image) (line a : ℕ) → IsFit i → 0 < i.shape.ws_opt
        → i.shape.clba % i.shape.ws_opt ≡ 0
        → slice_get (line_order i.shape (line_units i line)) a ≡ None → block_at i line a ≡ None }
{}

/// The numbers of a line's units rise, there are as many as the line is wide, and they are the
/// units of the line's chunks.
pub fn line_units_are()
    ensures rising { (i : Image) (line : ℕ) → IsStrictlyIncreasing (line_units i line) }
    ensures count { (i : Image) (line : ℕ) → length (line_units i line) ≡ width i line }
    ensures chunks { (i : Image) (line k : ℕ)
        → slice_get (line_chunks i line) k
        ≡ option_and_then (chunk_in i line) (slice_get (line_units i line) k) }
{}
