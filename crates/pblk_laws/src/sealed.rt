//! Images of which recovery is promised whole.

ghost use Rattle.std.specs.Prelude.{◌≡◌, ◌*◌, ◌<◌, ◌≤◌, ◌^◌, ℕ, List, [], ◌∷◌, Some, slice_get, take, drop, IsTrue};
ghost use Rattle.pblk_model.specs.declared.shape.Shape.{Shape};
ghost use Rattle.pblk_model.specs.Accepted.{IsAccepted};
ghost use Rattle.pblk_model.specs.Chunk.{Chunk, Block};
ghost use Rattle.pblk_model.specs.LineOrder.{start_len};
ghost use Rattle.pblk_model.specs.Marks.{meta_mark};
ghost use Rattle.pblk_model.specs.Image.{Image, IsFit, blank, line_chunks, width, block_at};
ghost use Rattle.pblk_model.specs.StartRecord.{StartRecord, start_fits, start_bytes, start_of};
ghost use Rattle.pblk_model.specs.Sealed.{BeginsNarrower, IsSealed};
ghost use Rattle.pblk_model.specs.History.{SectorWrite};
ghost use Rattle.pblk_laws.specs.FilledLine.{IsFilledLine};

/// A blank image is sealed.
pub fn blank_is_sealed()
    ensures { (s : Shape) → IsAccepted s → IsSealed (blank s) }
{}

/// No block of a start record's spelling begins a start record of a lesser width: neither the first
/// nor one within its rows. So no block of a line's start record does.
pub fn start_records_begin_once()
    ensures spelled { (s : Shape) (line g h j : ℕ) (r : StartRecord) (b : Block) → IsAccepted s
        → g < 2 ^ 32 → h ≤ g → IsTrue (start_fits s line g r)
        → b.sector ≡ take s.sector (drop (j * s.sector) (start_bytes s r))
        → b.mark ≡ meta_mark r.seq → ¬ BeginsNarrower h b }
    ensures found { (i : Image) (line a : ℕ) (r : StartRecord) (b : Block) → IsAccepted i.shape
        → IsFit i → start_of i line ≡ Some r → a < start_len i.shape → block_at i line a ≡ Some b
        → ¬ BeginsNarrower (width i line) b }
{}

/// An image whose line 0 is filled from its front is sealed, where no chunk of any other line
/// begins with a start record of a lesser width.
pub fn filled_line_is_sealed()
    ensures { (i : Image) (start : StartRecord) (writes : List SectorWrite) → IsAccepted i.shape
        → IsFit i → IsFilledLine i start writes
        → ((line k : ℕ) (c : Chunk) (b : Block) → 0 < line → line < i.shape.chunks
        → slice_get (line_chunks i line) k ≡ Some c → slice_get c.blocks 0 ≡ Some b
        → ¬ BeginsNarrower (width i line) b)
        → IsSealed i }
{}

/// Some image of an accepted shape is filled with a sector and sealed.
pub fn a_filled_line_is_sealed()
    ensures { (i : Image) × (start : StartRecord) × (write : SectorWrite) × IsAccepted i.shape
        × IsFit i × IsFilledLine i start (write ∷ []) × IsSealed i }
{}
