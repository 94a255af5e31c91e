//! The start record that the blocks of a line's front spell.

ghost use Rattle.std.specs.Prelude.{◌≡◌, ◌<◌, ◌*◌, ◌^◌, ℕ, List, Some, None, length, IsTrue};
ghost use Rattle.std.specs.List.{AllByRecursion};
ghost use Rattle.pblk_model.specs.declared.shape.Shape.{Shape};
ghost use Rattle.pblk_model.specs.Accepted.{IsAccepted};
ghost use Rattle.pblk_model.specs.Chunk.{Block};
ghost use Rattle.pblk_model.specs.LineOrder.{start_len};
ghost use Rattle.pblk_model.specs.Image.{Image, width, block_at};
ghost use Rattle.pblk_model.specs.StartRecord.{StartRecord, start_fits, start_bytes, read_start, start_of};
ghost use Rattle.pblk_laws.specs.StartBlocks.{AreStart};

/// The spelling of a start record is read as that record.
pub fn spelled_is_read()
    ensures { (s : Shape) (line g : ℕ) (r : StartRecord) → IsAccepted s → line < s.chunks
        → g < 2 ^ 32 → IsTrue (start_fits s line g r)
        → read_start s line g (start_bytes s r) ≡ Some r }
{}

/// Bytes that are read as a start record are its one spelling, and its numbers are those of the
/// line.
pub fn read_is_spelled()
    ensures { (s : Shape) (line g : ℕ) (r : StartRecord) (bytes : List ℕ)
        → read_start s line g bytes ≡ Some r → (bytes ≡ start_bytes s r)
        × IsTrue (start_fits s line g r) }
{}

/// The spelling of a start record is as long as its blocks, and is made of bytes.
pub fn spelling_fills_its_blocks()
    ensures size { (s : Shape) (line g : ℕ) (r : StartRecord) → IsAccepted s
        → IsTrue (start_fits s line g r) → length (start_bytes s r) ≡ start_len s * s.sector }
    ensures bytes { (s : Shape) (r : StartRecord)
        → AllByRecursion (λ x. x < 256) (start_bytes s r) }
{}

/// A line has the start record that the blocks at its front spell.
pub fn written_is_found()
    ensures { (i : Image) (line : ℕ) (r : StartRecord) (blocks : List Block) → IsAccepted i.shape
        → line < i.shape.chunks → width i line < 2 ^ 32
        → IsTrue (start_fits i.shape line (width i line) r) → AreStart i line r blocks
        → start_of i line ≡ Some r }
{}

/// The blocks at a line's front spell the start record that the line has.
pub fn found_is_written()
    ensures { (i : Image) (line : ℕ) (r : StartRecord) → start_of i line ≡ Some r
        → IsTrue (start_fits i.shape line (width i line) r) × (blocks : List Block)
        × AreStart i line r blocks }
{}

/// A line has no start record where a block of its front isn't written.
pub fn unwritten_is_none()
    ensures { (i : Image) (line k : ℕ) → k < start_len i.shape → block_at i line k ≡ None
        → start_of i line ≡ None }
{}
