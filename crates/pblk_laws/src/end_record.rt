//! The end record that the blocks of a line's end spell.

ghost use Rattle.std.specs.Prelude.{◌≡◌, ◌<◌, ◌*◌, ℕ, List, Some, length};
ghost use Rattle.std.specs.List.{AllByRecursion};
ghost use Rattle.pblk_model.specs.declared.shape.Shape.{Shape};
ghost use Rattle.pblk_model.specs.Accepted.{IsAccepted};
ghost use Rattle.pblk_model.specs.Chunk.{Block};
ghost use Rattle.pblk_model.specs.LineOrder.{end_len};
ghost use Rattle.pblk_model.specs.Image.{Image};
ghost use Rattle.pblk_model.specs.StartRecord.{StartRecord};
ghost use Rattle.pblk_model.specs.EndRecord.{EndRecord, end_bytes, read_end, end_of};
ghost use Rattle.pblk_laws.specs.EndBlocks.{IsEndRecord, IsEndOf, AreEnd};

/// The spelling of an end record is read as that record.
pub fn end_spelled_is_read()
    ensures { (s : Shape) (r : EndRecord) → IsEndRecord s r
        → read_end s r.line r.width r.seq (end_bytes s r) ≡ Some r }
{}

/// Bytes that are read as an end record are its one spelling, and it is one of the line.
pub fn end_read_is_spelled()
    ensures spelled { (s : Shape) (line g seq : ℕ) (r : EndRecord) (bytes : List ℕ)
        → read_end s line g seq bytes ≡ Some r → bytes ≡ end_bytes s r }
    ensures fits { (s : Shape) (line g seq : ℕ) (r : EndRecord) (bytes : List ℕ)
        → read_end s line g seq bytes ≡ Some r → IsEndRecord s r }
    ensures whose { (s : Shape) (line g seq : ℕ) (r : EndRecord) (bytes : List ℕ)
        → read_end s line g seq bytes ≡ Some r → (r.line ≡ line) × (r.width ≡ g) × (r.seq ≡ seq) }
{}

/// The spelling of an end record is as long as its blocks, and is made of bytes.
pub fn end_spelling_fills_its_blocks()
    ensures size { (s : Shape) (r : EndRecord) → IsAccepted s → IsEndRecord s r
        → length (end_bytes s r) ≡ end_len s r.width * s.sector }
    ensures bytes { (s : Shape) (r : EndRecord) → AllByRecursion (λ x. x < 256) (end_bytes s r) }
{}

/// A line has the end record that the blocks at its end spell.
pub fn written_end_is_found()
    ensures { (i : Image) (line : ℕ) (start : StartRecord) (r : EndRecord) (blocks : List Block)
        → IsEndOf i line start r → AreEnd i line r blocks → end_of i line start ≡ Some r }
{}

/// The blocks at a line's end spell the end record that the line has.
pub fn found_end_is_written()
    ensures { (i : Image) (line : ℕ) (start : StartRecord) (r : EndRecord)
        → end_of i line start ≡ Some r
        → IsEndOf i line start r × (blocks : List Block) × AreEnd i line r blocks }
{}
