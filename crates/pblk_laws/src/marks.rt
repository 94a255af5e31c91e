//! What marks name.

ghost use Rattle.std.specs.Prelude.{◌≡◌, ◌<◌, ◌↔◌, ℕ, Some, None};
ghost use Rattle.pblk_model.specs.declared.chunk.Mark.{Mark};
ghost use Rattle.pblk_model.specs.declared.shape.Shape.{Shape};
ghost use Rattle.pblk_model.specs.Accepted.{IsAccepted};
ghost use Rattle.pblk_model.specs.Chunk.{Block};
ghost use Rattle.pblk_model.specs.Marks.{void_lba, sector_mark, void_mark, pad_mark, meta_mark};
ghost use Rattle.pblk_model.specs.Records.{named, bears};

/// On an accepted shape a mark names a sector exactly where its address is that sector's and below
/// the capacity, and a position without a sector exactly where its address is that of Void. Pad and
/// Meta name none.
pub fn marks_name_sectors()
    ensures sector { (s : Shape) (m : Mark) (lba : ℕ)
        → (named s m ≡ Some (Some lba)) ↔ ((m.lba ≡ lba) × (lba < s.capacity)) }
    ensures void { (s : Shape) (m : Mark) → IsAccepted s → (named s m ≡ Some None)
        ↔ (m.lba ≡ void_lba) }
    ensures pad { (s : Shape) → IsAccepted s → named s pad_mark ≡ None }
    ensures meta { (s : Shape) (seq : ℕ) → IsAccepted s → named s (meta_mark seq) ≡ None }
{}

/// A block with a sector's mark bears that sector at the mark's position, one with a Void mark
/// bears its position alone, and one with a Pad or Meta mark bears nothing.
pub fn marks_bear_records()
    ensures sector { (s : Shape) (line seq a : ℕ) (block : Block) (lba p : ℕ) → lba < s.capacity
        → bears s line seq a block (sector_mark lba p)
        ≡ Some (record {
          line = line;
          seq = seq;
          at = a;
          position = p;
          lba = Some lba;
          sector = block.sector;
        }) }
    ensures void { (s : Shape) (line seq a : ℕ) (block : Block) (p : ℕ) → IsAccepted s
        → bears s line seq a block (void_mark p)
        ≡ Some (record {
          line = line;
          seq = seq;
          at = a;
          position = p;
          lba = None;
          sector = block.sector;
        }) }
    ensures pad { (s : Shape) (line seq a : ℕ) (block : Block) → IsAccepted s
        → bears s line seq a block pad_mark ≡ None }
    ensures meta { (s : Shape) (line seq a : ℕ) (block : Block) (of_seq : ℕ) → IsAccepted s
        → bears s line seq a block (meta_mark of_seq) ≡ None }
{}
