//! What a blank image holds.

ghost use Rattle.std.specs.Prelude.{◌≡◌, ℕ, List, [], None, replicate};
ghost use Rattle.pblk_model.specs.declared.shape.Shape.{Shape};
ghost use Rattle.pblk_model.specs.Accepted.{IsAccepted};
ghost use Rattle.pblk_model.specs.Bytes.{zeros};
ghost use Rattle.pblk_model.specs.Image.{IsFit, blank, block_at};
ghost use Rattle.pblk_model.specs.StartRecord.{start_of};
ghost use Rattle.pblk_model.specs.Records.{records};
ghost use Rattle.pblk_model.specs.Contents.{head, end, contents};

/// A blank image is that of a drive of its shape.
pub fn blank_is_fit()
    ensures { (s : Shape) → IsFit (blank s) }
{}

/// No block of a blank image is written.
pub fn blank_has_no_block()
    ensures { (s : Shape) (line a : ℕ) → block_at (blank s) line a ≡ None }
{}

/// No line of a blank image has a start record, and the image has no record, no head and the end 0.
pub fn blank_has_no_record()
    ensures starts { (s : Shape) (line : ℕ) → IsAccepted s → start_of (blank s) line ≡ None }
    ensures records { (s : Shape) → IsAccepted s → records (blank s) ≡ [] }
    ensures head { (s : Shape) → IsAccepted s → head (blank s) ≡ None }
    ensures end { (s : Shape) → IsAccepted s → end (blank s) ≡ 0 }
{}

/// A blank image's user sectors are zeros.
pub fn blank_holds_zeros()
    ensures { (s : Shape) → IsAccepted s
        → contents (blank s) ≡ replicate s.capacity (zeros s.sector) }
{}
