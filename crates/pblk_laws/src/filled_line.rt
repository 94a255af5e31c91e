//! What an image holds whose line 0 is filled from its front.

ghost use Rattle.std.specs.Prelude.{◌≡◌, ◌+◌, ◌-◌, ◌*◌, ◌<◌, ◌≤◌, ℕ, List, [], ◌∷◌, None, length, replicate};
ghost use Rattle.pblk_model.specs.Bytes.{zeros};
ghost use Rattle.pblk_model.specs.Accepted.{IsAccepted};
ghost use Rattle.pblk_model.specs.LineOrder.{end_len};
ghost use Rattle.pblk_model.specs.Image.{Image, IsFit, width, block_at};
ghost use Rattle.pblk_model.specs.StartRecord.{StartRecord, start_of};
ghost use Rattle.pblk_model.specs.EndRecord.{end_of};
ghost use Rattle.pblk_model.specs.Contents.{end, contents};
ghost use Rattle.pblk_model.specs.History.{SectorWrite, after};
ghost use Rattle.pblk_laws.specs.FilledLine.{IsFilledLine};

/// An image whose line 0 is filled from its front with the sectors of a history holds what that
/// history leaves of zeros, and its end is the history's length.
pub fn filled_contents()
    ensures contents { (i : Image) (start : StartRecord) (writes : List SectorWrite)
        → IsFilledLine i start writes
        → contents i ≡ after (replicate i.shape.capacity (zeros i.shape.sector)) writes }
    ensures end { (i : Image) (start : StartRecord) (writes : List SectorWrite)
        → IsFilledLine i start writes → end i ≡ length writes }
{}

/// Some image of an accepted shape is filled with a sector. So the laws on filled images speak of
/// something.
pub fn a_line_is_filled()
    ensures { (i : Image) × (start : StartRecord) × (write : SectorWrite) × IsAccepted i.shape
        × IsFit i × IsFilledLine i start (write ∷ []) }
{}

/// A line has no end record where a block of its end isn't written.
pub fn no_end_record()
    ensures { (i : Image) (line : ℕ) (start : StartRecord) (a : ℕ)
        → width i line * i.shape.clba - end_len i.shape (width i line) ≤ a
        → a < (width i line * i.shape.clba - end_len i.shape (width i line))
        + end_len i.shape (width i line)
        → block_at i line a ≡ None → end_of i line start ≡ None }
{}
