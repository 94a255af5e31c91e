//! The functions by which recovery finds the end, the head and the winners, and the facts that say
//! what these are.

ghost use Rattle.std.specs.Prelude.{◌≡◌, ◌≢◌, ◌<◌, ◌↔◌, ℕ, List, Some, None};
ghost use Rattle.std.specs.List.{Contains};
ghost use Rattle.pblk_model.specs.Image.{Image};
ghost use Rattle.pblk_model.specs.StartRecord.{StartRecord, start_of};
ghost use Rattle.pblk_model.specs.Records.{Record, records};
ghost use Rattle.pblk_model.specs.Contents.{IsHead, IsEnd, IsWinner, head, end, counted, winner};

/// The end of an image with a head is the least position from the head's front on that no record
/// bears in a line of the head's mount. No other number is.
pub fn end_is_least()
    ensures is { (i : Image) (h : StartRecord) → head i ≡ Some h → IsEnd (records i) h (end i) }
    ensures only { (i : Image) (h : StartRecord) (p : ℕ) → head i ≡ Some h → IsEnd (records i) h p
        → p ≡ end i }
{}

/// The head is the start record of a line. No line has one of a greater sequence number, and no
/// lesser line has one of the same. No other start record is so. Without a head no line has a start
/// record.
pub fn head_is_greatest()
    ensures some { (i : Image) (h : StartRecord) → head i ≡ Some h → (line : ℕ) × IsHead i line h }
    ensures only { (i : Image) (line : ℕ) (h : StartRecord) → IsHead i line h → head i ≡ Some h }
    ensures none { (i : Image) (line : ℕ) → head i ≡ None → line < i.shape.chunks
        → start_of i line ≡ None }
{}

/// Of the records of an image that count, the winner of a sector is the record of it that is newer
/// than every other of it. Of any records no other one is so. There is no winner exactly where no
/// record is of the sector.
pub fn winner_is_newest()
    ensures is { (i : Image) (lba : ℕ) (r : Record) → winner (counted i) lba ≡ Some r
        → IsWinner (counted i) lba r }
    ensures only { (rs : List Record) (lba : ℕ) (r : Record) → IsWinner rs lba r
        → winner rs lba ≡ Some r }
    ensures none { (rs : List Record) (lba : ℕ) → (winner rs lba ≡ None)
        ↔ ((r : Record) → Contains rs r → r.lba ≢ Some lba) }
{}

/// A block bears at most one record: two records of an image at one address of one line are one.
pub fn a_block_bears_one_record()
    ensures { (i : Image) (a b : Record) → Contains (records i) a → Contains (records i) b
        → a.line ≡ b.line → a.at ≡ b.at → a ≡ b }
{}
