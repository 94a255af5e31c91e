//! End records.

ghost use Rattle.std.specs.Prelude.{◌≡◌, ◌+◌, ◌*◌, ◌<◌, ◌≤◌, ◌^◌, length, take, Some, IfOk, IfSome};
ghost use Rattle.std.specs.List.{AllByRecursion};
ghost use Rattle.std.specs.Option.{option_map};
ghost use Rattle.std.specs.Str.{bytes_eq};
ghost use Rattle.pblk_model.specs.declared.shape.Shape.{Shape};
ghost use Rattle.pblk_model.specs.Accepted.{IsAccepted};
ghost use Rattle.pblk_model.specs.Shape.{units};
ghost use Rattle.pblk_model.specs.LineOrder.{end_len, data_len};
ghost use Rattle.pblk_model.specs.EndRecord.{EndRecord as End, end_bytes, read_end};
ghost use Rattle.pblk_laws.specs.EndBlocks.{FitsBytes, IsEndRecord};
ghost use Rattle.pblk_meta.specs.declared.end_record.EndRecord.{EndRecord};
ghost use Rattle.pblk_meta.specs.Headers.{end_header, end_read};
ghost use Rattle.pblk_meta.specs.Records.{end_numbers};

use crate::bytes::{
    MAGIC, VERSION, after, are_same, are_zeros, put_u16, put_u32, put_u64, put_zeros,
};
use crate::pairs::{Pairs, put_pairs, read_pairs};
use pblk_laws::{end_read_is_spelled, end_spelled_is_read, end_spelling_fills_its_blocks};
use pblk_layout::Layout;
use pblk_model::{Mark, a_line_is_short, end_len_is_least};
use std::alloc::{AllocError, Global};

/// The kind of an end record.
const KIND: u16 = 2;

/// The end record of a full line: the marks of its data (a format of this project).
///
/// In bytes it is a header of 32 bytes, 16 bytes for each mark, and zeros up to the end of its blocks. All
/// numbers are little-endian. The header: magic `0x70626c6b` (4 bytes), version 1 (2), kind 2 (2), line (4),
/// width (4), seq (8), the number of marks (4), zeros (4). A mark: lba (8), position (8).
#[derive(Debug, Drop)]
pub struct EndRecord {
    /// The line's number, from 0.
    pub line: u32,
    /// How many of the line's chunks weren't Offline.
    pub width: u32,
    /// The line's sequence number.
    pub seq: u64,
    /// The marks of the line's data, in line order: one for each data block.
    pub pairs: Pairs,
}

impl EndRecord {
    /// The end record that bytes spell for a line of this number, width and sequence number, if they spell
    /// one.
    ///
    /// The width is at most the number of units. `None` exactly where the bytes aren't the one spelling of an
    /// end record of the line: they are as many as the record's blocks have; magic, version and kind are as
    /// they should be; `line`, `width` and `seq` are the line's; the number of marks is the number of the
    /// line's data blocks; and all other bytes are 0. The marks may be any numbers. An error only for want of
    /// memory.
    pub fn read(
        alloc: Global,
        bytes: &[u8],
        layout: &Layout,
        line: u32,
        width: u32,
        seq: u64,
    ) -> Result<Option<EndRecord>, AllocError>
        requires { width ≤ units layout.now }
        ensures read { IfOk result (λ o.
            option_map end_numbers o ≡ read_end layout.now line width seq bytes.now) }
        ensures spelled { IfOk result (λ o. IfSome o (λ r.
            bytes.now ≡ end_bytes layout.now (end_numbers r))) }
        ensures fits { IfOk result (λ o. IfSome o (λ r. IsEndRecord layout.now (end_numbers r))) }
        ensures whose { IfOk result (λ o. IfSome o (λ r.
            (r.line ≡ line) × (r.width ≡ width) × (r.seq ≡ seq))) }
        ensures only { (r : End) → IsEndRecord layout.now r → r.line ≡ line → r.width ≡ width
            → r.seq ≡ seq
            → bytes.now ≡ end_bytes layout.now r
            → IfOk result (λ o. option_map end_numbers o ≡ Some r) }
    {
        end_read_is_spelled();
        end_spelled_is_read();
        read_record(alloc, bytes, layout, line, width, seq)
    }

    /// Writes the record's one spelling to `out`, and zeros behind it.
    ///
    /// `out` has room for it: 32 bytes and 16 for each mark, as it has where it is as long as the record's
    /// blocks and there is a mark for each of the line's data blocks. `read` then gives the record back.
    pub fn write(&self, out: &mut [u8])
        requires room { 32 + 16 * length self.now.pairs ≤ length out.old }
        requires few { length self.now.pairs < 2 ^ 32 }
        ensures spelling { (s : Shape) → length out.old ≡ end_len s self.now.width * s.sector
            → out.new ≡ end_bytes s (end_numbers self.now) }
        ensures again { (s : Shape) → length self.now.pairs ≡ data_len s self.now.width
            → length out.old ≡ end_len s self.now.width * s.sector
            → read_end s self.now.line self.now.width self.now.seq out.new
            ≡ Some (end_numbers self.now) }
    {
        end_spelled_is_read();
        write_end(out, self.line, self.width, self.seq, self.pairs.as_slice());
    }
}

/// Writes the spelling of the end record of these numbers and marks to `out`, and zeros behind it, as
/// `EndRecord::write` does for a record.
///
/// `out` has room for it: 32 bytes and 16 for each mark.
pub fn write_end(out: &mut [u8], line: u32, width: u32, seq: u64, marks: &[Mark])
    requires room { 32 + 16 * length marks.now ≤ length out.old }
    requires few { length marks.now < 2 ^ 32 }
    ensures spelling { (s : Shape) → length out.old ≡ end_len s width * s.sector
        → out.new
        ≡ end_bytes s (record { line = line; width = width; seq = seq; pairs = marks.now }) }
    ensures fit { AllByRecursion FitsBytes marks.now }
    ensures len { length out.new ≡ length out.old }
{
    write_header(out, line, width, seq, marks.len() as u32);
    let end = put_pairs(out, 32, marks);
    put_zeros(out, end, out.len());
}

/// An end record with a mark for each data block of its line has room in as many bytes as its blocks have,
/// which is what `write` asks for.
pub fn an_end_record_has_room()
    ensures room { (s : Shape) (r : EndRecord) → IsAccepted s → length r.pairs ≡ data_len s r.width
        → 32 + 16 * length r.pairs ≤ end_len s r.width * s.sector }
    ensures few { (s : Shape) (r : EndRecord) → IsAccepted s → r.width ≤ units s
        → length r.pairs ≡ data_len s r.width → length r.pairs < 2 ^ 32 }
{
    end_len_is_least();
    a_line_is_short();
}

// Writes a header's spelling to the first 32 bytes.
#[tactic(auto, unfolding(crate::specs::Headers::end_header))]
fn write_header(out: &mut [u8], line: u32, width: u32, seq: u64, count: u32)
    requires { 32 ≤ length out.old }
    ensures placed { take 32 out.new ≡ end_header line width seq count }
    ensures len { length out.new ≡ length out.old }
{
    put_u32(out, 0, MAGIC);
    put_u16(out, 4, VERSION);
    put_u16(out, 6, KIND);
    put_u32(out, 8, line);
    put_u32(out, 12, width);
    put_u64(out, 16, seq);
    put_u32(out, 24, count);
    put_zeros(out, 28, 32);
}

// Whether the first 32 bytes are a header's spelling.
fn has_header(bytes: &[u8], line: u32, width: u32, seq: u64, count: u32) -> bool
    requires { 32 ≤ length bytes.now }
    ensures { result ≡ bytes_eq (end_header line width seq count) (take 32 bytes.now) }
{
    let mut spelling = [0; 32];
    write_header(&mut spelling, line, width, seq, count);
    are_same(&spelling, &bytes[..32])
}

// The end record that bytes spell for a line.
fn read_record(
    alloc: Global,
    bytes: &[u8],
    layout: &Layout,
    line: u32,
    width: u32,
    seq: u64,
) -> Result<Option<EndRecord>, AllocError>
    requires { width ≤ units layout.now }
    ensures read { IfOk result (λ o.
        option_map end_numbers o ≡ end_read layout.now line width seq bytes.now) }
    ensures accepted { IsAccepted layout.now }
{
    end_read_is_spelled();
    end_spelling_fills_its_blocks();
    end_len_is_least();
    a_line_is_short();
    let count = layout.data_len(width);
    if bytes.len() != layout.end_len(width) as usize * layout.shape().sector as usize {
        return Ok(None);
    }
    let end = 32 + 16 * count as usize;
    if !has_header(bytes, line, width, seq, count) || !are_zeros(after(bytes, end)) {
        return Ok(None);
    }
    let pairs = read_pairs(alloc, count, after(bytes, 32))?;
    Ok(Some(EndRecord {
        line,
        width,
        seq,
        pairs,
    }))
}
