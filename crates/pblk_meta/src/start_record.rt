//! Start records.

ghost use Rattle.std.specs.Prelude.{◌≡◌, ◌+◌, ◌*◌, ◌<◌, ◌≤◌, ◌^◌, ◌++◌, ℕ, length, map, take, Some, IsTrue, IfOk, IfSome};
ghost use Rattle.std.specs.List.{flat_map};
ghost use Rattle.std.specs.Option.{option_map};
ghost use Rattle.pblk_model.specs.declared.shape.Shape.{Shape};
ghost use Rattle.pblk_model.specs.Accepted.{IsAccepted};
ghost use Rattle.pblk_model.specs.Shape.{units};
ghost use Rattle.pblk_model.specs.LineOrder.{start_len};
ghost use Rattle.pblk_model.specs.StartRecord.{StartRecord as Start, row_bytes, start_bytes, start_fits, read_start};
ghost use Rattle.pblk_meta.specs.declared.start_record.StartRecord.{StartRecord};
ghost use Rattle.pblk_meta.specs.Headers.{header_of, rows_read, start_read};
ghost use Rattle.pblk_meta.specs.Records.{row_numbers, start_numbers};

use crate::bytes::{after, are_zeros, put_zeros};
use crate::rows::{Row, Rows};
use crate::start_header::StartHeader;
use pblk_laws::{read_is_spelled, spelled_is_read, spelling_fills_its_blocks};
use pblk_layout::Layout;
use pblk_model::{Shape, start_len_is_least};
use std::alloc::{AllocError, Global};

/// The start record of a line: which line it is, how wide, its sequence number, and what the mount that
/// wrote it knew of older lines (a format of this project).
///
/// In bytes it is a header of 64 bytes, 24 bytes for each row, and zeros up to the end of its blocks. All
/// numbers are little-endian. The header: magic `0x70626c6b` (4 bytes), version 1 (2), kind 1 (2), line (4),
/// width (4), seq (8), first_seq (8), front (8), capacity (8), the number of rows (4), zeros (12). A row:
/// line (4), zeros (4), seq (8), bound (8).
#[derive(Debug, Drop)]
pub struct StartRecord {
    /// The line's number, from 0.
    pub line: u32,
    /// How many of the line's chunks weren't Offline.
    pub width: u32,
    /// The line's sequence number, from `first_seq` to below 2^61.
    pub seq: u64,
    /// The first sequence number of the mount, at least 1.
    pub first_seq: u64,
    /// The synced front when the record was made: all positions below it had landed. It is below 2^61.
    pub front: u64,
    /// The number of user sectors.
    pub capacity: u64,
    /// The lines of older mounts, with rising numbers.
    pub rows: Rows,
}

impl StartRecord {
    /// The start record that bytes spell for a line of this number and width, if they spell one.
    ///
    /// The line is below the number of lines, and the width at most the number of units. `None` exactly where
    /// the bytes aren't the one spelling of a start record that fits them: they are as many as the record's
    /// blocks have; magic, version and kind are as they should be; `line`, `width` and `capacity` are the
    /// line's and the shape's; `1 <= first_seq <= seq < 2^61` and `front < 2^61`; there are fewer rows than
    /// lines, their lines rise, are lines and aren't this one, each row's seq is from 1 to below `first_seq`
    /// and its bound at most `front`; and all other bytes are 0. An error only for want of memory, which is
    /// taken for no more rows than there are lines.
    pub fn read(
        alloc: Global,
        bytes: &[u8],
        layout: &Layout,
        line: u32,
        width: u32,
    ) -> Result<Option<StartRecord>, AllocError>
        requires line { line < layout.now.chunks }
        requires width { width ≤ units layout.now }
        ensures read { IfOk result (λ o.
            option_map start_numbers o ≡ read_start layout.now line width bytes.now) }
        ensures spelled { IfOk result (λ o. IfSome o (λ r.
            bytes.now ≡ start_bytes layout.now (start_numbers r))) }
        ensures fits { IfOk result (λ o. IfSome o (λ r.
            IsTrue (start_fits layout.now line width (start_numbers r)))) }
        ensures only { (r : Start) → IsTrue (start_fits layout.now line width r)
            → bytes.now ≡ start_bytes layout.now r
            → IfOk result (λ o. option_map start_numbers o ≡ Some r) }
    {
        read_is_spelled();
        spelled_is_read();
        read_record(alloc, bytes, layout, line, width)
    }

    /// Writes the record's one spelling to `out`, and zeros behind it.
    ///
    /// `out` has room for it: 64 bytes and 24 for each row, as it has where it is as long as the record's
    /// blocks and `read` gave the record, or its numbers fit a line. Where `out` is as long as those blocks,
    /// `read` gives the record back.
    pub fn write(&self, out: &mut [u8])
        requires room { 64 + 24 * length self.now.rows ≤ length out.old }
        requires few { length self.now.rows < 2 ^ 32 }
        ensures spelling { (s : Shape) → length out.old ≡ start_len s * s.sector
            → out.new ≡ start_bytes s (start_numbers self.now) }
        ensures again { (s : Shape) (line width : ℕ) → IsAccepted s → line < s.chunks
            → width < 2 ^ 32
            → IsTrue (start_fits s line width (start_numbers self.now))
            → length out.old ≡ start_len s * s.sector
            → read_start s line width out.new ≡ Some (start_numbers self.now) }
    {
        spelled_is_read();
        let rows = self.rows.as_slice();
        self.header(rows.len() as u32).write(out);
        let end = put_rows(out, 64, rows);
        put_zeros(out, end, out.len());
    }
}

/// A start record that fits a line has room in as many bytes as its blocks have, which is what `write` asks
/// for.
pub fn a_start_record_has_room()
    ensures room { (s : Shape) (line width : ℕ) (r : StartRecord) → IsAccepted s
        → IsTrue (start_fits s line width (start_numbers r))
        → 64 + 24 * length r.rows ≤ start_len s * s.sector }
    ensures few { (s : Shape) (line width : ℕ) (r : StartRecord) → IsAccepted s
        → IsTrue (start_fits s line width (start_numbers r)) → length r.rows < 2 ^ 32 }
{
    start_len_is_least();
}

impl StartRecord {
    // The numbers of its header, which says that so many rows follow.
    fn header(&self, rows: u32) -> StartHeader
        ensures { result ≡ header_of self.now rows }
    {
        StartHeader {
            line: self.line,
            width: self.width,
            seq: self.seq,
            first_seq: self.first_seq,
            front: self.front,
            capacity: self.capacity,
            rows,
        }
    }
}

// The start record that bytes spell for a line.
fn read_record(
    alloc: Global,
    bytes: &[u8],
    layout: &Layout,
    line: u32,
    width: u32,
) -> Result<Option<StartRecord>, AllocError>
    ensures read { IfOk result (λ o.
        option_map start_numbers o ≡ start_read layout.now line width bytes.now) }
    ensures accepted { IsAccepted layout.now }
{
    spelling_fills_its_blocks();
    start_len_is_least();
    let shape = layout.shape();
    if bytes.len() != layout.start_len() as usize * shape.sector as usize {
        return Ok(None);
    }
    let header = StartHeader::in_bytes(bytes);
    if !header.fits(shape, line, width) || !header.is_spelled(bytes) {
        return Ok(None);
    }
    let end = 64 + 24 * header.rows as usize;
    if !are_zeros(after(bytes, end)) {
        return Ok(None);
    }
    let Some(rows) = read_rows(alloc, shape, &header, after(bytes, 64))? else {
        return Ok(None);
    };
    Ok(Some(StartRecord {
        line: header.line,
        width: header.width,
        seq: header.seq,
        first_seq: header.first_seq,
        front: header.front,
        capacity: header.capacity,
        rows,
    }))
}

// The rows that bytes spell behind this header, if they fit it.
fn read_rows(
    alloc: Global,
    shape: &Shape,
    header: &StartHeader,
    bytes: &[u8],
) -> Result<Option<Rows>, AllocError>
    requires accepted { IsAccepted shape.now }
    requires size { 24 * header.now.rows ≤ length bytes.now }
    ensures { IfOk result (λ o.
        option_map (map row_numbers) o ≡ rows_read shape.now header.now header.now.rows bytes.now) }
{
    let mut rows = Rows::new(alloc);
    let mut rest = bytes;
    let mut least = 0;
    for _ in 0..header.rows {
        let row = Row::in_bytes(rest);
        if !Row::is_spelled(rest) || !header.row_fits(shape, least, &row) {
            return Ok(None);
        }
        rows.push(row)?;
        rest = after(rest, 24);
        least = row.line + 1;
    }
    Ok(Some(rows))
}

// Writes the rows' spellings from a place on, and gives the place behind them.
fn put_rows(out: &mut [u8], at: usize, rows: &[Row]) -> usize
    requires { at + 24 * length rows.now ≤ length out.old }
    ensures placed { take result out.new
        ≡ take at out.old ++ flat_map row_bytes (map row_numbers rows.now) }
    ensures end { result ≡ at + 24 * length rows.now }
    ensures len { length out.new ≡ length out.old }
{
    let mut place = at;
    for row in rows {
        row.write(out, place);
        place += 24;
    }
    place
}
