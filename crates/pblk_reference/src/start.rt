//! Start records.

ghost use Rattle.std.specs.Prelude.{◌≡◌, ◌+◌, ◌<◌, ◌^◌, ◌++◌, ◌&&◌, ◌==◌, nat_lt, nat_le, not, length, OnOk, IfOk, IfSome, vec_len};
ghost use Rattle.std.specs.Bool.{OnTrue};
ghost use Rattle.std.specs.List.{flat_map};
ghost use Rattle.std.specs.Option.{option_map};
ghost use Rattle.pblk_model.specs.Accepted.{IsAccepted};
ghost use Rattle.pblk_model.specs.LineOrder.{start_len};
ghost use Rattle.pblk_model.specs.StartRecord.{start_bytes, rows_fit, start_fits, rows_in, start_in, read_start, written_run, have_meta, marked_start, start_of};
ghost use Rattle.pblk_reference.specs.Ready.{IsOfAcceptedShape};
ghost use Rattle.pblk_reference.specs.Words.{row_words};
ghost use Rattle.pblk_reference.specs.Reading.{start_fields, start_read};

use crate::bytes::{after, byte_len, front_words, pad, put_u32s, put_u64s, same, u32_at, u64_at};
use crate::image::{Block, Image};
use crate::order::{block_at, start_len, width};
use pblk_model::{Mark, NUMBER_LIMIT, Shape};
use std::alloc::{AllocError, Global};
use std::marker::Model;

/// A line of an older mount: its sequence number, and the position below which its records count.
/// Contracts see the model's `Row`.
#[derive(Debug, Drop)]
pub struct Row {
    pub line: u32,
    pub seq: u64,
    pub bound: u64,
}

impl Model for Row {
    ghost use Rattle.pblk_model.specs.StartRecord.{Row as OlderLine};

    ghost Value = { OlderLine };

    ghost view = { λ a. record { line = a.line; seq = a.seq; bound = a.bound } };
}

/// The start record of a line. Contracts see the model's `StartRecord`.
#[derive(Debug, Drop)]
pub struct StartRecord {
    pub line: u32,
    pub width: u32,
    pub seq: u64,
    /// The first sequence number of the mount.
    pub first_seq: u64,
    /// Below this position all had landed when the record was made.
    pub front: u64,
    pub capacity: u64,
    pub rows: Vec<Row>,
}

impl Model for StartRecord {
    ghost use Rattle.pblk_model.specs.StartRecord.{StartRecord as Start};

    ghost Value = { Start };

    ghost view = { λ a. record {
      line = a.line;
      width = a.width;
      seq = a.seq;
      first_seq = a.first_seq;
      front = a.front;
      capacity = a.capacity;
      rows = a.rows.items;
    } };
}

fn put_row(out: &mut Vec<u8>, row: &Row) -> Result<(), AllocError>
    ensures { OnOk result (out.new.items ≡ out.old.items ++ row_words row.now) }
{
    put_u32s(out, &[row.line, 0])?;
    put_u64s(out, &[row.seq, row.bound])
}

fn put_rows(out: &mut Vec<u8>, rows: &[Row]) -> Result<(), AllocError>
    ensures { OnOk result (out.new.items ≡ out.old.items ++ flat_map row_words rows.now) }
{
    for row in rows {
        put_row(out, row)?;
    }
    Ok(())
}

/// The record's one spelling, in the blocks of a line's front.
pub fn start_bytes(alloc: Global, shape: &Shape, start: &StartRecord) -> Result<Vec<u8>, AllocError>
    requires accepted { IsAccepted shape.now }
    requires rows { length start.now.rows < 2 ^ 32 }
    ensures { IfOk result (λ v. v.items ≡ start_bytes shape.now start.now) }
{
    let long = [start.seq, start.first_seq, start.front, start.capacity];
    let short = [start.rows.len() as u32, 0, 0, 0];
    let mut out = front_words(alloc, 1, start.line, start.width, &long, &short)?;
    put_rows(&mut out, &start.rows)?;
    pad(alloc, &mut out, byte_len(start_len(shape), shape.sector))?;
    Ok(out)
}

fn rows_in(alloc: Global, count: u32, bytes: &[u8]) -> Result<Vec<Row>, AllocError>
    ensures rows { IfOk result (λ v. v.items ≡ rows_in count bytes.now) }
    ensures len { IfOk result (λ v. vec_len v ≡ count) }
{
    let mut rows = Vec::new(alloc);
    let mut rest = bytes;
    for _ in 0..count {
        let line = u32_at(rest, 0);
        let seq = u64_at(rest, 8);
        let bound = u64_at(rest, 16);
        rows.push(Row { line, seq, bound })?;
        rest = after(rest, 24);
    }
    Ok(rows)
}

fn row_fits(shape: &Shape, start: &StartRecord, least: u32, row: &Row) -> bool
    ensures fits { result ≡ (nat_le least row.now.line && nat_lt row.now.line shape.now.chunks
        && not (row.now.line == start.now.line) && nat_le 1 row.now.seq
        && nat_lt row.now.seq start.now.first_seq && nat_le row.now.bound start.now.front) }
    ensures below { OnTrue result (row.now.line + 1 < 2 ^ 32) }
{
    least <= row.line
        && row.line < shape.chunks
        && row.line != start.line
        && 1 <= row.seq
        && row.seq < start.first_seq
        && row.bound <= start.front
}

fn rows_fit(shape: &Shape, start: &StartRecord, rows: &[Row]) -> bool
    ensures { result ≡ rows_fit shape.now start.now 0 rows.now }
{
    let mut least = 0;
    for row in rows {
        if !row_fits(shape, start, least, row) {
            return false;
        }
        least = row.line + 1;
    }
    true
}

fn numbers_fit(shape: &Shape, line: u32, width: u32, start: &StartRecord) -> bool
    ensures fits { result ≡ ((start.now.line == line) && (start.now.width == width)
        && (start.now.capacity == shape.now.capacity) && nat_le 1 start.now.first_seq
        && nat_le start.now.first_seq start.now.seq && nat_lt start.now.seq (2 ^ 61)
        && nat_lt start.now.front (2 ^ 61)) }
    ensures low { OnTrue result (start.now.front < 2 ^ 61) }
{
    start.line == line
        && start.width == width
        && start.capacity == shape.capacity
        && 1 <= start.first_seq
        && start.first_seq <= start.seq
        && start.seq < NUMBER_LIMIT
        && start.front < NUMBER_LIMIT
}

fn start_fits(shape: &Shape, line: u32, width: u32, start: &StartRecord) -> bool
    requires { 0 < shape.now.chunks }
    ensures fits { result ≡ start_fits shape.now line width start.now }
    ensures low { OnTrue result (start.now.front < 2 ^ 61) }
{
    numbers_fit(shape, line, width, start)
        && start.rows.len() <= (shape.chunks - 1) as usize
        && rows_fit(shape, start, &start.rows)
}

#[tactic(auto, unfolding(crate::specs::Reading::start_fields))]
fn start_fields(alloc: Global, bytes: &[u8]) -> Result<StartRecord, AllocError>
    ensures fields { IfOk result (λ r. r ≡ start_fields bytes.now) }
    ensures few { IfOk result (λ r. length r.rows < 2 ^ 32) }
{
    let line = u32_at(bytes, 8);
    let width = u32_at(bytes, 12);
    let seq = u64_at(bytes, 16);
    let first_seq = u64_at(bytes, 24);
    let front = u64_at(bytes, 32);
    let capacity = u64_at(bytes, 40);
    let rows = rows_in(alloc, u32_at(bytes, 48), after(bytes, 64))?;
    Ok(StartRecord {
        line,
        width,
        seq,
        first_seq,
        front,
        capacity,
        rows,
    })
}

fn read_start(
    alloc: Global,
    shape: &Shape,
    line: u32,
    width: u32,
    bytes: &[u8],
) -> Result<Option<StartRecord>, AllocError>
    requires { IsAccepted shape.now }
    ensures read { IfOk result (λ o. o ≡ start_read shape.now line width bytes.now) }
    ensures low { IfOk result (λ o. IfSome o (λ r. r.front < 2 ^ 61)) }
{
    if u32_at(bytes, 48) > shape.chunks - 1 {
        return Ok(None);
    }
    let start = start_fields(alloc, bytes)?;
    if !start_fits(shape, line, width, &start) {
        return Ok(None);
    }
    let spelling = start_bytes(alloc, shape, &start)?;
    if !same(&spelling, bytes) {
        return Ok(None);
    }
    Ok(Some(start))
}

/// The blocks at `n` line addresses from `at` on, where all of them are written.
pub fn written_run(
    alloc: Global,
    image: &Image,
    line: u32,
    at: u32,
    n: u32,
) -> Result<Option<Vec<Block>>, AllocError>
    requires ready { IsOfAcceptedShape image.now }
    requires room { at + n < 2 ^ 32 }
    ensures { IfOk result (λ o. option_map (λ v. v.items) o ≡ written_run image.now line at n) }
{
    let mut found = Vec::new(alloc);
    for k in 0..n {
        match block_at(image, line, at + k) {
            None => return Ok(None),
            Some(block) => found.push(block.copied(alloc)?)?,
        }
    }
    Ok(Some(found))
}

/// Whether blocks have the mark of a record of this sequence number.
pub fn have_meta(seq: u64, blocks: &[Block]) -> bool
    ensures { result ≡ have_meta seq blocks.now }
{
    for block in blocks {
        if block.mark.lba != Mark::META_LBA || block.mark.position != seq {
            return false;
        }
    }
    true
}

/// The bytes of blocks, one after the other.
pub fn bytes_of(alloc: Global, blocks: &[Block]) -> Result<Vec<u8>, AllocError>
    ensures { IfOk result (λ v. v.items ≡ flat_map (λ b. b.sector) blocks.now) }
{
    let mut bytes = Vec::new(alloc);
    for block in blocks {
        bytes.extend_from_slice(&block.sector)?;
    }
    Ok(bytes)
}

fn marked_start(blocks: &[Block], start: Option<StartRecord>) -> Option<StartRecord>
    ensures marked { result ≡ marked_start blocks.now start }
    ensures low { IfSome start (λ r. r.front < 2 ^ 61) → IfSome result (λ r. r.front < 2 ^ 61) }
{
    let start = start?;
    if have_meta(start.seq, blocks) {
        Some(start)
    } else {
        None
    }
}

/// The start record of a line, where it is whole. Its front is below 2^61.
pub fn start_of(alloc: Global, image: &Image, line: u32) -> Result<Option<StartRecord>, AllocError>
    requires { IsOfAcceptedShape image.now }
    ensures whole { IfOk result (λ o. o ≡ start_of image.now line) }
    ensures low { IfOk result (λ o. IfSome o (λ r. r.front < 2 ^ 61)) }
{
    let Some(found) = written_run(alloc, image, line, 0, start_len(&image.shape))? else {
        return Ok(None);
    };
    let bytes = bytes_of(alloc, &found)?;
    let start = read_start(alloc, &image.shape, line, width(image, line), &bytes)?;
    Ok(marked_start(&found, start))
}
