//! Whether an image is tidy.

ghost use Rattle.std.specs.Prelude.{◌≡◌, ◌↔◌, ◌≤◌, ◌+◌, IsTrue, IfOk, Some, filter, length};
ghost use Rattle.std.specs.List.{range_with_len};
ghost use Rattle.std.specs.Int.{w32, w64};
ghost use Rattle.pblk_model.specs.Bytes.{number_at};
ghost use Rattle.pblk_model.specs.Chunk.{Block};
ghost use Rattle.pblk_model.specs.Image.{block_at};
ghost use Rattle.pblk_model.specs.ImageFile.{image_of};
ghost use Rattle.pblk_model.specs.Sealed.{BeginsNarrower};
ghost use Rattle.ocssd_drive.specs.Drive.{stored};
ghost use Rattle.pblk_world.specs.Tidy.{IsTidy, IsWholeChunk, has_free_chunks, is_free_state};
ghost use Rattle.image_check.specs.Tidying.{BeginsWell, BeginsWithin, HasMarks, IsClosedLine, IsSealedIn, IsTidyLine, IsWholeLine};

use crate::line::Line;
use ocssd_drive::{Chunk, ChunkState, Drive};
use pblk_model::Mark;
use std::alloc::{AllocError, Global};

/// The first eight bytes of a start record: its magic number, the version 1, and the kind 1.
const KIND: [u8; 8] = [0x6b, 0x6c, 0x62, 0x70, 1, 0, 1, 0];

/// Whether the image of a drive is tidy: it is sealed, no chunk is Offline, each Closed chunk is
/// full, and at least four lines have Free chunks alone.
pub(crate) fn is_tidy(alloc: Global, drive: &Drive) -> Result<bool, AllocError>
    ensures { IfOk result (λ tidy. IsTrue tidy ↔ IsTidy (image_of (stored drive.now))) }
{
    for number in 0..drive.shape().chunks {
        if !is_tidy_line(alloc, &Line::new(drive, number))? {
            return Ok(false);
        }
    }
    Ok(free_lines(drive) >= 4)
}

// Whether a line's chunks are whole, and it keeps what a sealed image keeps of each.
fn is_tidy_line(alloc: Global, line: &Line<'_>) -> Result<bool, AllocError>
    ensures { IfOk result (λ tidy. IsTrue tidy ↔ IsTidyLine line.now.image line.now.number) }
{
    if !is_whole(line) {
        return Ok(false);
    }
    is_sealed(alloc, line)
}

// How many lines have Free chunks alone.
fn free_lines(drive: &Drive) -> u32
    ensures { let i = image_of (stored drive.now)
        in result ≡ length (filter (has_free_chunks i) (range_with_len 0 i.shape.chunks)) }
{
    let mut count: u32 = 0;
    for number in 0..drive.shape().chunks {
        if is_free(&Line::new(drive, number)) {
            count += 1;
        }
    }
    count
}

// Whether no chunk of a line is Offline, and each Closed one is full.
fn is_whole(line: &Line<'_>) -> bool
    ensures { IsTrue result ↔ IsWholeLine line.now.image line.now.number }
{
    for unit in 0..line.units() {
        if !is_whole_chunk(line.chunk(unit), line.clba()) {
            return false;
        }
    }
    true
}

// Whether a chunk isn't Offline, and full where it is Closed.
fn is_whole_chunk(chunk: &Chunk, clba: u32) -> bool
    requires { clba ≡ chunk.now.shape.clba }
    ensures { IsTrue result ↔ IsWholeChunk chunk.now.shape chunk.now.chunk }
{
    let (state, pointer) = chunk.state();
    match state {
        ChunkState::Offline => false,
        ChunkState::Closed => pointer == clba,
        ChunkState::Free | ChunkState::Open => true,
    }
}

// Whether a line has Free chunks alone.
fn is_free(line: &Line<'_>) -> bool
    ensures { result ≡ has_free_chunks line.now.image line.now.number }
{
    for unit in 0..line.units() {
        let (state, _) = line.chunk(unit).state();
        if !is_free_state(state) {
            return false;
        }
    }
    true
}

// Whether a chunk in this state is Free.
fn is_free_state(state: ChunkState) -> bool
    ensures { result ≡ is_free_state state }
{
    matches!(state, ChunkState::Free)
}

// Whether a line keeps what a sealed image keeps of each.
fn is_sealed(alloc: Global, line: &Line<'_>) -> Result<bool, AllocError>
    ensures { IfOk result (λ sealed.
        IsTrue sealed ↔ IsSealedIn line.now.image line.now.number) }
{
    if !begins_well(line) {
        return Ok(false);
    }
    let Some(start) = line.start(alloc)? else {
        return Ok(true);
    };
    let Some(end) = line.end(alloc, start.seq)? else {
        return Ok(true);
    };
    if !is_closed(line) {
        return Ok(false);
    }
    Ok(has_marks(line, end.pairs.as_slice()))
}

// Whether no chunk of a line begins with a start record of a lesser width than the line's.
fn begins_well(line: &Line<'_>) -> bool
    ensures { IsTrue result ↔ BeginsWell line.now.image line.now.number }
{
    for unit in 0..line.units() {
        if begins_within(line.chunk(unit), line.width()) {
            return false;
        }
    }
    true
}

// Whether a chunk begins with a start record of a lesser width than this.
fn begins_within(chunk: &Chunk, width: u32) -> bool
    requires { 24 ≤ chunk.now.shape.sector }
    ensures { IsTrue result ↔ BeginsWithin width chunk.now.chunk }
{
    match chunk.written(0) {
        None => false,
        Some((sector, mark)) => is_narrower(sector, mark, width),
    }
}

// Whether a block has the mark and the header of a start record of a lesser width than this.
fn is_narrower(sector: &[u8], mark: Mark, width: u32) -> bool
    requires { 24 ≤ length sector.now }
    ensures { IsTrue result ↔ BeginsNarrower width (record { sector = sector.now; mark = mark }) }
{
    let narrow = u32_at(sector, 12);
    let seq = u64_at(sector, 16);
    mark.lba == Mark::META_LBA
        && sector[..8] == KIND[..]
        && seq == mark.position
        && 1 <= narrow
        && narrow < width
}

// The number of the four bytes from a place on.
fn u32_at(bytes: &[u8], at: usize) -> u32
    requires { at + 4 ≤ length bytes.now }
    ensures { result ≡ number_at w32 at bytes.now }
{
    let mut number = [0; 4];
    number.copy_from_slice(&bytes[at..at + 4]);
    u32::from_le_bytes(number)
}

// The number of the eight bytes from a place on.
fn u64_at(bytes: &[u8], at: usize) -> u64
    requires { at + 8 ≤ length bytes.now }
    ensures { result ≡ number_at w64 at bytes.now }
{
    let mut number = [0; 8];
    number.copy_from_slice(&bytes[at..at + 8]);
    u64::from_le_bytes(number)
}

// Whether no chunk of a line is Open.
fn is_closed(line: &Line<'_>) -> bool
    ensures { IsTrue result ↔ IsClosedLine line.now.image line.now.number }
{
    for unit in 0..line.units() {
        let (state, _) = line.chunk(unit).state();
        if is_open_state(state) {
            return false;
        }
    }
    true
}

// Whether a chunk in this state is Open.
fn is_open_state(state: ChunkState) -> bool
    ensures { IsTrue result ↔ (state ≡ ChunkState.Open) }
{
    matches!(state, ChunkState::Open)
}

// Whether each written data block of a line has its pair as its mark.
fn has_marks(line: &Line<'_>, pairs: &[Mark]) -> bool
    ensures { IsTrue result ↔ HasMarks line.now.image line.now.number pairs.now }
{
    let start = line.start_len() as usize;
    for data in 0..pairs.len() {
        let at = start + data;
        if at >= line.len() as usize {
            return true;
        }
        if !has_mark(line, at as u32, pairs[data]) {
            return false;
        }
    }
    true
}

// Whether the block at a line address, where it is written, has this mark.
fn has_mark(line: &Line<'_>, at: u32, mark: Mark) -> bool
    ensures { IsTrue result ↔ ((b : Block) → block_at line.now.image line.now.number at ≡ Some b
        → mark ≡ b.mark) }
{
    match line.block(at) {
        None => true,
        Some(block) => block.mark == mark,
    }
}
