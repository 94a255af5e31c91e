//! Images of the small drive, written step by step.

ghost use Rattle.std.specs.Prelude.{◌≡◌};
ghost use Rattle.pblk_model.specs.Accepted.{IsAccepted};
ghost use Rattle.pblk_model.specs.Shape.{units};

use pblk_model::{ChunkState, Mark, Shape};
use pblk_reference::{Block, Chunk, EndRecord, Row, StartRecord, end_bytes, start_bytes};
use std::alloc::{AllocError, Global};

/// The shape of the small drive: two units of eight chunks of 24 blocks. A line of both units has 4
/// blocks of start record, 40 of data and 4 of end record.
pub fn small() -> Shape
    ensures accepted { IsAccepted result }
    ensures two { units result ≡ 2 }
{
    Shape::small()
}

// The tag of a sector of which the bytes don't matter.
const PLAIN: u64 = 7;

/// The chunks of an image, by unit and then by line.
pub type Units = Vec<Vec<Chunk>>;

/// What is done to an image.
#[derive(Clone, Copy)]
pub enum Step {
    /// The start record of a line of the first mount, with the front 0: the line and its sequence
    /// number.
    First(u32, u64),
    /// The start record of a line: its sequence number, the first one of its mount, the front, and
    /// a row of an older line, its sequence number and its bound, or none.
    Start(u32, u64, u64, u64, Option<(u32, u64, u64)>),
    /// A block at a line address, of a sector and at a position.
    One(u32, u32, u64, u64),
    /// Blocks from a line address on, so many, of sectors and at positions that rise.
    Sectors(u32, u32, u32, u64, u64),
    /// The same with this tag as their bytes: the line, the line address, how many, the tag, and
    /// the first sector and position.
    Tagged(u32, u32, u32, u64, u64, u64),
    /// Pad blocks from a line address on, so many.
    Pads(u32, u32, u32),
    /// Pad blocks whose bytes have a tag that rises, with the first tag.
    TaggedPads(u32, u32, u32, u64),
    /// The end record of a line: its sequence number, and pairs of the sectors from 0 on at
    /// positions from here on.
    End(u32, u64, u64),
    /// The chunk of a unit in a line is Closed as it is.
    Close(usize, u32),
    /// The chunk of a unit in a line loses its blocks, and is in this state.
    Clear(usize, u32, ChunkState),
}

/// The image after these steps from a blank one.
pub fn made(alloc: Global, steps: &[Step]) -> Result<Units, AllocError> {
    let mut image = blank(alloc)?;
    for step in steps {
        take_step(alloc, &mut image, *step)?;
    }
    Ok(image)
}

fn blank(alloc: Global) -> Result<Units, AllocError> {
    let mut image = Vec::new(alloc);
    for _ in 0..2 {
        image.push(blank_unit(alloc)?)?;
    }
    Ok(image)
}

fn blank_unit(alloc: Global) -> Result<Vec<Chunk>, AllocError> {
    let mut chunks = Vec::new(alloc);
    for _ in 0..8 {
        chunks.push(Chunk {
            state: ChunkState::Free,
            blocks: Vec::new(alloc),
        })?;
    }
    Ok(chunks)
}

fn take_step(alloc: Global, image: &mut Units, step: Step) -> Result<(), AllocError> {
    match step {
        Step::First(line, seq) => write_start(alloc, image, line, seq, 1, 0, None),
        Step::Start(line, seq, first_seq, front, row) => {
            write_start(alloc, image, line, seq, first_seq, front, row)
        }
        Step::One(line, at, lba, position) => {
            write_sectors(alloc, image, line, at, 1, PLAIN, Mark { lba, position })
        }
        Step::Sectors(line, at, count, lba, position) => {
            write_sectors(alloc, image, line, at, count, PLAIN, Mark { lba, position })
        }
        Step::Tagged(line, at, count, tag, lba, position) => {
            write_sectors(alloc, image, line, at, count, tag, Mark { lba, position })
        }
        Step::Pads(line, at, count) => write_pads(alloc, image, line, at, count, 0, 0),
        Step::TaggedPads(line, at, count, tag) => {
            write_pads(alloc, image, line, at, count, tag, 1)
        }
        Step::End(line, seq, position) => write_end(alloc, image, line, seq, position),
        Step::Close(unit, line) => {
            turn(image, unit, line, ChunkState::Closed);
            Ok(())
        }
        Step::Clear(unit, line, state) => {
            clear(image, unit, line);
            turn(image, unit, line, state);
            Ok(())
        }
    }
}

fn turn(image: &mut Units, unit: usize, line: u32, state: ChunkState) {
    if let Some(chunks) = image.get_mut(unit)
        && let Some(chunk) = chunks.get_mut(line as usize)
    {
        chunk.state = state;
    }
}

fn clear(image: &mut Units, unit: usize, line: u32) {
    if let Some(chunks) = image.get_mut(unit)
        && let Some(chunk) = chunks.get_mut(line as usize)
    {
        chunk.blocks.clear();
    }
}

fn is_online(chunks: &[Chunk], line: u32) -> bool {
    match chunks.get(line as usize) {
        Some(chunk) => chunk.state != ChunkState::Offline,
        None => false,
    }
}

// How many chunks of a line aren't Offline.
fn width(image: &[Vec<Chunk>], line: u32) -> u32 {
    let mut width = 0u32;
    for chunks in image {
        if is_online(chunks, line) {
            width = width.wrapping_add(1);
        }
    }
    width
}

// The unit that has a line address.
fn unit_at(image: &[Vec<Chunk>], line: u32, at: u32) -> Option<usize> {
    let width = width(image, line);
    if width == 0 {
        return None;
    }
    let mut before = at / 4 % width;
    for (unit, chunks) in image.iter().enumerate() {
        if is_online(chunks, line) {
            if before == 0 {
                return Some(unit);
            }
            before -= 1;
        }
    }
    None
}

// Writes the next block of the chunk that has a line address.
fn place(image: &mut Units, line: u32, at: u32, block: Block) -> Result<(), AllocError> {
    let Some(unit) = unit_at(image, line, at) else {
        return Ok(());
    };
    if let Some(chunks) = image.get_mut(unit)
        && let Some(chunk) = chunks.get_mut(line as usize)
    {
        chunk.blocks.push(block)?;
        chunk.state = if chunk.blocks.len() < 24 {
            ChunkState::Open
        } else {
            ChunkState::Closed
        };
    }
    Ok(())
}

/// The sector of a tag: the tag as eight bytes, 64 times.
pub fn sector(alloc: Global, tag: u64) -> Result<Vec<u8>, AllocError> {
    let mut bytes = Vec::new(alloc);
    for _ in 0..64 {
        bytes.extend_from_slice(&tag.to_le_bytes())?;
    }
    Ok(bytes)
}

// The mark of the first block is given.
fn write_sectors(
    alloc: Global,
    image: &mut Units,
    line: u32,
    at: u32,
    count: u32,
    tag: u64,
    first: Mark,
) -> Result<(), AllocError> {
    for index in 0..count {
        let mark = Mark {
            lba: first.lba.wrapping_add(u64::from(index)),
            position: first.position.wrapping_add(u64::from(index)),
        };
        let sector = sector(alloc, tag)?;
        place(image, line, at.wrapping_add(index), Block { sector, mark })?;
    }
    Ok(())
}

// The first tag is given, and how much each tag is above the one before.
fn write_pads(
    alloc: Global,
    image: &mut Units,
    line: u32,
    at: u32,
    count: u32,
    tag: u64,
    step: u64,
) -> Result<(), AllocError> {
    for index in 0..count {
        let tag = tag.wrapping_add(step.wrapping_mul(u64::from(index)));
        let sector = sector(alloc, tag)?;
        let block = Block {
            sector,
            mark: Mark::PAD,
        };
        place(image, line, at.wrapping_add(index), block)?;
    }
    Ok(())
}

fn write_record(
    alloc: Global,
    image: &mut Units,
    line: u32,
    at: u32,
    seq: u64,
    bytes: &[u8],
) -> Result<(), AllocError> {
    let mark = Mark {
        lba: Mark::META_LBA,
        position: seq,
    };
    let mut at = at;
    for bytes in bytes.chunks(512) {
        let sector = Vec::from_slice(alloc, bytes)?;
        place(image, line, at, Block { sector, mark })?;
        at = at.wrapping_add(1);
    }
    Ok(())
}

fn rows_of(alloc: Global, row: Option<(u32, u64, u64)>) -> Result<Vec<Row>, AllocError> {
    let mut rows = Vec::new(alloc);
    if let Some((line, seq, bound)) = row {
        rows.push(Row { line, seq, bound })?;
    }
    Ok(rows)
}

fn write_start(
    alloc: Global,
    image: &mut Units,
    line: u32,
    seq: u64,
    first_seq: u64,
    front: u64,
    row: Option<(u32, u64, u64)>,
) -> Result<(), AllocError> {
    let start = StartRecord {
        line,
        width: width(image, line),
        seq,
        first_seq,
        front,
        capacity: 64,
        rows: rows_of(alloc, row)?,
    };
    if start.rows.len() > 1 {
        return Ok(());
    }
    let bytes = start_bytes(alloc, &small(), &start)?;
    write_record(alloc, image, line, 0, seq, &bytes)
}

fn pairs_from(alloc: Global, count: u64, position: u64) -> Result<Vec<Mark>, AllocError> {
    let mut pairs = Vec::new(alloc);
    for lba in 0..count {
        let position = position.wrapping_add(lba);
        pairs.push(Mark { lba, position })?;
    }
    Ok(pairs)
}

// A line of both units has 40 addresses of data, and one of a single unit has 16.
fn write_end(
    alloc: Global,
    image: &mut Units,
    line: u32,
    seq: u64,
    position: u64,
) -> Result<(), AllocError> {
    let width = width(image, line);
    if width != 1 && width != 2 {
        return Ok(());
    }
    let pairs = pairs_from(alloc, if width == 2 { 40 } else { 16 }, position)?;
    if pairs.len() > 40 {
        return Ok(());
    }
    let end = EndRecord {
        line,
        width,
        seq,
        pairs,
    };
    let bytes = end_bytes(alloc, &small(), &end)?;
    write_record(alloc, image, line, width * 24 - 4, seq, &bytes)
}
