//! The commands of a chunk of a small drive.

use bytes::Bytes;
use ocssd_chunks::{
    Chunk, ChunkErr, ChunkState, Descriptor, DescriptorErr, Got, Mark, Shape, has_sectors,
    read_descriptor,
};
use std::alloc::{AllocError, Global};
use std::process::Abort;
use std::test::Fail;

// What is asked of a chunk. A write names its first block and the block behind its last one. A
// write that fails or is cut off begins at block 0, and names how many blocks it has and how many
// multiples of them land. Blocks that are adopted are named by the first and by the one behind the
// last, wherever they come to stand.
#[derive(Clone, Copy)]
enum Asked {
    Write(usize, usize),
    Read(u32),
    Written(u32),
    Reset,
    State,
    FailWrite(usize, u32),
    CutWrite(usize, u32),
    FailReset,
    CutReset(bool),
    Restore(usize),
    Adopt(usize, usize),
}

// What it told. A block is known by its number, which is in its mark and fills its sector.
#[derive(Clone, Copy, PartialEq, Eq)]
enum Told {
    Done,
    Refused(ChunkErr),
    Block(u8),
    Empty,
    Is(ChunkState, u32),
    // The question can't be asked.
    Unasked,
}

// The blocks of a chunk, and two more, with their spelling: each as its sector and then its mark.
#[derive(Drop)]
struct Blocks {
    bytes: [u8; 13312],
    marks: [Mark; 26],
    spelled: Bytes,
}

fn make_blocks(alloc: Global) -> Result<Blocks, AllocError> {
    let mut bytes = [0u8; 13312];
    for (at, byte) in bytes.iter_mut().enumerate() {
        *byte = (at / 512 % 256) as u8;
    }
    let mut marks = [mark_of(0); 26];
    for (at, mark) in marks.iter_mut().enumerate() {
        *mark = mark_of((at % 256) as u8);
    }
    let mut spelled = Vec::new(alloc);
    for (sector, mark) in bytes.chunks_exact(512).zip(&marks) {
        spelled.extend_from_slice(sector)?;
        spelled.extend_from_slice(&mark.lba.to_le_bytes())?;
        spelled.extend_from_slice(&mark.position.to_le_bytes())?;
    }
    let spelled = Bytes::from_vec(spelled)?;
    Ok(Blocks {
        bytes,
        marks,
        spelled,
    })
}

fn mark_of(block: u8) -> Mark {
    Mark {
        lba: u64::from(block),
        position: 100 + u64::from(block),
    }
}

impl Blocks {
    // The sectors and marks of the blocks from one number up to, but without, another.
    fn part(&self, start: usize, end: usize) -> Option<(&[u8], &[Mark])> {
        if start <= end && end <= 26 {
            Some((&self.bytes[start * 512..end * 512], &self.marks[start..end]))
        } else {
            None
        }
    }

    // The spelling of these blocks.
    fn spelled_part(&self, start: usize, end: usize) -> Option<Bytes> {
        if start <= end && end <= 26 && self.spelled.len() == 26 * 528 {
            self.spelled.slice(start * 528..end * 528).ok()
        } else {
            None
        }
    }
}

fn ask(chunk: &mut Chunk, blocks: &Blocks, asked: &Asked) -> Told {
    match asked {
        Asked::Write(start, end) => write(chunk, blocks, *start, *end),
        Asked::Read(block) => read(chunk, *block),
        Asked::Written(block) => match chunk.written(*block) {
            Some((sector, mark)) => block_of(sector, mark),
            None => Told::Empty,
        },
        Asked::Reset => answered(chunk.reset()),
        Asked::State => {
            let (state, pointer) = chunk.state();
            Told::Is(state, pointer)
        }
        Asked::FailWrite(count, multiples) => part_write(chunk, blocks, *count, *multiples, true),
        Asked::CutWrite(count, multiples) => part_write(chunk, blocks, *count, *multiples, false),
        Asked::FailReset => part_reset(chunk, None),
        Asked::CutReset(done) => part_reset(chunk, Some(*done)),
        Asked::Restore(count) => restore(chunk, blocks, *count),
        Asked::Adopt(start, end) => adopt(chunk, blocks, *start, *end),
    }
}

fn answered(answer: Result<(), ChunkErr>) -> Told {
    match answer {
        Ok(()) => Told::Done,
        Err(refusal) => Told::Refused(refusal),
    }
}

// The number of a block, if its sector and its mark have the same number.
fn block_of(sector: &[u8], mark: Mark) -> Told {
    match sector.first() {
        Some(number) if mark == mark_of(*number) && sector.iter().all(|byte| *byte == *number) => {
            Told::Block(*number)
        }
        _ => Told::Unasked,
    }
}

fn write(chunk: &mut Chunk, blocks: &Blocks, start: usize, end: usize) -> Told {
    match blocks.part(start, end) {
        Some((bytes, marks)) if has_sectors(&chunk.shape(), bytes, marks) => {
            answered(chunk.write((start % 256) as u32, bytes, marks))
        }
        _ => Told::Unasked,
    }
}

fn read(chunk: &Chunk, block: u32) -> Told {
    let mut out = [99u8; 512];
    if chunk.shape().sector != 512 {
        return Told::Unasked;
    }
    match chunk.read(block, &mut out) {
        Ok(Got::Sector(mark)) => block_of(&out, mark),
        Ok(Got::Empty) => Told::Empty,
        Err(refusal) => Told::Refused(refusal),
    }
}

// A write of the first blocks that fails or is cut off.
fn part_write(
    chunk: &mut Chunk,
    blocks: &Blocks,
    count: usize,
    multiples: u32,
    fails: bool,
) -> Told {
    let shape = chunk.shape();
    let landed = u64::from(multiples) * u64::from(shape.ws_min);
    match blocks.part(0, count) {
        Some((bytes, marks))
            if has_sectors(&shape, bytes, marks)
                && chunk.write_refusal(0, bytes, marks).is_none()
                && landed < marks.len() as u64 => {
            if fails {
                chunk.fail_write(0, bytes, marks, multiples);
            } else {
                chunk.cut_write(0, bytes, marks, multiples);
            }
            Told::Done
        }
        _ => Told::Unasked,
    }
}

// A reset that fails, or is cut off, done or not.
fn part_reset(chunk: &mut Chunk, cut: Option<bool>) -> Told {
    match (chunk.reset_refusal(), cut) {
        (Some(refusal), _) => return Told::Refused(refusal),
        (None, None) => chunk.fail_reset(),
        (None, Some(done)) => chunk.cut_reset(done),
    }
    Told::Done
}

// Restores a chunk that was closed when only its first blocks were written.
fn restore(chunk: &mut Chunk, blocks: &Blocks, count: usize) -> Told {
    let shape = chunk.shape();
    match blocks.part(0, count) {
        Some((bytes, marks))
            if has_sectors(&shape, bytes, marks)
                && marks.len() <= shape.clba as usize
                && marks.len() % shape.ws_min as usize == 0 => {
            chunk.restore(ChunkState::Closed, bytes, marks);
            Told::Done
        }
        _ => Told::Unasked,
    }
}

// Gives a chunk the spelling of blocks, as those of one that isn't full.
fn adopt(chunk: &mut Chunk, blocks: &Blocks, start: usize, end: usize) -> Told {
    let shape = chunk.shape();
    let Some(kept) = blocks.spelled_part(start, end) else {
        return Told::Unasked;
    };
    let count = (kept.len() / 528 % 256) as u32;
    if shape.sector != 512 || count == 0 || count >= shape.clba || count % shape.ws_min != 0 {
        return Told::Unasked;
    }
    if kept.len() != count as usize * 528 {
        return Told::Unasked;
    }
    chunk.adopt(ChunkState::Open, count, kept);
    Told::Done
}

// Asks a new chunk of the small drive, row by row.
fn walk(rt: &impl Abort, alloc: Global, rows: &[(Asked, Told)]) -> Result<(), Fail> {
    let mut chunk = Chunk::new(alloc, &Shape::small())?;
    let blocks = make_blocks(alloc)?;
    for (row, (asked, told)) in rows.iter().enumerate() {
        assert!(rt; ask(&mut chunk, &blocks, asked) == *told, "row {row}");
    }
    Ok(())
}

const FREE: Told = Told::Is(ChunkState::Free, 0);

const OFFLINE: Told = Told::Is(ChunkState::Offline, 0);

// Writes, reads and resets of a chunk, in turn.
static CALLS: [(Asked, Told); 23] = [
    (Asked::Write(0, 0), Told::Refused(ChunkErr::NotMultiple)),
    (Asked::Write(0, 3), Told::Refused(ChunkErr::NotMultiple)),
    (Asked::Write(2, 6), Told::Refused(ChunkErr::NotAtPointer)),
    (Asked::Write(0, 4), Told::Done),
    (Asked::Read(0), Told::Empty),
    (Asked::Write(4, 12), Told::Done),
    (Asked::Read(3), Told::Block(3)),
    (Asked::Read(4), Told::Empty),
    (Asked::Write(12, 26), Told::Refused(ChunkErr::PastEnd)),
    (Asked::State, Told::Is(ChunkState::Open, 12)),
    (Asked::Written(11), Told::Block(11)),
    (Asked::Reset, Told::Done),
    (Asked::State, FREE),
    (Asked::Written(0), Told::Empty),
    (Asked::Reset, Told::Refused(ChunkErr::NotResettable)),
    (Asked::Write(0, 24), Told::Done),
    (Asked::State, Told::Is(ChunkState::Closed, 24)),
    (Asked::Read(23), Told::Block(23)),
    (Asked::Read(24), Told::Refused(ChunkErr::PastEnd)),
    (Asked::Written(23), Told::Block(23)),
    (Asked::Write(24, 26), Told::Refused(ChunkErr::Closed)),
    (Asked::Reset, Told::Done),
    (Asked::State, FREE),
];

#[test]
fn chunk_calls(rt: HostRuntime) -> Result<(), Fail> {
    walk(&rt, rt.alloc(), &CALLS)
}

// A failed write closes the chunk for good, and a failed reset takes it Offline. What is cut off is
// done or not.
static FAULTS: [(Asked, Told); 20] = [
    (Asked::CutWrite(4, 0), Told::Done),
    (Asked::State, FREE),
    (Asked::CutWrite(4, 1), Told::Done),
    (Asked::State, Told::Is(ChunkState::Open, 2)),
    (Asked::CutReset(false), Told::Done),
    (Asked::State, Told::Is(ChunkState::Open, 2)),
    (Asked::CutReset(true), Told::Done),
    (Asked::State, FREE),
    (Asked::FailWrite(4, 1), Told::Done),
    (Asked::State, Told::Is(ChunkState::Closed, 2)),
    (Asked::Reset, Told::Done),
    (Asked::State, OFFLINE),
    (Asked::Reset, Told::Refused(ChunkErr::NotResettable)),
    (Asked::Restore(8), Told::Done),
    (Asked::State, Told::Is(ChunkState::Closed, 8)),
    (Asked::Read(7), Told::Block(7)),
    (Asked::FailReset, Told::Done),
    (Asked::State, OFFLINE),
    (Asked::Write(0, 2), Told::Refused(ChunkErr::Offline)),
    (Asked::Read(0), Told::Refused(ChunkErr::Offline)),
];

#[test]
fn faults_and_cuts_leave_what_they_should(rt: HostRuntime) -> Result<(), Fail> {
    walk(&rt, rt.alloc(), &FAULTS)
}

// Adopted blocks are read where they lie, what is written on comes behind them, and a reset lets
// them go.
static ADOPTED: [(Asked, Told); 24] = [
    (Asked::Write(0, 2), Told::Done),
    (Asked::Adopt(12, 16), Told::Done),
    (Asked::State, Told::Is(ChunkState::Open, 4)),
    (Asked::Written(0), Told::Block(12)),
    (Asked::Written(3), Told::Block(15)),
    (Asked::Written(4), Told::Empty),
    (Asked::Read(0), Told::Empty),
    (Asked::Write(2, 6), Told::Refused(ChunkErr::NotAtPointer)),
    (Asked::Write(4, 12), Told::Done),
    (Asked::Read(3), Told::Block(15)),
    (Asked::Read(4), Told::Empty),
    (Asked::Written(4), Told::Block(4)),
    (Asked::Write(12, 24), Told::Done),
    (Asked::State, Told::Is(ChunkState::Closed, 24)),
    (Asked::Read(0), Told::Block(12)),
    (Asked::Read(4), Told::Block(4)),
    (Asked::Read(23), Told::Block(23)),
    (Asked::Reset, Told::Done),
    (Asked::State, FREE),
    (Asked::Written(0), Told::Empty),
    (Asked::Write(0, 4), Told::Done),
    (Asked::Written(0), Told::Block(0)),
    (Asked::Restore(2), Told::Done),
    (Asked::Written(1), Told::Block(1)),
];

#[test]
fn adopted_blocks_are_read_and_let_go(rt: HostRuntime) -> Result<(), Fail> {
    walk(&rt, rt.alloc(), &ADOPTED)
}

// The descriptor of the small drive's first chunk, which has no block. Its block 0 has the address
// 0.
const BLANK: [u8; 32] = [
    1, 1, 0, 0, 0, 0, 0, 0, 0, 0, 0, 0, 0, 0, 0, 0, 24, 0, 0, 0, 0, 0, 0, 0, 0, 0, 0, 0, 0, 0, 0, 0,
];

// Bytes 0, 1 and 24 of descriptors that are refused, and the refusals.
static REFUSED: [((u8, u8, u8), DescriptorErr); 3] = [
    ((3, 2, 2), DescriptorErr::State),
    ((1, 2, 2), DescriptorErr::Kind),
    ((1, 1, 2), DescriptorErr::Pointer),
];

#[test]
fn descriptors_are_refused_in_order(rt: HostRuntime) {
    let blank = Descriptor {
        state: ChunkState::Free,
        wear: 0,
        slba: 0,
        cnlb: 24,
        wp: 0,
    };
    let mut out = [99u8; 32];
    blank.write(&mut out);
    assert!(rt; out == BLANK);
    assert!(rt; read_descriptor(&BLANK) == Ok(blank));
    for ((state, kind, pointer), refusal) in &REFUSED {
        let mut bytes = BLANK;
        bytes[0] = *state;
        bytes[1] = *kind;
        bytes[24] = *pointer;
        assert!(rt; read_descriptor(&bytes) == Err(*refusal));
        assert!(rt; read_descriptor(&bytes[..31]) == Err(DescriptorErr::Length));
    }
}
