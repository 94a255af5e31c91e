//! Padding and scanning of a drive in memory, and what is told of both.

ghost use Rattle.std.specs.Prelude.{map};
ghost use Rattle.pblk_model.specs.Accepted.{IsAccepted};
ghost use Rattle.world_laws.specs.Finding.{NoneOpen};
ghost use Rattle.scan_recovery.specs.Units.{AreFit, image_of};

use image_crew::{Step, joined, restored};
use ocssd_drive::{
    Chunk, ChunkState, CommandKind, Drive, FaultPlan, Fuse, Geometry, MemoryUnit, Unit,
};
use pblk_model::{Found, LineRow, Mark, Shape, Winner};
use scan_recovery::{ScanErr, pad, scan};
use std::alloc::{AllocError, Global};
use std::process::Abort;

/// A drive, as it was written and as it is armed, and the lines that are told of its padding and
/// its scan.
#[derive(Clone, Copy)]
pub(crate) struct Case {
    pub(crate) steps: &'static [Step],
    /// The unit whose nth command of this kind fails. A program that fails lands so many multiples
    /// of two blocks.
    pub(crate) fails: Option<(u32, CommandKind, u32, u32)>,
    /// The unit at whose nth program the drive stops, and how many multiples of two blocks that
    /// program lands.
    pub(crate) stops: Option<(u32, u32, u32)>,
    pub(crate) told: &'static [&'static str],
}

/// Pads and scans each drive.
pub(crate) fn compare(rt: &impl Abort, alloc: Global, cases: &[Case]) -> Result<(), AllocError> {
    for case in cases {
        let wanted = joined(alloc, case.told)?;
        let text = told(alloc, case)?;
        assert_eq!(rt; text.as_str(), wanted.as_str());
    }
    Ok(())
}

fn told(alloc: Global, case: &Case) -> Result<String, AllocError> {
    let (mut units, shape) = parts(armed(alloc, case)?);
    let mut text = String::new(alloc);
    put_all(alloc, &mut text, &mut units, &shape)?;
    Ok(text)
}

// What is told: a line for the padding and one for each unit after it; and where that ended well,
// the lines of what is found, and how many events each unit then had.
fn put_all(
    alloc: Global,
    text: &mut String,
    units: &mut [MemoryUnit],
    shape: &Shape,
) -> Result<(), AllocError>
    requires accepted { IsAccepted shape.now }
    requires fit { AreFit shape.now (map (λ u. u.unit) units.old) }
{
    match pad(alloc, units, shape) {
        Ok(()) => {
            writeln!(text, "padded")?;
            put_units(text, units)?;
            put_scan(alloc, text, units, shape)
        }
        Err(ScanErr::Drive { unit, event }) => {
            writeln!(text, "drive {unit} {event}")?;
            put_units(text, units)
        }
        Err(ScanErr::Memory) => Err(AllocError),
    }
}

fn put_scan(
    alloc: Global,
    text: &mut String,
    units: &mut [MemoryUnit],
    shape: &Shape,
) -> Result<(), AllocError>
    requires accepted { IsAccepted shape.now }
    requires fit { AreFit shape.now (map (λ u. u.unit) units.old) }
    requires closed { NoneOpen (image_of shape.now (map (λ u. u.unit) units.old)) }
{
    match scan(alloc, units, shape) {
        Ok(found) => {
            put_found(text, &found)?;
            put_events(text, units)
        }
        Err(ScanErr::Drive { unit, event }) => writeln!(text, "drive {unit} {event}"),
        Err(ScanErr::Memory) => Err(AllocError),
    }
}

// The drive of a case, armed.
fn armed(alloc: Global, case: &Case) -> Result<Drive, AllocError> {
    let mut drive = restored(alloc, case.steps)?;
    let fuse = match case.stops {
        Some((unit, nth, cut)) => Some(Fuse { unit, nth, cut }),
        None => None,
    };
    match case.fails {
        Some((unit, kind, nth, cut)) => {
            let plan = FaultPlan {
                unit,
                kind,
                nth,
                cut,
            };
            drive.arm(alloc, &[plan], fuse)?;
        }
        None => drive.arm(alloc, &[], fuse)?,
    }
    Ok(drive)
}

// The units of a drive, and its shape.
fn parts(drive: Drive) -> (Vec<MemoryUnit>, Shape)
    ensures accepted { IsAccepted result.1 }
    ensures fit { AreFit result.1 (map (λ u. u.unit) result.0.items) }
{
    let shape = drive.shape();
    let Drive { units, .. } = drive;
    (units, shape)
}

// Of each unit how many events it had, and its chunks that aren't Free.
fn put_units(text: &mut String, units: &[MemoryUnit]) -> Result<(), AllocError> {
    for unit in units {
        write!(text, "{} events", unit.events())?;
        for chunk in 0..unit.shape().chunks {
            put_chunk(text, chunk, unit.chunk(chunk))?;
        }
        text.push('\n')?;
    }
    Ok(())
}

// The state of a chunk, its write pointer, and how many of its blocks are Pads.
fn put_chunk(text: &mut String, number: u32, chunk: &Chunk) -> Result<(), AllocError> {
    let (state, pointer) = chunk.state();
    let pads = pads_in(chunk, pointer);
    match state {
        ChunkState::Free => Ok(()),
        ChunkState::Open => write!(text, ", {number} open {pointer} with {pads} pads"),
        ChunkState::Closed => write!(text, ", {number} closed {pointer} with {pads} pads"),
        ChunkState::Offline => write!(text, ", {number} offline"),
    }
}

fn pads_in(chunk: &Chunk, pointer: u32) -> u32 {
    let mut pads = 0u32;
    for block in 0..pointer {
        if let Some((sector, mark)) = chunk.written(block)
            && is_pad(sector, mark)
        {
            pads = pads.wrapping_add(1);
        }
    }
    pads
}

fn is_pad(sector: &[u8], mark: Mark) -> bool {
    mark == Mark::PAD && sector.iter().all(|byte| *byte == 0)
}

fn put_found(text: &mut String, found: &Found) -> Result<(), AllocError> {
    match found.head {
        None => write!(text, "no head")?,
        Some(line) => write!(text, "head {line}")?,
    }
    writeln!(text, ", front {}, end {}", found.front, found.end)?;
    put_winners(text, found.winners.as_slice())?;
    for (line, row) in found.lines.as_slice().iter().enumerate() {
        put_line(text, line, row)?;
    }
    for line in found.strays.as_slice() {
        writeln!(text, "stray {line}")?;
    }
    put_states(text, found.chunks.as_slice())
}

// A line for each run of winners that follow each other, with its last sector where there are
// several.
fn put_winners(text: &mut String, winners: &[Winner]) -> Result<(), AllocError> {
    for (index, winner) in winners.iter().enumerate() {
        let goes_on = match winners.get(index.wrapping_sub(1)) {
            Some(before) => is_next(before, winner),
            None => false,
        };
        let is_last = match winners.get(index.wrapping_add(1)) {
            Some(after) => !is_next(winner, after),
            None => true,
        };
        put_winner(text, winner, goes_on, is_last)?;
    }
    Ok(())
}

fn is_next(before: &Winner, after: &Winner) -> bool {
    before.lba.wrapping_add(1) == after.lba
        && before.position.wrapping_add(1) == after.position
        && before.line == after.line
        && before.at.wrapping_add(1) == after.at
}

fn put_winner(
    text: &mut String,
    winner: &Winner,
    goes_on: bool,
    is_last: bool,
) -> Result<(), AllocError> {
    let Winner {
        lba,
        position,
        line,
        at,
    } = *winner;
    if !goes_on {
        write!(text, "sector {lba} of position {position} at {line}.{at}")?;
    }
    if goes_on && is_last {
        write!(text, " to sector {lba}")?;
    }
    if is_last { text.push('\n') } else { Ok(()) }
}

// A line of which something is found.
fn put_line(text: &mut String, line: usize, row: &LineRow) -> Result<(), AllocError> {
    let LineRow {
        seq,
        bound,
        top,
        full,
        young,
    } = *row;
    if let Some(seq) = seq {
        write!(text, "line {line} seq {seq} bound {bound} top {top}")?;
        text.push_str(if full { " full" } else { "" })?;
        text.push_str(if young { " young\n" } else { "\n" })?;
    } else if bound != 0 || top != 0 || full || young {
        writeln!(text, "line {line} without a number")?;
    }
    Ok(())
}

// A letter for each chunk.
fn put_states(text: &mut String, chunks: &[ChunkState]) -> Result<(), AllocError> {
    text.push_str("chunks ")?;
    for state in chunks {
        text.push(match state {
            ChunkState::Free => '-',
            ChunkState::Open => 'o',
            ChunkState::Closed => 'c',
            ChunkState::Offline => 'x',
        })?;
    }
    text.push('\n')
}

fn put_events(text: &mut String, units: &[MemoryUnit]) -> Result<(), AllocError> {
    text.push_str("events")?;
    for unit in units {
        write!(text, " {}", unit.events())?;
    }
    text.push('\n')
}
