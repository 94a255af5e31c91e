//! Closing the chunks that a mount left Open.

ghost use Rattle.std.specs.Prelude.{◌≡◌, ◌≢◌, ◌+◌, ◌<◌, length, map, IfOk, IfSome, IsNone, OnOk};
ghost use Rattle.pblk_model.specs.Accepted.{IsAccepted};
ghost use Rattle.pblk_model.specs.Contents.{contents, end};
ghost use Rattle.pblk_model.specs.Sealed.{IsSealed};
ghost use Rattle.unit_port.specs.Commands.{AreKept};
ghost use Rattle.world_laws.specs.Finding.{NoneOpen};
ghost use Rattle.scan_recovery.specs.Units.{AreFit, image_of};
ghost use Rattle.scan_recovery.specs.Pads.{AreBlank, WerePadded, IsNotOpen, IsOpenAt, NoneOpenBefore, room_at};

use crate::error::ScanErr;
use crate::unit_calls::program_at;
use pblk_model::{ChunkState, Mark, Shape};
use std::alloc::{AllocError, Global};
use unit_port::{Unit, UnitErr};

/// Closes every Open chunk of a drive (Open-Channel SSD Specification 2.0, Chunk states): by line,
/// and then by unit, each is programmed with Pad blocks to its end, in programs that end at
/// multiples of WS_OPT.
///
/// The shape is accepted, and the units are those of a drive of it. A program that fails leaves its
/// chunk Closed, and is no error. A sealed drive stays sealed and holds what it held, also where it
/// stops.
///
/// Refused: `Drive` where a unit answered Stopped, which ends the padding; it names that event.
/// `Memory` where there isn't as much as a stripe takes; then nothing was programmed.
pub fn pad<U: Unit>(alloc: Global, units: &mut [U], shape: &Shape) -> Result<(), ScanErr>
    requires accepted { IsAccepted shape.now }
    requires fit { AreFit shape.now (map U.model units.old) }
    ensures padded { result ≢ Err ScanErr.Memory
        → WerePadded shape.now (map U.model units.old) (map U.model units.new) result }
    ensures memory { result ≡ Err ScanErr.Memory → map U.model units.new ≡ map U.model units.old }
    ensures closed { OnOk result (NoneOpen (image_of shape.now (map U.model units.new))) }
    ensures sealed { IsSealed (image_of shape.now (map U.model units.old))
        → IsSealed (image_of shape.now (map U.model units.new)) }
    ensures contents { let old = image_of shape.now (map U.model units.old)
        in let new = image_of shape.now (map U.model units.new)
        in IsSealed old → contents new ≡ contents old }
    ensures end { let old = image_of shape.now (map U.model units.old)
        in let new = image_of shape.now (map U.model units.new)
        in IsSealed old → end new ≡ end old }
    ensures fit { AreFit shape.now (map U.model units.new) }
    ensures kept { AreKept (map U.model units.old) (map U.model units.new) }
    ensures wear { map U.wear units.new ≡ map U.wear units.old }
{
    let (bytes, marks) = blank_stripe(alloc, shape)?;
    pad_lines(units, shape, &bytes, &marks)
}

// A stripe of Pad blocks.
fn blank_stripe(alloc: Global, shape: &Shape) -> Result<(Vec<u8>, Vec<Mark>), AllocError>
    requires { IsAccepted shape.now }
    ensures { IfOk result (λ stripe. AreBlank shape.now stripe.0.items stripe.1.items) }
{
    let bytes = vec![in alloc; 0; shape.ws_opt as usize * shape.sector as usize]?;
    let marks = vec![in alloc; Mark::PAD; shape.ws_opt as usize]?;
    Ok((bytes, marks))
}

fn pad_lines<U: Unit>(
    units: &mut [U],
    shape: &Shape,
    bytes: &[u8],
    marks: &[Mark],
) -> Result<(), ScanErr>
    requires accepted { IsAccepted shape.now }
    requires fit { AreFit shape.now (map U.model units.old) }
    requires blank { AreBlank shape.now bytes.now marks.now }
    ensures padded { WerePadded shape.now (map U.model units.old) (map U.model units.new) result }
    ensures closed { let new = image_of shape.now (map U.model units.new)
        in OnOk result (NoneOpenBefore new shape.now.chunks 0) }
    ensures kept { AreKept (map U.model units.old) (map U.model units.new) }
    ensures wear { map U.wear units.new ≡ map U.wear units.old }
{
    for line in 0..shape.chunks {
        pad_line(units, shape, bytes, marks, line)?;
    }
    Ok(())
}

// Closes the Open chunks of a line. No earlier line has one.
fn pad_line<U: Unit>(
    units: &mut [U],
    shape: &Shape,
    bytes: &[u8],
    marks: &[Mark],
    line: u32,
) -> Result<(), ScanErr>
    requires accepted { IsAccepted shape.now }
    requires fit { AreFit shape.now (map U.model units.old) }
    requires blank { AreBlank shape.now bytes.now marks.now }
    requires line { line < shape.now.chunks }
    requires before { NoneOpenBefore (image_of shape.now (map U.model units.old)) line 0 }
    ensures padded { WerePadded shape.now (map U.model units.old) (map U.model units.new) result }
    ensures closed { let new = image_of shape.now (map U.model units.new)
        in OnOk result (NoneOpenBefore new (line + 1) 0) }
    ensures kept { AreKept (map U.model units.old) (map U.model units.new) }
    ensures wear { map U.wear units.new ≡ map U.wear units.old }
{
    for unit in 0..shape.units() {
        pad_chunk(units, shape, bytes, marks, line, unit)?;
    }
    Ok(())
}

// Closes a chunk, if it is Open. No chunk before it is.
fn pad_chunk<U: Unit>(
    units: &mut [U],
    shape: &Shape,
    bytes: &[u8],
    marks: &[Mark],
    line: u32,
    unit: u32,
) -> Result<(), ScanErr>
    requires accepted { IsAccepted shape.now }
    requires fit { AreFit shape.now (map U.model units.old) }
    requires blank { AreBlank shape.now bytes.now marks.now }
    requires line { line < shape.now.chunks }
    requires unit { unit < length units.old }
    requires before { NoneOpenBefore (image_of shape.now (map U.model units.old)) line unit }
    ensures padded { WerePadded shape.now (map U.model units.old) (map U.model units.new) result }
    ensures closed { let new = image_of shape.now (map U.model units.new)
        in OnOk result (NoneOpenBefore new line (unit + 1)) }
    ensures kept { AreKept (map U.model units.old) (map U.model units.new) }
    ensures wear { map U.wear units.new ≡ map U.wear units.old }
{
    while let Some(at) = open_at(units, shape, line, unit) {
        pad_stripe(units, shape, bytes, marks, line, unit, at)?;
    }
    Ok(())
}

// The write pointer of a chunk that is Open.
fn open_at<U: Unit>(units: &[U], shape: &Shape, line: u32, unit: u32) -> Option<u32>
    requires fit { AreFit shape.now (map U.model units.now) }
    requires line { line < shape.now.chunks }
    requires unit { unit < length units.now }
    ensures some { IfSome result (IsOpenAt (image_of shape.now (map U.model units.now)) line unit) }
    ensures none { IsNone result
        → IsNotOpen (image_of shape.now (map U.model units.now)) line unit }
{
    // the shape says which chunks there are
    let _ = shape;
    let (state, at) = units[unit as usize].state(line);
    match state {
        ChunkState::Open => Some(at),
        _ => None,
    }
}

// Programs the first Open chunk from its write pointer to the next multiple of WS_OPT. Ok also
// where that failed.
fn pad_stripe<U: Unit>(
    units: &mut [U],
    shape: &Shape,
    bytes: &[u8],
    marks: &[Mark],
    line: u32,
    unit: u32,
    at: u32,
) -> Result<(), ScanErr>
    requires accepted { IsAccepted shape.now }
    requires fit { AreFit shape.now (map U.model units.old) }
    requires blank { AreBlank shape.now bytes.now marks.now }
    requires unit { unit < length units.old }
    requires found { IsOpenAt (image_of shape.now (map U.model units.old)) line unit at }
    requires before { NoneOpenBefore (image_of shape.now (map U.model units.old)) line unit }
    ensures padded { WerePadded shape.now (map U.model units.old) (map U.model units.new) result }
    ensures smaller { let old = image_of shape.now (map U.model units.old)
        in let new = image_of shape.now (map U.model units.new)
        in OnOk result (room_at shape.now new line unit < room_at shape.now old line unit) }
    ensures before { NoneOpenBefore (image_of shape.now (map U.model units.new)) line unit }
    ensures kept { AreKept (map U.model units.old) (map U.model units.new) }
    ensures wear { map U.wear units.new ≡ map U.wear units.old }
{
    let end = (at / shape.ws_opt + 1) * shape.ws_opt;
    let count = (end - at) as usize;
    let size = shape.sector as usize;
    match program_at(
        units,
        unit as usize,
        line,
        at,
        size,
        &bytes[..count * size],
        &marks[..count],
    ) {
        Ok(()) => Ok(()),
        Err(UnitErr::Failed) => Ok(()),
        Err(UnitErr::Stopped) => Err(ScanErr::Drive {
            unit,
            event: units[unit as usize].events(),
        }),
    }
}
