//! What `create` and `geometry` print.

ghost use Rattle.std.specs.Prelude.{◌≡◌, ◌==◌, ◌++◌, IfOk, OnOk, filter, length, string_bytes};
ghost use Rattle.pblk_model.specs.Descriptor.{state_code};
ghost use Rattle.pblk_model.specs.CommandText.{chunks_in, created_text, geometry_text, number_line};
ghost use Rattle.ocssd_drive.specs.Drive.{stored};

use ocssd_drive::{ChunkState, Drive, MemoryUnit};
use std::alloc::{AllocError, Global};

/// What `create` prints: the length of the image in bytes. Fails only for want of memory.
pub fn created_text(alloc: Global, bytes: usize) -> Result<String, AllocError>
    ensures { IfOk result (λ text. string_bytes text ≡ created_text bytes) }
{
    let mut out = String::new(alloc);
    put_line(&mut out, "created", bytes as u64)?;
    Ok(out)
}

/// What `geometry` prints: the numbers of the drive's geometry and settings, in blocks but for
/// `sector`, which is in bytes, and how many of its chunks are in each state. Fails only for want
/// of memory.
pub fn geometry_text(alloc: Global, drive: &Drive) -> Result<String, AllocError>
    ensures { IfOk result (λ text. string_bytes text ≡ geometry_text (stored drive.now)) }
{
    let shape = drive.shape();
    let mut out = String::new(alloc);
    put_line(&mut out, "groups", u64::from(shape.groups))?;
    put_line(&mut out, "units", u64::from(shape.units()))?;
    put_line(&mut out, "chunks", u64::from(shape.chunks))?;
    put_line(&mut out, "blocks", u64::from(shape.clba))?;
    put_line(&mut out, "ws_min", u64::from(shape.ws_min))?;
    put_line(&mut out, "ws_opt", u64::from(shape.ws_opt))?;
    put_line(&mut out, "mw_cunits", u64::from(shape.mw_cunits))?;
    put_line(&mut out, "maxoc", u64::from(drive.geometry.maxoc))?;
    put_line(&mut out, "maxocpu", u64::from(drive.geometry.maxocpu))?;
    put_line(&mut out, "sector", u64::from(shape.sector))?;
    put_line(&mut out, "capacity", shape.capacity)?;
    put_line(&mut out, "ring", u64::from(shape.ring))?;
    put_line(&mut out, "free", chunks_in(drive, ChunkState::Free))?;
    put_line(&mut out, "open", chunks_in(drive, ChunkState::Open))?;
    put_line(&mut out, "closed", chunks_in(drive, ChunkState::Closed))?;
    put_line(&mut out, "offline", chunks_in(drive, ChunkState::Offline))?;
    Ok(out)
}

/// Adds the line of a word and a number.
pub(crate) fn put_line(out: &mut String, word: &str, number: u64) -> Result<(), AllocError>
    ensures { OnOk result
        (string_bytes out.new ≡ string_bytes out.old ++ number_line word.now number) }
{
    writeln!(out, "{word} {number}")?;
    Ok(())
}

/// How many chunks of the drive are in a state (Open-Channel SSD Specification 2.0, Chunk states).
pub fn chunks_in(drive: &Drive, state: ChunkState) -> u64
    ensures { result ≡ chunks_in state (stored drive.now) }
{
    let units = drive.shape().units();
    let mut count = 0;
    for unit in 0..units {
        count += u64::from(unit_chunks_in(drive.unit(unit), state));
    }
    count
}

// How many chunks of a unit are in a state.
fn unit_chunks_in(unit: &MemoryUnit, state: ChunkState) -> u32
    ensures { result
        ≡ length (filter (λ k. state_code k.state == state_code state) unit.now.unit.media) }
{
    let chunks = unit.shape().chunks;
    let mut count = 0;
    for chunk in 0..chunks {
        let (found, _) = unit.chunk(chunk).state();
        if is_state(found, state) {
            count += 1;
        }
    }
    count
}

// Whether two states are the same.
fn is_state(found: ChunkState, state: ChunkState) -> bool
    ensures { result ≡ (state_code found == state_code state) }
{
    found == state
}
