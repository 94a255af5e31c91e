//! Parities from their files.

ghost use Rattle.std.specs.Prelude.{ℕ, ◌≡◌, ◌+◌, ◌*◌, ◌%◌, ◌<◌, ◌≤◌, ◌↔◌, length, take, map, slice_range, IfErr, IfNone, IfOk, IfSome, IsTrue, OnOk, [], ◌∷◌, ◌++◌};
ghost use Rattle.std.specs.List.{AllByRecursion, flat_map};
ghost use Rattle.std.specs.Option.{option_map};
ghost use Rattle.pblk_model.specs.Accepted.{IsAccepted};
ghost use Rattle.pblk_model.specs.Bytes.{le32};
ghost use Rattle.pblk_model.specs.Chunk.{PointerFits};
ghost use Rattle.pblk_model.specs.Descriptor.{state_code};
ghost use Rattle.pblk_model.specs.ImageFile.{block_bytes};
ghost use Rattle.pblk_model.specs.Shape.{units as unit_count};
ghost use Rattle.pblk_model.specs.declared.chunk.ChunkState.{ChunkState as ModelState};
ghost use Rattle.pblk_model.specs.declared.chunk.ChunkState.TheVariants as states;
ghost use Rattle.ocssd_chunks.specs.DriveChunk.{DriveChunk};
ghost use Rattle.ocssd_chunks.specs.Spelled.{AreSpelled};
ghost use Rattle.ocssd_drive.specs.Units.{IsChunkIn};
ghost use Rattle.stripe_parity.specs.declared.kept.KeptChunk.{KeptChunk as ModelKept};
ghost use Rattle.stripe_parity.specs.ParityBytes.{AreRowsOf, BeginsAs, IsFileRefusal, IsUnitPart, IsUnitRefusal, header_bytes, kept_bytes, kept_end};
ghost use Rattle.stripe_parity.specs.ParityFile.{IsKept};

use crate::error::ParityErr;
use crate::keeping::greatest;
use crate::kept::KeptChunk;
use crate::making::push_chunk;
use crate::writing::{HEADER_LEN, header_of};
use ocssd_chunks::Chunk;
use pblk_model::{ChunkState, Shape};
use std::alloc::{AllocError, Global};

// The length in bytes of a chunk's state and write pointer.
const KEPT_LEN: usize = 8;

/// Whether a file begins with the header of a drive of this shape.
pub(crate) fn check_header(bytes: &[u8], shape: &Shape) -> Result<(), ParityErr>
    ensures header { IfOk result (λ _. take 32 bytes.now ≡ header_bytes shape.now) }
    ensures refused { IfErr result (IsFileRefusal shape.now bytes.now) }
{
    if bytes.len() < HEADER_LEN {
        return Err(ParityErr::Short(bytes.len() as u64));
    }
    let header = header_of(shape);
    if !is_part(bytes, &header, 0, 8) {
        return Err(ParityErr::Magic);
    }
    if !is_part(bytes, &header, 8, 12) {
        return Err(ParityErr::Version);
    }
    if !is_part(bytes, &header, 12, HEADER_LEN) {
        return Err(ParityErr::Numbers);
    }
    Ok(())
}

// Whether two lists are the same from one place to another.
fn is_part(bytes: &[u8], with: &[u8], from: usize, to: usize) -> bool
    requires order { from ≤ to }
    requires bytes { to ≤ length bytes.now }
    requires with { to ≤ length with.now }
    ensures { IsTrue result ↔ (slice_range bytes.now from to ≡ slice_range with.now from to) }
{
    bytes[from..to] == with[from..to]
}

/// The states and write pointers of a file that begins with the header.
pub(crate) fn read_units(
    alloc: Global,
    bytes: &[u8],
    shape: &Shape,
) -> Result<Vec<Vec<KeptChunk>>, ParityErr>
    requires accepted { IsAccepted shape.now }
    requires header { take 32 bytes.now ≡ header_bytes shape.now }
    ensures kept { IfOk result
        (λ kept. BeginsAs shape.now bytes.now (map (λ of. of.items) kept.items)) }
    ensures refused { IfErr result (IsFileRefusal shape.now bytes.now) }
{
    let count = shape.units() * shape.chunks;
    if bytes.len() < HEADER_LEN + KEPT_LEN * count as usize {
        return Err(ParityErr::Short(bytes.len() as u64));
    }
    let mut kept = Vec::new(alloc);
    for unit in 0..shape.units() {
        let of = read_unit(alloc, bytes, shape, unit)?;
        push_unit(&mut kept, of)?;
    }
    Ok(kept)
}

// Those of a unit.
fn read_unit(
    alloc: Global,
    bytes: &[u8],
    shape: &Shape,
    unit: u32,
) -> Result<Vec<KeptChunk>, ParityErr>
    requires accepted { IsAccepted shape.now }
    requires unit { unit < unit_count shape.now }
    requires reaches { kept_end shape.now ≤ length bytes.now }
    ensures kept { IfOk result
        (λ kept. IsUnitPart shape.now bytes.now unit shape.now.chunks kept.items) }
    ensures refused { IfErr result (IsUnitRefusal shape.now bytes.now unit) }
{
    let mut kept = Vec::new(alloc);
    for chunk in 0..shape.chunks {
        let at = HEADER_LEN + KEPT_LEN * (unit * shape.chunks + chunk) as usize;
        match read_kept(&bytes[at..at + KEPT_LEN], shape) {
            Some(found) => push_kept(&mut kept, found)?,
            None => return Err(ParityErr::State { unit, chunk }),
        }
    }
    Ok(kept)
}

fn push_unit(kept: &mut Vec<Vec<KeptChunk>>, of: Vec<KeptChunk>) -> Result<(), AllocError>
    ensures { OnOk result (kept.new.items ≡ kept.old.items ++ of ∷ []) }
{
    kept.push(of)?;
    Ok(())
}

fn push_kept(kept: &mut Vec<KeptChunk>, found: KeptChunk) -> Result<(), AllocError>
    ensures { OnOk result (kept.new.items ≡ kept.old.items ++ found ∷ []) }
{
    kept.push(found)?;
    Ok(())
}

// The state and the write pointer of a chunk, if these can be.
fn read_kept(bytes: &[u8], shape: &Shape) -> Option<KeptChunk>
    requires length { length bytes.now ≡ 8 }
    requires accepted { IsAccepted shape.now }
    ensures found { IfSome result (λ k. IsKept shape.now k × (bytes.now ≡ kept_bytes k)) }
    ensures none { IfNone result
        ((k : ModelKept) → IsKept shape.now k → bytes.now ≡ kept_bytes k → ⊥) }
{
    let state = closed_state(bytes[0])?;
    let pointer = pointer_in(bytes);
    if !has_zeros(bytes) {
        return None;
    }
    if !has_place(state, pointer, shape) {
        return None;
    }
    Some(KeptChunk { state, pointer })
}

// Whether the three bytes behind that of the state are 0.
fn has_zeros(bytes: &[u8]) -> bool
    requires { length bytes.now ≡ 8 }
    ensures { IsTrue result ↔ (slice_range bytes.now 1 4 ≡ 0 ∷ 0 ∷ 0 ∷ []) }
{
    bytes[1..4] == [0, 0, 0]
}

// The number in the last four of eight bytes.
fn pointer_in(bytes: &[u8]) -> u32
    requires { length bytes.now ≡ 8 }
    ensures { le32 result ≡ slice_range bytes.now 4 8 }
{
    let mut number = [0; 4];
    number.copy_from_slice(&bytes[4..8]);
    u32::from_le_bytes(number)
}

// The state of a byte, if it is that of one but Open.
fn closed_state(code: u8) -> Option<ChunkState>
    ensures found { IfSome result (λ s. (state_code s ≡ code) × (s ≡ states.Open → ⊥)) }
    ensures none { IfNone result ((s : ModelState) → state_code s ≡ code → s ≡ states.Open) }
{
    match code {
        1 => Some(ChunkState::Free),
        2 => Some(ChunkState::Closed),
        8 => Some(ChunkState::Offline),
        _ => None,
    }
}

// Whether a chunk in this state, which isn't Open, may have this write pointer.
fn has_place(state: ChunkState, pointer: u32, shape: &Shape) -> bool
    requires accepted { IsAccepted shape.now }
    requires closed { state ≡ states.Open → ⊥ }
    ensures { IsTrue result ↔ (PointerFits state shape.now.clba pointer
        × (pointer % shape.now.ws_min ≡ 0)) }
{
    match state {
        ChunkState::Closed => pointer <= shape.clba && pointer % shape.ws_min == 0,
        ChunkState::Free | ChunkState::Open | ChunkState::Offline => pointer == 0,
    }
}

/// The exclusive ors of a file that begins with these states and write pointers, to its end.
pub(crate) fn read_rows(
    alloc: Global,
    bytes: &[u8],
    shape: &Shape,
    kept: &[Vec<KeptChunk>],
) -> Result<Vec<Chunk>, ParityErr>
    requires accepted { IsAccepted shape.now }
    requires begins { BeginsAs shape.now bytes.now (map (λ of. of.items) kept.now) }
    ensures whole { let of = map (λ of. of.items) kept.now
        in IfOk result (λ rows. AreRowsOf shape.now bytes.now of shape.now.chunks (length bytes.now)
        (map (λ (c : DriveChunk). c.chunk.blocks) rows.items)) }
    ensures fits { IfOk result (λ rows. AllByRecursion (IsChunkIn shape.now) rows.items) }
    ensures refused { IfErr result (IsFileRefusal shape.now bytes.now) }
{
    let mut rows = Vec::new(alloc);
    let mut at = HEADER_LEN + KEPT_LEN * (shape.units() * shape.chunks) as usize;
    for chunk in 0..shape.chunks {
        let count = greatest(kept, chunk);
        let end = at + (shape.sector as usize + 16) * count as usize;
        if bytes.len() < end {
            return Err(ParityErr::Short(bytes.len() as u64));
        }
        let row = row_of(alloc, shape, count, &bytes[at..end])?;
        push_chunk(&mut rows, row)?;
        at = end;
    }
    if at < bytes.len() {
        return Err(ParityErr::Long);
    }
    Ok(rows)
}

// A row of so many blocks, from the bytes that they are spelled as.
fn row_of(alloc: Global, shape: &Shape, count: u32, bytes: &[u8]) -> Result<Chunk, AllocError>
    requires accepted { IsAccepted shape.now }
    requires length { length bytes.now ≡ count * (shape.now.sector + 16) }
    requires within { count ≤ shape.now.clba }
    requires multiple { count % shape.now.ws_min ≡ 0 }
    ensures row { IfOk result (λ c. AreSpelled count bytes.now c.chunk.blocks) }
    ensures fits { IfOk result (IsChunkIn shape.now) }
{
    let mut row = Chunk::new(alloc, shape)?;
    row.restore_spelled(ChunkState::Closed, count, bytes);
    Ok(row)
}
