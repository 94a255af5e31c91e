//! Making the parity of a drive.

ghost use Rattle.std.specs.Prelude.{◌≡◌, ◌*◌, ◌%◌, ◌<◌, ◌≤◌, ◌∷◌, [], ◌++◌, length, map, IfOk, OnOk, OnErr, None};
ghost use Rattle.std.specs.List.{AllByRecursion, range_with_len};
ghost use Rattle.pblk_model.specs.Accepted.{IsAccepted};
ghost use Rattle.pblk_model.specs.Blocks.{blocks_of};
ghost use Rattle.pblk_model.specs.Chunk.{PointerFits};
ghost use Rattle.unit_port.specs.Commands.{AreKept};
ghost use Rattle.world_laws.specs.Finding.{NoneOpen};
ghost use Rattle.ocssd_chunks.specs.DriveChunk.{DriveChunk};
ghost use Rattle.ocssd_drive.specs.Units.{IsChunkIn};
ghost use Rattle.scan_recovery.specs.Fetches.{WereFetched, error_of};
ghost use Rattle.scan_recovery.specs.Units.{AreFit, image_of};
ghost use Rattle.stripe_parity.specs.ParityFile.{kept_chunks, parity_block, parity_row};

use crate::adding::add_units;
use crate::keeping::greatest;
use crate::kept::KeptChunk;
use crate::xoring::{MAX_SECTOR, ZERO_MARK};
use ocssd_chunks::Chunk;
use pblk_model::{ChunkState, Mark, Shape};
use scan_recovery::ScanErr;
use std::alloc::{AllocError, Global};
use unit_port::Unit;

/// The exclusive ors of the blocks of all units, for each chunk number.
pub(crate) fn make_rows<U: Unit>(
    alloc: Global,
    units: &mut [U],
    shape: &Shape,
    kept: &[Vec<KeptChunk>],
) -> Result<Vec<Chunk>, ScanErr>
    requires accepted { IsAccepted shape.now }
    requires fit { AreFit shape.now (map U.model units.old) }
    requires closed { NoneOpen (image_of shape.now (map U.model units.old)) }
    requires kept { let i = image_of shape.now (map U.model units.old)
        in map (λ of. of.items) kept.now ≡ kept_chunks i }
    ensures rows { let i = image_of shape.now (map U.model units.old)
        in IfOk result (λ rows. map (λ (c : DriveChunk). c.chunk.blocks) rows.items
        ≡ map (parity_row i) (range_with_len 0 shape.now.chunks)) }
    ensures fits { IfOk result (λ rows. AllByRecursion (IsChunkIn shape.now) rows.items) }
    ensures fetched { WereFetched shape.now (map U.model units.old) (map U.model units.new)
        (error_of result) }
    ensures kept { AreKept (map U.model units.old) (map U.model units.new) }
    ensures wear { map U.wear units.new ≡ map U.wear units.old }
{
    let mut rows = Vec::new(alloc);
    for chunk in 0..shape.chunks {
        let count = greatest(kept, chunk);
        let row = make_row(alloc, units, shape, chunk, count)?;
        push_chunk(&mut rows, row)?;
    }
    Ok(rows)
}

/// Adds a chunk at the end of a list.
pub(crate) fn push_chunk(chunks: &mut Vec<Chunk>, chunk: Chunk) -> Result<(), AllocError>
    ensures { OnOk result (chunks.new.items ≡ chunks.old.items ++ chunk ∷ []) }
{
    chunks.push(chunk)?;
    Ok(())
}

// The exclusive ors of the first `count` blocks of the units' chunks with a number.
fn make_row<U: Unit>(
    alloc: Global,
    units: &mut [U],
    shape: &Shape,
    chunk: u32,
    count: u32,
) -> Result<Chunk, ScanErr>
    requires accepted { IsAccepted shape.now }
    requires fit { AreFit shape.now (map U.model units.old) }
    requires closed { NoneOpen (image_of shape.now (map U.model units.old)) }
    requires chunk { chunk < shape.now.chunks }
    requires within { count ≤ shape.now.clba }
    requires multiple { count % shape.now.ws_min ≡ 0 }
    ensures row { let i = image_of shape.now (map U.model units.old)
        in IfOk result (λ c. c.chunk.blocks ≡ map (parity_block i chunk) (range_with_len 0 count)) }
    ensures fits { IfOk result (IsChunkIn shape.now) }
    ensures fetched { WereFetched shape.now (map U.model units.old) (map U.model units.new)
        (error_of result) }
    ensures kept { AreKept (map U.model units.old) (map U.model units.new) }
    ensures wear { map U.wear units.new ≡ map U.wear units.old }
{
    let size = shape.sector as usize;
    let mut buffer = [0; MAX_SECTOR];
    let mut sum = [0; MAX_SECTOR];
    let mut bytes = Vec::new(alloc);
    let mut marks = Vec::new(alloc);
    for block in 0..count {
        push_sum(
            units,
            shape,
            chunk,
            block,
            &mut buffer[..size],
            &mut sum[..size],
            &mut bytes,
            &mut marks,
        )?;
    }
    let row = chunk_of(alloc, shape, ChunkState::Closed, &bytes, &marks)?;
    Ok(row)
}

/// A chunk of a drive of this shape, with this state and the blocks of these bytes and marks.
pub(crate) fn chunk_of(
    alloc: Global,
    shape: &Shape,
    state: ChunkState,
    bytes: &[u8],
    marks: &[Mark],
) -> Result<Chunk, AllocError>
    requires accepted { IsAccepted shape.now }
    requires whole { length bytes.now ≡ length marks.now * shape.now.sector }
    requires place { PointerFits state shape.now.clba (length marks.now) }
    requires multiple { length marks.now % shape.now.ws_min ≡ 0 }
    ensures chunk { let blocks = blocks_of shape.now.sector bytes.now marks.now
        in IfOk result (λ c. c.chunk ≡ record { state = state; blocks = blocks }) }
    ensures fits { IfOk result (IsChunkIn shape.now) }
{
    let mut chunk = Chunk::new(alloc, shape)?;
    chunk.restore(state, bytes, marks);
    Ok(chunk)
}

// Adds the exclusive or of a block over all units at the ends of lists of sectors and marks.
// `buffer` and `sum` have the length of a sector each.
fn push_sum<U: Unit>(
    units: &mut [U],
    shape: &Shape,
    chunk: u32,
    block: u32,
    buffer: &mut [u8],
    sum: &mut [u8],
    bytes: &mut Vec<u8>,
    marks: &mut Vec<Mark>,
) -> Result<(), ScanErr>
    requires fit { AreFit shape.now (map U.model units.old) }
    requires closed { NoneOpen (image_of shape.now (map U.model units.old)) }
    requires chunk { chunk < shape.now.chunks }
    requires buffer { length buffer.old ≡ shape.now.sector }
    requires sum { length sum.old ≡ shape.now.sector }
    requires whole { length bytes.old.items ≡ length marks.old.items * shape.now.sector }
    ensures added { let i = image_of shape.now (map U.model units.old)
        in OnOk result (blocks_of shape.now.sector bytes.new.items marks.new.items
        ≡ blocks_of shape.now.sector bytes.old.items marks.old.items
        ++ parity_block i chunk block ∷ []) }
    ensures whole { OnOk result
        (length bytes.new.items ≡ length marks.new.items * shape.now.sector) }
    ensures fetched { WereFetched shape.now (map U.model units.old) (map U.model units.new)
        (error_of result) }
    ensures kept { AreKept (map U.model units.old) (map U.model units.new) }
    ensures wear { map U.wear units.new ≡ map U.wear units.old }
{
    sum.fill(0);
    let mark = add_units(units, shape, None, chunk, block, buffer, sum, ZERO_MARK)?;
    push_block(bytes, marks, sum, mark)?;
    Ok(())
}

/// Adds a block at the ends of lists of sectors and marks.
pub(crate) fn push_block(
    bytes: &mut Vec<u8>,
    marks: &mut Vec<Mark>,
    sector: &[u8],
    mark: Mark,
) -> Result<(), AllocError>
    requires { length bytes.old.items ≡ length marks.old.items * length sector.now }
    ensures added { let size = length sector.now
        in OnOk result (blocks_of size bytes.new.items marks.new.items
        ≡ blocks_of size bytes.old.items marks.old.items
        ++ record { sector = sector.now; mark = mark } ∷ []) }
    ensures whole { OnOk result
        (length bytes.new.items ≡ length marks.new.items * length sector.now) }
{
    bytes.extend_from_slice(sector)?;
    marks.push(mark)?;
    Ok(())
}
