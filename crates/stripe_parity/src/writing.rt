//! Parities as files.

ghost use Rattle.std.specs.Prelude.{◌≡◌, ◌++◌, OnErr, OnOk, length, map};
ghost use Rattle.std.specs.List.{flat_map};
ghost use Rattle.pblk_model.specs.Bytes.{le32};
ghost use Rattle.pblk_model.specs.Descriptor.{state_code};
ghost use Rattle.pblk_model.specs.ImageFile.{block_bytes};
ghost use Rattle.ocssd_chunks.specs.DriveChunk.{DriveChunk};
ghost use Rattle.stripe_parity.specs.ParityBytes.{header_bytes, kept_bytes, parity_bytes};
ghost use Rattle.stripe_parity.specs.Puts.{Puts};

use crate::kept::KeptChunk;
use ocssd_chunks::Chunk;
use pblk_model::{ChunkState, Mark, Shape};
use std::alloc::AllocError;

/// The length of a parity's header in bytes.
pub(crate) const HEADER_LEN: usize = 32;

/// The header of a parity of a drive of this shape.
pub(crate) fn header_of(shape: &Shape) -> [u8; HEADER_LEN]
    ensures { result ≡ header_bytes shape.now }
{
    let mut header = [0; HEADER_LEN];
    header[..8].copy_from_slice(b"PBLKPRTY");
    header[8..12].copy_from_slice(&1u32.to_le_bytes());
    header[12..16].copy_from_slice(&shape.sector.to_le_bytes());
    header[16..20].copy_from_slice(&shape.units().to_le_bytes());
    header[20..24].copy_from_slice(&shape.chunks.to_le_bytes());
    header[24..28].copy_from_slice(&shape.clba.to_le_bytes());
    header
}

/// Adds what is kept of the chunks of all units.
pub(crate) fn put_units(out: &mut Vec<u8>, kept: &[Vec<KeptChunk>]) -> Result<(), AllocError>
    ensures { let chunks = map (λ of. of.items) kept.now
        in Puts result out.old.items out.new.items (flat_map (flat_map kept_bytes) chunks) }
{
    for of in kept {
        put_unit(out, of)?;
    }
    Ok(())
}

// Adds what is kept of the chunks of a unit.
fn put_unit(out: &mut Vec<u8>, kept: &[KeptChunk]) -> Result<(), AllocError>
    ensures { Puts result out.old.items out.new.items (flat_map kept_bytes kept.now) }
{
    for chunk in kept {
        put_kept(out, chunk)?;
    }
    Ok(())
}

// Adds what is kept of a chunk.
fn put_kept(out: &mut Vec<u8>, kept: &KeptChunk) -> Result<(), AllocError>
    ensures { Puts result out.old.items out.new.items (kept_bytes kept.now) }
{
    put(out, &[code_of(kept.state), 0, 0, 0])?;
    put(out, &kept.pointer.to_le_bytes())?;
    Ok(())
}

// The byte of a state.
fn code_of(state: ChunkState) -> u8
    ensures { result ≡ state_code state }
{
    match state {
        ChunkState::Free => 1,
        ChunkState::Closed => 2,
        ChunkState::Open => 4,
        ChunkState::Offline => 8,
    }
}

/// Adds the blocks of all rows.
pub(crate) fn put_rows(out: &mut Vec<u8>, rows: &[Chunk]) -> Result<(), AllocError>
    ensures { let blocks = map (λ (c : DriveChunk). c.chunk.blocks) rows.now
        in Puts result out.old.items out.new.items (flat_map (flat_map block_bytes) blocks) }
{
    for row in rows {
        put_row(out, row)?;
    }
    Ok(())
}

// Adds the blocks of a row.
fn put_row(out: &mut Vec<u8>, row: &Chunk) -> Result<(), AllocError>
    ensures { Puts result out.old.items out.new.items (flat_map block_bytes row.now.chunk.blocks) }
{
    let (_state, count) = row.state();
    for block in 0..count {
        let Some((sector, mark)) = row.written(block) else {
            unreachable!()
        };
        put_block(out, sector, mark)?;
    }
    Ok(())
}

// Adds a block: its sector, and then the two numbers of its mark.
fn put_block(out: &mut Vec<u8>, sector: &[u8], mark: Mark) -> Result<(), AllocError>
    ensures { Puts result out.old.items out.new.items
        (block_bytes (record { sector = sector.now; mark = mark })) }
{
    put(out, sector)?;
    put(out, &mark.lba.to_le_bytes())?;
    put(out, &mark.position.to_le_bytes())?;
    Ok(())
}

/// Adds bytes at the end of a list.
pub(crate) fn put(out: &mut Vec<u8>, bytes: &[u8]) -> Result<(), AllocError>
    ensures { Puts result out.old.items out.new.items bytes.now }
{
    out.extend_from_slice(bytes)
}
