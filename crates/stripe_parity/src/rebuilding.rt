//! Making a unit anew.

ghost use Rattle.std.specs.Prelude.{ℕ, ◌≡◌, ◌<◌, ◌≤◌, ◌*◌, length, map, slice_get, slice_set, IfErr, IfOk, OnErr, OnOk};
ghost use Rattle.std.specs.List.{AllByRecursion};
ghost use Rattle.pblk_model.specs.Accepted.{IsAccepted};
ghost use Rattle.pblk_model.specs.Image.{Image, IsFit};
ghost use Rattle.pblk_model.specs.Shape.{units as unit_count};
ghost use Rattle.ocssd_chunks.specs.DriveChunk.{DriveChunk};
ghost use Rattle.unit_port.specs.Commands.{AreKept, AreUnarmed};
ghost use Rattle.ocssd_drive.specs.Drive.{IsWhole, shape_of, with_units};
ghost use Rattle.ocssd_drive.specs.Units.{IsChunkIn, WornUnit};
ghost use Rattle.scan_recovery.specs.Fetches.{WereFetched, error_of};
ghost use Rattle.scan_recovery.specs.Units.{AreFit, image_of};
ghost use Rattle.stripe_parity.specs.declared.error.ParityErr.TheVariants.{Memory};
ghost use Rattle.stripe_parity.specs.ParityFile.{parity_of};
ghost use Rattle.stripe_parity.specs.Rebuilding.{AgreeBut, AreAsKept, AreRebuilt, IsRebuilt, IsRebuiltChunk, drive_image, kept_blocks, with_unit};
ghost use Rattle.stripe_parity.specs.Refusals.{IsRefusal, fetch_error};

use crate::error::ParityErr;
use crate::making::{chunk_of, push_block, push_chunk};
use crate::parity::Parity;
use crate::xoring::MAX_SECTOR;
use ocssd_chunks::Chunk;
use ocssd_drive::{Drive, Shape};
use scan_recovery::ScanErr;
use std::alloc::Global;
use unit_port::Unit;

/// Makes the chunks of the unit `lost` anew from the drive's parity and the other units, and tells
/// how many blocks they have.
///
/// The parity is one of this drive's shape, and the unit is one of the drive's. The other units'
/// chunks and all wear indices stay. Refused: `Differs` exactly where `Parity::differs` names a
/// chunk; `Drive` where a fetch failed or was stopped, which doesn't come where the drive isn't
/// armed; `Memory`. After a refusal every chunk of the drive is as before.
pub fn rebuild(
    alloc: Global,
    drive: &mut Drive,
    parity: &Parity,
    lost: u32,
) -> Result<u32, ParityErr>
    requires shape { parity.now.shape ≡ shape_of drive.old }
    requires lost { lost < unit_count parity.now.shape }
    ensures anew { OnOk result
        (IsRebuilt parity.now lost (drive_image drive.old) (drive_image drive.new)) }

    // A drive that lost no more than this unit is again what it was, where the parity is its own.
    ensures rebuilt { (first : Image) → IsFit first → parity.now ≡ parity_of first
        → AgreeBut lost first (drive_image drive.old)
        → OnOk result (drive_image drive.new ≡ first) }

    // And where it isn't armed, nothing but memory is wanting.
    ensures wanting { (first : Image) → IsFit first → parity.now ≡ parity_of first
        → AgreeBut lost first (drive_image drive.old)
        → AreUnarmed (map (λ (u : WornUnit). u.unit) drive.old.units)
        → IfErr result (λ e. e ≡ Memory) }
    ensures blocks { IfOk result (λ n. n ≡ kept_blocks parity.now.chunks lost) }
    ensures refused { IfErr result (λ e. IsRefusal parity.now (drive_image drive.old) lost e) }
    ensures same { OnOk result (AreAsKept parity.now.chunks (drive_image drive.old) lost) }
    ensures fetched { OnErr result (WereFetched parity.now.shape
        (map (λ (u : WornUnit). u.unit) drive.old.units)
        (map (λ (u : WornUnit). u.unit) drive.new.units) (fetch_error result)) }
    ensures untouched { OnErr result (drive_image drive.new ≡ drive_image drive.old) }
    ensures wear { map (λ (u : WornUnit). u.wear) drive.new.units
        ≡ map (λ (u : WornUnit). u.wear) drive.old.units }
    ensures numbers { drive.new ≡ with_units drive.new.units drive.old }
    ensures whole { IsWhole drive.new }
{
    if let Some((unit, chunk)) = parity.differs(&drive.units, lost) {
        return Err(ParityErr::Differs { unit, chunk });
    }
    let chunks = lost_chunks(alloc, drive, parity, lost)?;
    let shape = parity.shape();
    put_chunks(drive, &shape, lost, chunks);
    Ok(lost_blocks(parity, lost))
}

// How many blocks are kept as written of the unit `lost`.
fn lost_blocks(parity: &Parity, lost: u32) -> u32
    requires { lost < unit_count parity.now.shape }
    ensures { result ≡ kept_blocks parity.now.chunks lost }
{
    let shape = parity.shape();
    let mut blocks = 0;
    for chunk in 0..shape.chunks {
        blocks += parity.kept(lost, chunk).pointer;
    }
    blocks
}

// The chunks of the unit `lost`, made anew beside the drive.
fn lost_chunks(
    alloc: Global,
    drive: &mut Drive,
    parity: &Parity,
    lost: u32,
) -> Result<Vec<Chunk>, ScanErr>
    requires shape { parity.now.shape ≡ shape_of drive.old }
    requires lost { lost < unit_count parity.now.shape }
    requires same { AreAsKept parity.now.chunks (drive_image drive.old) lost }
    ensures chunks { IfOk result (λ cs. AreRebuilt parity.now (drive_image drive.old) lost
        (map (λ (c : DriveChunk). c.chunk) cs.items)) }
    ensures fits { IfOk result (λ cs. AllByRecursion (IsChunkIn parity.now.shape) cs.items) }
    ensures fetched { WereFetched parity.now.shape
        (map (λ (u : WornUnit). u.unit) drive.old.units)
        (map (λ (u : WornUnit). u.unit) drive.new.units) (error_of result) }
    ensures wear { map (λ (u : WornUnit). u.wear) drive.new.units
        ≡ map (λ (u : WornUnit). u.wear) drive.old.units }
    ensures numbers { drive.new ≡ with_units drive.new.units drive.old }
    ensures whole { IsWhole drive.new }
{
    unit_chunks(alloc, &mut drive.units, parity, lost)
}

// The chunks of one of these units, made anew.
fn unit_chunks<U: Unit>(
    alloc: Global,
    units: &mut [U],
    parity: &Parity,
    lost: u32,
) -> Result<Vec<Chunk>, ScanErr>
    requires fit { AreFit parity.now.shape (map U.model units.old) }
    requires lost { lost < unit_count parity.now.shape }
    requires same { let i = image_of parity.now.shape (map U.model units.old)
        in AreAsKept parity.now.chunks i lost }
    ensures chunks { let i = image_of parity.now.shape (map U.model units.old)
        in IfOk result (λ cs. AreRebuilt parity.now i lost
        (map (λ (c : DriveChunk). c.chunk) cs.items)) }
    ensures fits { IfOk result (λ cs. AllByRecursion (IsChunkIn parity.now.shape) cs.items) }
    ensures fetched { WereFetched parity.now.shape (map U.model units.old) (map U.model units.new)
        (error_of result) }
    ensures kept { AreKept (map U.model units.old) (map U.model units.new) }
    ensures wear { map U.wear units.new ≡ map U.wear units.old }
{
    let shape = parity.shape();
    let mut chunks = Vec::new(alloc);
    for chunk in 0..shape.chunks {
        let made = lost_chunk(alloc, units, parity, lost, chunk)?;
        push_chunk(&mut chunks, made)?;
    }
    Ok(chunks)
}

// A chunk of one of these units, made anew.
fn lost_chunk<U: Unit>(
    alloc: Global,
    units: &mut [U],
    parity: &Parity,
    lost: u32,
    chunk: u32,
) -> Result<Chunk, ScanErr>
    requires fit { AreFit parity.now.shape (map U.model units.old) }
    requires lost { lost < unit_count parity.now.shape }
    requires chunk { chunk < parity.now.shape.chunks }
    requires same { let i = image_of parity.now.shape (map U.model units.old)
        in AreAsKept parity.now.chunks i lost }
    ensures chunk { let i = image_of parity.now.shape (map U.model units.old)
        in IfOk result (λ c. IsRebuiltChunk parity.now i lost chunk c.chunk) }
    ensures fits { IfOk result (IsChunkIn parity.now.shape) }
    ensures fetched { WereFetched parity.now.shape (map U.model units.old) (map U.model units.new)
        (error_of result) }
    ensures kept { AreKept (map U.model units.old) (map U.model units.new) }
    ensures wear { map U.wear units.new ≡ map U.wear units.old }
{
    let size = parity.shape().sector as usize;
    let mut buffer = [0; MAX_SECTOR];
    fill_chunk(alloc, units, parity, lost, chunk, &mut buffer[..size])
}

// The same. `sector` has the length of a sector.
fn fill_chunk<U: Unit>(
    alloc: Global,
    units: &mut [U],
    parity: &Parity,
    lost: u32,
    chunk: u32,
    sector: &mut [u8],
) -> Result<Chunk, ScanErr>
    requires fit { AreFit parity.now.shape (map U.model units.old) }
    requires lost { lost < unit_count parity.now.shape }
    requires chunk { chunk < parity.now.shape.chunks }
    requires sector { length sector.old ≡ parity.now.shape.sector }
    requires same { let i = image_of parity.now.shape (map U.model units.old)
        in AreAsKept parity.now.chunks i lost }
    ensures chunk { let i = image_of parity.now.shape (map U.model units.old)
        in IfOk result (λ c. IsRebuiltChunk parity.now i lost chunk c.chunk) }
    ensures fits { IfOk result (IsChunkIn parity.now.shape) }
    ensures fetched { WereFetched parity.now.shape (map U.model units.old) (map U.model units.new)
        (error_of result) }
    ensures kept { AreKept (map U.model units.old) (map U.model units.new) }
    ensures wear { map U.wear units.new ≡ map U.wear units.old }
{
    let shape = parity.shape();
    let kept = parity.kept(lost, chunk);
    let mut bytes = Vec::new(alloc);
    let mut marks = Vec::new(alloc);
    for block in 0..kept.pointer {
        let mark = parity.lost_block(units, lost, chunk, block, sector)?;
        push_block(&mut bytes, &mut marks, sector, mark)?;
    }
    let made = chunk_of(alloc, &shape, kept.state, &bytes, &marks)?;
    Ok(made)
}

// Puts these chunks in the place of the unit's.
fn put_chunks(drive: &mut Drive, shape: &Shape, lost: u32, chunks: Vec<Chunk>)
    requires accepted { IsAccepted shape.now }
    requires shape { shape.now ≡ shape_of drive.old }
    requires whole { IsWhole drive.old }
    requires lost { lost < unit_count shape.now }
    requires count { length chunks.items ≡ shape.now.chunks }
    requires fits { AllByRecursion (IsChunkIn shape.now) chunks.items }
    ensures put { let cs = map (λ (c : DriveChunk). c.chunk) chunks.items
        in drive_image drive.new ≡ with_unit lost cs (drive_image drive.old) }
    ensures wear { map (λ (u : WornUnit). u.wear) drive.new.units
        ≡ map (λ (u : WornUnit). u.wear) drive.old.units }
    ensures numbers { drive.new ≡ with_units drive.new.units drive.old }
    ensures whole { IsWhole drive.new }
{
    // the shape says that the chunks are few
    let _ = shape;
    let mut chunk = 0;
    for with in chunks {
        drive.replace_chunk(lost, chunk, with);
        chunk += 1;
    }
}
