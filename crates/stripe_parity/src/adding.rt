//! The exclusive or of a block over units.

ghost use Rattle.std.specs.Prelude.{◌≡◌, ◌≢◌, ◌<◌, ◌↔◌, ℕ, IsTrue, length, map, slice_get, IfOk, Option, Some};
ghost use Rattle.pblk_model.specs.Chunk.{Chunk as ModelChunk};
ghost use Rattle.pblk_model.specs.declared.chunk.ChunkState.TheVariants as states;
ghost use Rattle.pblk_laws.specs.LineBlocks.{chunk_in, written_at};
ghost use Rattle.unit_port.specs.Commands.{AreKept};
ghost use Rattle.scan_recovery.specs.Fetches.{WereFetched, error_of};
ghost use Rattle.scan_recovery.specs.Units.{AreFit, image_of};
ghost use Rattle.stripe_parity.specs.Xors.{blocks_but, written_but, xor_given, xor_onto};

use crate::xoring::{xor_bytes, xor_marks};
use pblk_model::{Mark, Shape};
use scan_recovery::{ScanErr, fetch_into, is_written};
use unit_port::Unit;

/// Replaces a block by its exclusive or with the blocks with a number of the units' chunks with a
/// number, where they are written, but for the unit `lost`. `sum` is the block's sector; its mark
/// is handed back. `buffer` has the length of a sector.
pub(crate) fn add_units<U: Unit>(
    units: &mut [U],
    shape: &Shape,
    lost: Option<u32>,
    chunk: u32,
    block: u32,
    buffer: &mut [u8],
    sum: &mut [u8],
    mark: Mark,
) -> Result<Mark, ScanErr>
    requires fit { AreFit shape.now (map U.model units.old) }
    requires closed { (unit : ℕ) (c : ModelChunk) → lost ≢ Some unit
        → chunk_in (image_of shape.now (map U.model units.old)) chunk unit ≡ Some c
        → c.state ≢ states.Open }
    requires chunk { chunk < shape.now.chunks }
    requires buffer { length buffer.old ≡ shape.now.sector }
    requires sum { length sum.old ≡ shape.now.sector }
    ensures sum { let i = image_of shape.now (map U.model units.old)
        in IfOk result (λ m. record { sector = sum.new; mark = m }
        ≡ xor_onto (record { sector = sum.old; mark = mark }) (blocks_but i lost chunk block)) }
    ensures fetched { WereFetched shape.now (map U.model units.old) (map U.model units.new)
        (error_of result) }
    ensures kept { AreKept (map U.model units.old) (map U.model units.new) }
    ensures wear { map U.wear units.new ≡ map U.wear units.old }
    ensures lost { (k : ℕ) → lost ≡ Some k → slice_get units.new k ≡ slice_get units.old k }
{
    let mut mark = mark;
    for unit in 0..shape.units() {
        mark = add_unit(units, shape, lost, chunk, unit, block, buffer, sum, mark)?;
    }
    Ok(mark)
}

// Replaces a block by its exclusive or with a block of a unit, if that is written, unless the unit
// is `lost`.
fn add_unit<U: Unit>(
    units: &mut [U],
    shape: &Shape,
    lost: Option<u32>,
    chunk: u32,
    unit: u32,
    block: u32,
    buffer: &mut [u8],
    sum: &mut [u8],
    mark: Mark,
) -> Result<Mark, ScanErr>
    requires fit { AreFit shape.now (map U.model units.old) }
    requires closed { (c : ModelChunk) → lost ≢ Some unit
        → chunk_in (image_of shape.now (map U.model units.old)) chunk unit ≡ Some c
        → c.state ≢ states.Open }
    requires unit { unit < length units.old }
    requires chunk { chunk < shape.now.chunks }
    requires buffer { length buffer.old ≡ shape.now.sector }
    requires sum { length sum.old ≡ shape.now.sector }
    ensures sum { let i = image_of shape.now (map U.model units.old)
        in IfOk result (λ m. record { sector = sum.new; mark = m }
        ≡ xor_given (record { sector = sum.old; mark = mark })
        (written_but i lost chunk block unit)) }
    ensures fetched { WereFetched shape.now (map U.model units.old) (map U.model units.new)
        (error_of result) }
    ensures kept { AreKept (map U.model units.old) (map U.model units.new) }
    ensures wear { map U.wear units.new ≡ map U.wear units.old }
    ensures lost { (k : ℕ) → lost ≡ Some k → slice_get units.new k ≡ slice_get units.old k }
{
    if is_lost(lost, unit) {
        return Ok(mark);
    }
    if !is_written(units, shape, chunk, unit, block) {
        return Ok(mark);
    }
    let found = fetch_into(units, shape, chunk, unit, block, buffer)?;
    xor_bytes(sum, buffer);
    Ok(xor_marks(mark, found))
}

fn is_lost(lost: Option<u32>, unit: u32) -> bool
    ensures { IsTrue result ↔ (lost ≡ Some unit) }
{
    lost == Some(unit)
}
