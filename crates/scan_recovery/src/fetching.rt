//! Fetching the blocks of a line.

ghost use Rattle.std.specs.Prelude.{◌≡◌, ◌≢◌, ◌*◌, ◌-◌, ◌<◌, ◌≤◌, ◌^◌, ℕ, true, false, Some, None, length, map, slice_get, IfOk, OnOk};
ghost use Rattle.std.specs.Option.{option_map};
ghost use Rattle.pblk_model.specs.declared.chunk.ChunkState.TheVariants as states;
ghost use Rattle.pblk_model.specs.Accepted.{IsAccepted};
ghost use Rattle.pblk_model.specs.Chunk.{Chunk as ModelChunk};
ghost use Rattle.pblk_model.specs.Image.{line_units};
ghost use Rattle.pblk_model.specs.Shape.{units as unit_count};
ghost use Rattle.pblk_layout.specs.Online.{units_in};
ghost use Rattle.pblk_laws.specs.LineBlocks.{chunk_in, written_at};
ghost use Rattle.unit_port.specs.Commands.{AreKept};
ghost use Rattle.world_laws.specs.Finding.{NoneOpen};
ghost use Rattle.scan_recovery.specs.Fetches.{IsReadableAt, WereFewFetched, error_of, one_if, only_of};
ghost use Rattle.scan_recovery.specs.Reading.{blocks_at};
ghost use Rattle.scan_recovery.specs.Units.{AreFit, image_of};

use crate::error::ScanErr;
use crate::line_buffer::LineBuffer;
use crate::unit_calls::fetch_at;
use pblk_layout::{Layout, LineUnits};
use pblk_model::{Got, Mark, Shape};
use unit_port::Unit;

/// Fetches the written ones of the blocks of a line at these line addresses. `online` are its
/// online units.
pub(crate) fn fetch_run<U: Unit>(
    buffer: &mut LineBuffer,
    units: &mut [U],
    shape: &Shape,
    line: u32,
    online: LineUnits,
    from: u32,
    to: u32,
) -> Result<(), ScanErr>
    requires size { buffer.old.size ≡ shape.now.sector }
    requires accepted { IsAccepted shape.now }
    requires fit { AreFit shape.now (map U.model units.old) }
    requires closed { NoneOpen (image_of shape.now (map U.model units.old)) }
    requires line { line < shape.now.chunks }
    requires online { let i = image_of shape.now (map U.model units.old)
        in units_in online ≡ line_units i line }
    requires below { online < 2 ^ unit_count shape.now }
    requires range { from ≤ to }
    requires inside { to ≤ length (units_in online) * shape.now.clba }
    ensures blocks { let i = image_of shape.now (map U.model units.old)
        in OnOk result (buffer.new.blocks ≡ blocks_at i line from (to - from)) }
    ensures size { buffer.new.size ≡ buffer.old.size }
    ensures fetched { WereFewFetched shape.now (map U.model units.old) (map U.model units.new)
        (error_of result) (only_of line (to - from)) }
    ensures kept { AreKept (map U.model units.old) (map U.model units.new) }
    ensures wear { map U.wear units.new ≡ map U.wear units.old }
{
    buffer.clear();
    let layout = Layout::new(shape);
    for at in from..to {
        let (unit, block) = layout.place(online.bits(), at);
        buffer.fetch(units, shape, line, unit, block)?;
    }
    Ok(())
}

/// Fetches a block, if it is written, and gives its mark. Its sector goes into `out`.
pub(crate) fn fetch_mark<U: Unit>(
    units: &mut [U],
    shape: &Shape,
    line: u32,
    unit: u32,
    block: u32,
    out: &mut [u8],
) -> Result<Option<Mark>, ScanErr>
    requires fit { AreFit shape.now (map U.model units.old) }
    requires closed { NoneOpen (image_of shape.now (map U.model units.old)) }
    requires unit { unit < length units.old }
    requires line { line < shape.now.chunks }
    requires size { length out.old ≡ shape.now.sector }
    ensures mark { let i = image_of shape.now (map U.model units.old)
        in IfOk result (λ m. m ≡ option_map (λ b. b.mark) (written_at i line (unit, block))) }
    ensures fetched { let i = image_of shape.now (map U.model units.old)
        in WereFewFetched shape.now (map U.model units.old) (map U.model units.new)
        (error_of result) (only_of line (one_if (written_at i line (unit, block)))) }
    ensures kept { AreKept (map U.model units.old) (map U.model units.new) }
    ensures wear { map U.wear units.new ≡ map U.wear units.old }
{
    if !is_written(units, shape, line, unit, block) {
        return Ok(None);
    }
    let mark = fetch_into(units, shape, line, unit, block, out)?;
    Ok(Some(mark))
}

/// Whether a block of a chunk of a unit is written. The chunk isn't Open, so a written block can be
/// read (Open-Channel SSD Specification 2.0, Chunk states and write pointer).
pub fn is_written<U: Unit>(units: &[U], shape: &Shape, chunk: u32, unit: u32, block: u32) -> bool
    requires fit { AreFit shape.now (map U.model units.now) }
    requires closed { (c : ModelChunk)
        → chunk_in (image_of shape.now (map U.model units.now)) chunk unit ≡ Some c
        → c.state ≢ states.Open }
    requires unit { unit < length units.now }
    requires chunk { chunk < shape.now.chunks }
    ensures written { let i = image_of shape.now (map U.model units.now)
        in result ≡ true → IsReadableAt i chunk unit block }
    ensures unwritten { let i = image_of shape.now (map U.model units.now)
        in result ≡ false → written_at i chunk (unit, block) ≡ None }
{
    // the shape says which chunks there are
    let _ = shape;
    let (_, pointer) = units[unit as usize].state(chunk);
    block < pointer
}

/// Fetches a block that can be read, and copies its sector to `out`, which has the length of a
/// sector. The answer is the block's mark. `Drive` comes where the fetch failed or was stopped, and
/// names its event. No other unit is commanded.
pub fn fetch_into<U: Unit>(
    units: &mut [U],
    shape: &Shape,
    chunk: u32,
    unit: u32,
    block: u32,
    out: &mut [u8],
) -> Result<Mark, ScanErr>
    requires fit { AreFit shape.now (map U.model units.old) }
    requires unit { unit < length units.old }
    requires size { length out.old ≡ shape.now.sector }
    requires there { IsReadableAt (image_of shape.now (map U.model units.old)) chunk unit block }
    ensures block { let i = image_of shape.now (map U.model units.old)
        in IfOk result (λ mark. written_at i chunk (unit, block)
        ≡ Some (record { sector = out.new; mark = mark })) }
    ensures fetched { WereFewFetched shape.now (map U.model units.old) (map U.model units.new)
        (error_of result) (only_of chunk 1) }
    ensures kept { AreKept (map U.model units.old) (map U.model units.new) }
    ensures wear { map U.wear units.new ≡ map U.wear units.old }
    ensures others { (k : ℕ) → k ≢ unit → slice_get units.new k ≡ slice_get units.old k }
{
    // the shape says which blocks there are
    let _ = shape;
    match fetch_at(units, unit as usize, chunk, block, out) {
        Ok(Got::Sector(mark)) => Ok(mark),
        Ok(Got::Empty) => unreachable!(),
        Err(_) => Err(ScanErr::Drive {
            unit,
            event: units[unit as usize].events(),
        }),
    }
}
