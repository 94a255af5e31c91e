//! Recovery by scanning (Bjørling, González, Bonnet, FAST 2017, recovery).

ghost use Rattle.std.specs.Prelude.{◌≡◌, ◌+◌, ◌<◌, ◌^◌, Some, None, length, map, IfOk, OnOk};
ghost use Rattle.std.specs.Option.{option_map};
ghost use Rattle.pblk_model.specs.Accepted.{IsAccepted};
ghost use Rattle.pblk_model.specs.EndRecord.{end_of};
ghost use Rattle.pblk_model.specs.Image.{line_units};
ghost use Rattle.pblk_model.specs.LineOrder.{end_len, start_len};
ghost use Rattle.pblk_model.specs.Shape.{units as unit_count};
ghost use Rattle.pblk_model.specs.StartRecord.{StartRecord as HeadRecord, start_of};
ghost use Rattle.pblk_layout.specs.Online.{units_in};
ghost use Rattle.pblk_meta.specs.Records.{end_numbers};
ghost use Rattle.unit_port.specs.Commands.{AreKept};
ghost use Rattle.world_laws.specs.Finding.{IsFoundOf, NoneOpen, is_full};
ghost use Rattle.scan_recovery.specs.Fetches.{IsScanned, WereFetched, WereFewFetched, error_of, first_of, most_behind, most_fetches, only_of, written_in};
ghost use Rattle.scan_recovery.specs.Mounts.{IsMountOf};
ghost use Rattle.scan_recovery.specs.Starts.{IsStarts, line_start};
ghost use Rattle.scan_recovery.specs.Survey.{IsCountTo, IsSurvey};
ghost use Rattle.pblk_model.specs.Tables.{IsTable};
ghost use Rattle.scan_recovery.specs.Units.{AreFit, image_of};

use crate::counting::Count;
use crate::error::ScanErr;
use crate::fetching::{fetch_mark, fetch_run, is_written};
use crate::finding::found_of;
use crate::line_buffer::LineBuffer;
use crate::line_records::{count_block, end_in, pair_at};
use crate::mount::Mount;
use crate::reading::{chunk_states, is_used, online_units};
use crate::starts::{LineStart, Starts};
use crate::survey::Survey;
use pblk_layout::{Layout, LineUnits};
use pblk_meta::EndRecord;
use pblk_model::{Found, Shape};
use std::alloc::{AllocError, Global};
use unit_port::Unit;

/// What recovery by scanning finds on a drive without Open chunks (Bjørling, González, Bonnet, FAST
/// 2017, recovery): what a mount begins with.
///
/// Written blocks are fetched; the chunks stay as they were. First the start records of all lines
/// are read, then the end record of each line that has one. Of a line whose end record is whole no
/// more is fetched. Of any other line with a whole start record each written block is. The shape
/// is accepted, the units are those of a drive of it, and no chunk is Open, as after `pad`.
///
/// Refused: `Drive` where a fetch failed or was stopped, which ends the scan; it names that event.
/// `Memory` where there isn't enough.
pub fn scan<U: Unit>(alloc: Global, units: &mut [U], shape: &Shape) -> Result<Found, ScanErr>
    requires accepted { IsAccepted shape.now }
    requires fit { AreFit shape.now (map U.model units.old) }
    requires closed { NoneOpen (image_of shape.now (map U.model units.old)) }
    ensures found { IfOk result (IsFoundOf (image_of shape.now (map U.model units.old))) }
    ensures fetched { WereFetched shape.now (map U.model units.old) (map U.model units.new)
        (error_of result) }
    ensures fetches { IsScanned (image_of shape.now (map U.model units.old))
        (map U.model units.old) (map U.model units.new) }
    ensures kept { AreKept (map U.model units.old) (map U.model units.new) }
    ensures wear { map U.wear units.new ≡ map U.wear units.old }
{
    scan_all(alloc, units, shape)
}

// The same, with a bound for each line on what was fetched of it.
fn scan_all<U: Unit>(alloc: Global, units: &mut [U], shape: &Shape) -> Result<Found, ScanErr>
    requires accepted { IsAccepted shape.now }
    requires fit { AreFit shape.now (map U.model units.old) }
    requires closed { NoneOpen (image_of shape.now (map U.model units.old)) }
    ensures found { IfOk result (IsFoundOf (image_of shape.now (map U.model units.old))) }
    ensures fetched { let i = image_of shape.now (map U.model units.old)
        in WereFewFetched shape.now (map U.model units.old) (map U.model units.new)
        (error_of result) (most_fetches i) }
    ensures kept { AreKept (map U.model units.old) (map U.model units.new) }
    ensures wear { map U.wear units.new ≡ map U.wear units.old }
{
    let mut buffer = LineBuffer::new(alloc, shape.sector);
    let starts = read_starts(alloc, units, shape, &mut buffer)?;
    let mount = Mount::new(alloc, starts.head, shape.chunks)?;
    let survey = survey_lines(alloc, units, shape, &mut buffer, &starts.lines, &mount)?;
    let chunks = chunk_states(alloc, units, shape)?;
    let found = found_of(alloc, shape, survey, &mount, chunks)?;
    Ok(found)
}

// Reads the fronts of all lines, one after another.
fn read_starts<U: Unit>(
    alloc: Global,
    units: &mut [U],
    shape: &Shape,
    buffer: &mut LineBuffer,
) -> Result<Starts, ScanErr>
    requires accepted { IsAccepted shape.now }
    requires fit { AreFit shape.now (map U.model units.old) }
    requires closed { NoneOpen (image_of shape.now (map U.model units.old)) }
    requires size { buffer.old.size ≡ shape.now.sector }
    ensures starts { let i = image_of shape.now (map U.model units.old)
        in IfOk result (IsStarts i shape.now.chunks) }
    ensures size { buffer.new.size ≡ buffer.old.size }
    ensures fetched { WereFewFetched shape.now (map U.model units.old) (map U.model units.new)
        (error_of result) (first_of shape.now.chunks (λ line. start_len shape.now)) }
    ensures kept { AreKept (map U.model units.old) (map U.model units.new) }
    ensures wear { map U.wear units.new ≡ map U.wear units.old }
{
    let mut starts = Starts::new(alloc);
    for line in 0..shape.chunks {
        read_start(alloc, units, shape, buffer, &mut starts, line)?;
    }
    Ok(starts)
}

// Reads the front of a line.
fn read_start<U: Unit>(
    alloc: Global,
    units: &mut [U],
    shape: &Shape,
    buffer: &mut LineBuffer,
    starts: &mut Starts,
    line: u32,
) -> Result<(), ScanErr>
    requires accepted { IsAccepted shape.now }
    requires fit { AreFit shape.now (map U.model units.old) }
    requires closed { NoneOpen (image_of shape.now (map U.model units.old)) }
    requires size { buffer.old.size ≡ shape.now.sector }
    requires line { line < shape.now.chunks }
    requires starts { IsStarts (image_of shape.now (map U.model units.old)) line starts.old }
    ensures starts { let i = image_of shape.now (map U.model units.old)
        in OnOk result (IsStarts i (line + 1) starts.new) }
    ensures size { buffer.new.size ≡ buffer.old.size }
    ensures fetched { WereFewFetched shape.now (map U.model units.old) (map U.model units.new)
        (error_of result) (only_of line (start_len shape.now)) }
    ensures kept { AreKept (map U.model units.old) (map U.model units.new) }
    ensures wear { map U.wear units.new ≡ map U.wear units.old }
{
    let layout = Layout::new(shape);
    let used = is_used(units, shape, line);
    let online = online_units(units, shape, line);
    let len = online.width() * shape.clba;
    let to = layout.start_len().min(len);
    fetch_run(buffer, units, shape, line, online, 0, to)?;
    let blocks = buffer.blocks(alloc)?;
    starts.add(alloc, &layout, line, online.width(), used, &blocks)?;
    Ok(())
}

// Reads what the lines bear, one after another.
fn survey_lines<U: Unit>(
    alloc: Global,
    units: &mut [U],
    shape: &Shape,
    buffer: &mut LineBuffer,
    starts: &[LineStart],
    mount: &Mount,
) -> Result<Survey, ScanErr>
    requires accepted { IsAccepted shape.now }
    requires fit { AreFit shape.now (map U.model units.old) }
    requires closed { NoneOpen (image_of shape.now (map U.model units.old)) }
    requires size { buffer.old.size ≡ shape.now.sector }
    requires starts { let i = image_of shape.now (map U.model units.old)
        in IsTable shape.now.chunks (line_start i) starts.now }
    requires mount { IsMountOf (image_of shape.now (map U.model units.old)) mount.now }
    ensures survey { let i = image_of shape.now (map U.model units.old)
        in IfOk result (IsSurvey i shape.now.chunks) }
    ensures fetched { let i = image_of shape.now (map U.model units.old)
        in WereFewFetched shape.now (map U.model units.old) (map U.model units.new)
        (error_of result) (first_of shape.now.chunks (most_behind i)) }
    ensures kept { AreKept (map U.model units.old) (map U.model units.new) }
    ensures wear { map U.wear units.new ≡ map U.wear units.old }
{
    let mut survey = Survey::new(alloc, shape.capacity, shape.chunks)?;
    for line in 0..shape.chunks {
        let start = starts[line as usize];
        let full = survey_line(
            alloc,
            units,
            shape,
            buffer,
            &mut survey.count,
            mount,
            line,
            start,
        )?;
        survey.push(start, full)?;
    }
    Ok(survey)
}

// Reads what a line bears, whose front tells this, and counts it. Answers whether its end record is
// whole.
fn survey_line<U: Unit>(
    alloc: Global,
    units: &mut [U],
    shape: &Shape,
    buffer: &mut LineBuffer,
    count: &mut Count,
    mount: &Mount,
    line: u32,
    start: LineStart,
) -> Result<bool, ScanErr>
    requires accepted { IsAccepted shape.now }
    requires fit { AreFit shape.now (map U.model units.old) }
    requires closed { NoneOpen (image_of shape.now (map U.model units.old)) }
    requires size { buffer.old.size ≡ shape.now.sector }
    requires line { line < shape.now.chunks }
    requires mount { IsMountOf (image_of shape.now (map U.model units.old)) mount.now }
    requires start { start ≡ line_start (image_of shape.now (map U.model units.old)) line }
    requires count { IsCountTo (image_of shape.now (map U.model units.old)) line count.old }
    ensures full { let i = image_of shape.now (map U.model units.old)
        in IfOk result (λ full. full ≡ is_full i line) }
    ensures count { let i = image_of shape.now (map U.model units.old)
        in OnOk result (IsCountTo i (line + 1) count.new) }
    ensures size { buffer.new.size ≡ buffer.old.size }
    ensures fetched { let i = image_of shape.now (map U.model units.old)
        in WereFewFetched shape.now (map U.model units.old) (map U.model units.new)
        (error_of result) (only_of line (most_behind i line)) }
    ensures kept { AreKept (map U.model units.old) (map U.model units.new) }
    ensures wear { map U.wear units.new ≡ map U.wear units.old }
{
    let Some(seq) = start.seq else {
        return Ok(false);
    };
    let online = online_units(units, shape, line);
    let Some(end) = read_end(alloc, units, shape, buffer, line, seq, online)? else {
        count_marks(alloc, units, shape, count, mount, line, seq, online)?;
        return Ok(false);
    };
    count_pairs(units, shape, count, mount, line, seq, online, &end)?;
    Ok(true)
}

// Reads the end record of a line with this sequence number.
fn read_end<U: Unit>(
    alloc: Global,
    units: &mut [U],
    shape: &Shape,
    buffer: &mut LineBuffer,
    line: u32,
    seq: u64,
    online: LineUnits,
) -> Result<Option<EndRecord>, ScanErr>
    requires accepted { IsAccepted shape.now }
    requires fit { AreFit shape.now (map U.model units.old) }
    requires closed { NoneOpen (image_of shape.now (map U.model units.old)) }
    requires size { buffer.old.size ≡ shape.now.sector }
    requires line { line < shape.now.chunks }
    requires online { let i = image_of shape.now (map U.model units.old)
        in units_in online ≡ line_units i line }
    requires below { online < 2 ^ unit_count shape.now }
    ensures end { let i = image_of shape.now (map U.model units.old)
        in (start : HeadRecord) → start.seq ≡ seq
        → IfOk result (λ end. option_map end_numbers end ≡ end_of i line start) }
    ensures size { buffer.new.size ≡ buffer.old.size }
    ensures fetched { WereFewFetched shape.now (map U.model units.old) (map U.model units.new)
        (error_of result) (only_of line (end_len shape.now (length (units_in online)))) }
    ensures kept { AreKept (map U.model units.old) (map U.model units.new) }
    ensures wear { map U.wear units.new ≡ map U.wear units.old }
{
    let layout = Layout::new(shape);
    let width = online.width();
    let len = width * shape.clba;
    let from = len.saturating_sub(layout.end_len(width));
    fetch_run(buffer, units, shape, line, online, from, len)?;
    let blocks = buffer.blocks(alloc)?;
    let end = end_in(alloc, &layout, line, width, seq, &blocks)?;
    Ok(end)
}

// Counts the written blocks of a line by the marks of its end record, and fetches nothing.
fn count_pairs<U: Unit>(
    units: &[U],
    shape: &Shape,
    count: &mut Count,
    mount: &Mount,
    line: u32,
    seq: u64,
    online: LineUnits,
    end: &EndRecord,
) -> Result<(), AllocError>
    requires accepted { IsAccepted shape.now }
    requires fit { AreFit shape.now (map U.model units.now) }
    requires closed { NoneOpen (image_of shape.now (map U.model units.now)) }
    requires line { line < shape.now.chunks }
    requires mount { IsMountOf (image_of shape.now (map U.model units.now)) mount.now }
    requires online { let i = image_of shape.now (map U.model units.now)
        in units_in online ≡ line_units i line }
    requires below { online < 2 ^ unit_count shape.now }
    requires seq { let i = image_of shape.now (map U.model units.now)
        in option_map (λ r. r.seq) (start_of i line) ≡ Some seq }
    requires end { let i = image_of shape.now (map U.model units.now)
        in (start : HeadRecord) → start.seq ≡ seq
        → end_of i line start ≡ Some (end_numbers end.now) }
    requires count { IsCountTo (image_of shape.now (map U.model units.now)) line count.old }
    ensures count { let i = image_of shape.now (map U.model units.now)
        in OnOk result (IsCountTo i (line + 1) count.new) }
{
    let layout = Layout::new(shape);
    for at in 0..online.width() * shape.clba {
        let (unit, block) = layout.place(online.bits(), at);
        if is_written(units, shape, line, unit, block) {
            count_block(count, mount, shape, line, seq, at, pair_at(shape, end, at))?;
        }
    }
    Ok(())
}

// Counts the written blocks of a line by their own marks.
fn count_marks<U: Unit>(
    alloc: Global,
    units: &mut [U],
    shape: &Shape,
    count: &mut Count,
    mount: &Mount,
    line: u32,
    seq: u64,
    online: LineUnits,
) -> Result<(), ScanErr>
    requires accepted { IsAccepted shape.now }
    requires fit { AreFit shape.now (map U.model units.old) }
    requires closed { NoneOpen (image_of shape.now (map U.model units.old)) }
    requires line { line < shape.now.chunks }
    requires mount { IsMountOf (image_of shape.now (map U.model units.old)) mount.now }
    requires online { let i = image_of shape.now (map U.model units.old)
        in units_in online ≡ line_units i line }
    requires below { online < 2 ^ unit_count shape.now }
    requires seq { let i = image_of shape.now (map U.model units.old)
        in option_map (λ r. r.seq) (start_of i line) ≡ Some seq }
    requires end { let i = image_of shape.now (map U.model units.old)
        in (start : HeadRecord) → start.seq ≡ seq
        → end_of i line start ≡ None }
    requires count { IsCountTo (image_of shape.now (map U.model units.old)) line count.old }
    ensures count { let i = image_of shape.now (map U.model units.old)
        in OnOk result (IsCountTo i (line + 1) count.new) }
    ensures fetched { let i = image_of shape.now (map U.model units.old)
        in WereFewFetched shape.now (map U.model units.old) (map U.model units.new)
        (error_of result) (only_of line (written_in i line)) }
    ensures kept { AreKept (map U.model units.old) (map U.model units.new) }
    ensures wear { map U.wear units.new ≡ map U.wear units.old }
{
    let layout = Layout::new(shape);
    let mut sector = vec![in alloc; 0; shape.sector as usize]?;
    let out = sector.as_mut_slice();
    for at in 0..online.width() * shape.clba {
        let (unit, block) = layout.place(online.bits(), at);
        let mark = fetch_mark(units, shape, line, unit, block, out)?;
        count_block(count, mount, shape, line, seq, at, mark)?;
    }
    Ok(())
}
