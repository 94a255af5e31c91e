//! What the image of a drive holds for its user (Bjørling, González, Bonnet, FAST 2017, recovery).

ghost use Rattle.std.specs.Prelude.{◌≡◌, ◌+◌, ◌*◌, ◌<◌, Some, length, map, IfOk, IfSome, OnOk};
ghost use Rattle.std.specs.List.{filter, flat_map, range_with_len};
ghost use Rattle.std.specs.Option.{is_some, option_map};
ghost use Rattle.pblk_model.specs.Accepted.{IsAccepted};
ghost use Rattle.pblk_model.specs.Contents.{sector_of};
ghost use Rattle.pblk_model.specs.Image.{IsFit};
ghost use Rattle.pblk_model.specs.ImageFile.{image_of};
ghost use Rattle.pblk_model.specs.EndRecord.{end_of};
ghost use Rattle.pblk_model.specs.StartRecord.{StartRecord as HeadRecord, start_of};
ghost use Rattle.pblk_meta.specs.Records.{end_numbers, start_numbers};
ghost use Rattle.ocssd_drive.specs.Drive.{stored};
ghost use Rattle.scan_recovery.specs.Held.{IsHeld, held_by, thin_winner};
ghost use Rattle.scan_recovery.specs.Holding.{IsContentsOf, IsSummaryOf, head_of};
ghost use Rattle.scan_recovery.specs.Mounts.{IsMountOf};
ghost use Rattle.scan_recovery.specs.Reading.{mark_of};
ghost use Rattle.scan_recovery.specs.Starts.{IsStarts, line_start};
ghost use Rattle.scan_recovery.specs.Survey.{IsCountTo};
ghost use Rattle.pblk_model.specs.Tables.{IsTable};
ghost use Rattle.scan_recovery.specs.Traces.{bare};

use crate::counting::Count;
use crate::line_records::{count_block, end_in, pair_at};
use crate::media::Media;
use crate::mount::Mount;
use crate::sectors::{Contents, Head, Sectors, Summary};
use crate::starts::{LineStart, Starts};
use crate::trace::Trace;
use ocssd_drive::Drive;
use pblk_layout::Layout;
use pblk_meta::{EndRecord, StartRecord};
use pblk_model::{Mark, Shape};
use std::alloc::{AllocError, Global};

/// What the image of a drive holds: the user sectors, each the newest of its records that count,
/// and where the mount of its newest start record ends (Bjørling, González, Bonnet, FAST 2017,
/// recovery).
///
/// The blocks are looked at where they lie, those of Open chunks too, which can't all be fetched:
/// the records of all lines, and each written block of those without a whole end record. No unit is
/// commanded, and the drive stays as it is. Fails only for want of memory: beside the sectors, each
/// of which is copied once, it takes as much as `summary`.
pub fn contents(alloc: Global, drive: &Drive) -> Result<Contents, AllocError>
    ensures { IfOk result (IsContentsOf (image_of (stored drive.now))) }
{
    let media = Media::new(alloc, drive)?;
    let held = held_in(alloc, &media)?;
    let shape = media.shape();
    let bytes = sector_bytes(alloc, &media, &held.winners)?;
    Ok(Contents {
        sectors: Sectors::new(bytes, shape.sector, shape.capacity),
        end: held.summary.end,
    })
}

/// What the image of a drive holds, but for the user sectors: `contents` without them. No sector is
/// copied.
///
/// Fails only for want of memory, of which it takes a few dozen bytes for a user sector, for a line
/// and for a block whose position is past the front of the newest start record.
pub fn summary(alloc: Global, drive: &Drive) -> Result<Summary, AllocError>
    ensures { IfOk result (IsSummaryOf (image_of (stored drive.now))) }
{
    let media = Media::new(alloc, drive)?;
    let held = held_in(alloc, &media)?;
    Ok(held.summary)
}

// The newest of the records that count of each sector, and the rest of what an image holds.
#[derive(Debug, Drop)]
pub(crate) struct Held {
    pub winners: Vec<Option<Trace>>,
    pub summary: Summary,
}

// What an image holds, but for the sectors' bytes.
fn held_in(alloc: Global, media: &Media<'_>) -> Result<Held, AllocError>
    requires accepted { IsAccepted media.now.shape }
    requires fit { IsFit media.now }
    ensures { IfOk result (IsHeld media.now) }
{
    let shape = media.shape();
    let starts = starts_of(alloc, media)?;
    let mount = Mount::new(alloc, starts.head, shape.chunks)?;
    let count = count_of(alloc, media, &starts.lines, &mount)?;
    let counted = count.finish(alloc, &mount)?;
    let summary = Summary {
        end: counted.end,
        counted: counted.tally.named,
        live: live_in(&counted.tally.winners),
        head: head_in(&mount.head),
    };
    Ok(Held {
        winners: counted.tally.winners,
        summary,
    })
}

// The fronts of the lines.
fn starts_of(alloc: Global, media: &Media<'_>) -> Result<Starts, AllocError>
    requires accepted { IsAccepted media.now.shape }
    requires fit { IsFit media.now }
    ensures { IfOk result (IsStarts media.now media.now.shape.chunks) }
{
    let shape = media.shape();
    let layout = Layout::new(&shape);
    let mut starts = Starts::new(alloc);
    for line in 0..shape.chunks {
        add_front(alloc, &mut starts, media, &layout, line)?;
    }
    Ok(starts)
}

// Adds the front of a line.
fn add_front(
    alloc: Global,
    starts: &mut Starts,
    media: &Media<'_>,
    layout: &Layout,
    line: u32,
) -> Result<(), AllocError>
    requires layout { layout.now ≡ media.now.shape }
    requires accepted { IsAccepted media.now.shape }
    requires fit { IsFit media.now }
    requires line { line < media.now.shape.chunks }
    requires starts { IsStarts media.now line starts.old }
    ensures { OnOk result (IsStarts media.now (line + 1) starts.new) }
{
    let used = media.is_used(line);
    let to = layout.start_len().min(media.len(line));
    let blocks = media.blocks(alloc, line, 0, to)?;
    starts.add(alloc, layout, line, media.width(line), used, &blocks)
}

// What the records of the lines come to, of whose fronts these were read.
fn count_of(
    alloc: Global,
    media: &Media<'_>,
    starts: &[LineStart],
    mount: &Mount,
) -> Result<Count, AllocError>
    requires accepted { IsAccepted media.now.shape }
    requires fit { IsFit media.now }
    requires starts { IsTable media.now.shape.chunks (line_start media.now) starts.now }
    requires mount { IsMountOf media.now mount.now }
    ensures { IfOk result (IsCountTo media.now media.now.shape.chunks) }
{
    let shape = media.shape();
    let layout = Layout::new(&shape);
    let mut count = Count::new(alloc, shape.capacity, shape.chunks)?;
    for line in 0..shape.chunks {
        count_line(
            alloc,
            &mut count,
            media,
            &layout,
            mount,
            line,
            starts[line as usize],
        )?;
    }
    Ok(count)
}

// Counts what a line bears, whose front tells this.
fn count_line(
    alloc: Global,
    count: &mut Count,
    media: &Media<'_>,
    layout: &Layout,
    mount: &Mount,
    line: u32,
    start: LineStart,
) -> Result<(), AllocError>
    requires layout { layout.now ≡ media.now.shape }
    requires accepted { IsAccepted media.now.shape }
    requires fit { IsFit media.now }
    requires line { line < media.now.shape.chunks }
    requires mount { IsMountOf media.now mount.now }
    requires start { start ≡ line_start media.now line }
    requires count { IsCountTo media.now line count.old }
    ensures { OnOk result (IsCountTo media.now (line + 1) count.new) }
{
    let Some(seq) = start.seq else {
        return Ok(());
    };
    let len = media.len(line);
    let width = media.width(line);
    let from = len.saturating_sub(layout.end_len(width));
    let blocks = media.blocks(alloc, line, from, len)?;
    let end = end_in(alloc, layout, line, width, seq, &blocks)?;
    count_blocks(count, media, layout, mount, line, seq, &end)
}

// Counts what the blocks of a line bear, which has this sequence number and this end record.
fn count_blocks(
    count: &mut Count,
    media: &Media<'_>,
    layout: &Layout,
    mount: &Mount,
    line: u32,
    seq: u64,
    end: &Option<EndRecord>,
) -> Result<(), AllocError>
    requires layout { layout.now ≡ media.now.shape }
    requires accepted { IsAccepted media.now.shape }
    requires line { line < media.now.shape.chunks }
    requires mount { IsMountOf media.now mount.now }
    requires seq { option_map (λ r. r.seq) (start_of media.now line) ≡ Some seq }
    requires end { (start : HeadRecord) → start.seq ≡ seq
        → end_of media.now line start ≡ option_map end_numbers end.now }
    requires count { IsCountTo media.now line count.old }
    ensures { OnOk result (IsCountTo media.now (line + 1) count.new) }
{
    for at in 0..media.len(line) {
        let mark = mark_of(media, layout.shape(), end, line, at);
        count_block(count, mount, layout.shape(), line, seq, at, mark)?;
    }
    Ok(())
}

// The mark that the block at a line address counts with, if it is written and has one: that of the
// line's end record where that is whole, and then the block isn't looked at; else its own.
fn mark_of(
    media: &Media<'_>,
    shape: &Shape,
    end: &Option<EndRecord>,
    line: u32,
    at: u32,
) -> Option<Mark>
    requires shape { shape.now ≡ media.now.shape }
    requires accepted { IsAccepted shape.now }
    requires line { line < media.now.shape.chunks }
    ensures { result ≡ mark_of media.now line (option_map end_numbers end.now) at }
{
    match end {
        None => {
            let block = media.block(line, at)?;
            Some(block.mark)
        }
        Some(end) => {
            if media.is_written(line, at) {
                pair_at(shape, end, at)
            } else {
                None
            }
        }
    }
}

fn head_in(head: &Option<StartRecord>) -> Option<Head>
    ensures { result ≡ option_map head_of (option_map start_numbers head.now) }
{
    match head {
        None => None,
        Some(head) => Some(Head {
            line: head.line,
            seq: head.seq,
        }),
    }
}

// How many sectors have a record that counts, by a table of the newest of each.
fn live_in(winners: &[Option<Trace>]) -> u64
    ensures { result ≡ length (filter is_some winners.now) }
{
    let mut live = 0;
    for winner in winners {
        if winner.is_some() {
            live += 1;
        }
    }
    live
}

// The bytes of the user sectors, one after another: each is copied from the block of its newest
// record that counts.
fn sector_bytes(
    alloc: Global,
    media: &Media<'_>,
    winners: &[Option<Trace>],
) -> Result<Vec<u8>, AllocError>
    requires accepted { IsAccepted media.now.shape }
    requires fit { IsFit media.now }
    requires winners { IsTable media.now.shape.capacity (thin_winner media.now)
        (map (option_map bare) winners.now) }
    ensures bytes { let capacity = media.now.shape.capacity
        in IfOk result (λ v. v.items ≡ flat_map (sector_of media.now) (range_with_len 0 capacity)) }
    ensures size { let size = media.now.shape.capacity * media.now.shape.sector
        in IfOk result (λ v. length v.items ≡ size) }
{
    let size = media.shape().sector as usize;
    let zeros = vec![in alloc; 0; size]?;
    let mut bytes = Vec::with_capacity(alloc, winners.len() * size)?;
    for winner in winners {
        bytes.extend_from_slice(sector_at(&*media, winner, &zeros))?;
    }
    Ok(bytes)
}

// The sector of a record's block; zeros for none.
fn sector_at<'a>(media: &'a Media<'_>, winner: &Option<Trace>, zeros: &'a [u8]) -> &'a [u8]
    requires { IfSome winner.now (λ t. t.line < media.now.shape.chunks) }
    ensures { result.now ≡ held_by media.now zeros.now winner.now }
{
    let Some(t) = winner else {
        return zeros;
    };
    match media.block(t.line, t.at) {
        Some(block) => block.sector,
        None => zeros,
    }
}
