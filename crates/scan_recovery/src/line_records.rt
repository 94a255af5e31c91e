//! What the blocks of a line bear, once they were read.

ghost use Rattle.std.specs.Prelude.{ℕ, List, [], ◌≡◌, ◌<◌, ◌≤◌, ◌^◌, ◌++◌, ◌&&◌, ◌==◌, length, false, IfOk, OnOk, IfSome};
ghost use Rattle.std.specs.List.{cons_option};
ghost use Rattle.std.specs.Option.{option_and_then, option_map, option_map_or};
ghost use Rattle.pblk_model.specs.Accepted.{IsAccepted};
ghost use Rattle.pblk_model.specs.Shape.{units};
ghost use Rattle.pblk_model.specs.Marks.{meta_lba};
ghost use Rattle.pblk_model.specs.Records.{Record, named};
ghost use Rattle.pblk_meta.specs.Records.{end_numbers, start_numbers};
ghost use Rattle.scan_recovery.specs.Mounts.{IsCount, IsMount, head_of, marked};
ghost use Rattle.scan_recovery.specs.Reading.{have_mark, sectors_of, start_among, end_among, pair_at};
ghost use Rattle.scan_recovery.specs.Tally.{HasStartFits};
ghost use Rattle.scan_recovery.specs.Traces.{bare};

use crate::counting::Count;
use crate::mount::Mount;
use crate::trace::Trace;
use pblk_layout::Layout;
use pblk_meta::{EndRecord, StartRecord};
use pblk_model::{Mark, Shape};
use std::alloc::{AllocError, Global};
use std::marker::Model;

/// A written block, wherever it lies: a sector with its mark. Contracts see the model's `Block`.
#[derive(Debug, Drop)]
pub(crate) struct Block<'a> {
    pub sector: &'a [u8],
    pub mark: Mark,
}

impl<'a> Model for Block<'a> {
    ghost use Rattle.pblk_model.specs.Chunk.{Block as Written};

    ghost Value = { Written };

    ghost view = { λ a. record { sector = a.sector.now; mark = a.mark } };
}

// The sectors of blocks one after another, where all of them are written.
fn sectors_of(alloc: Global, run: &[Option<Block<'_>>]) -> Result<Option<Vec<u8>>, AllocError>
    ensures { IfOk result (λ o. option_map (λ v. v.items) o ≡ sectors_of run.now) }
{
    let mut bytes = Vec::new(alloc);
    for block in run {
        match block {
            None => return Ok(None),
            Some(block) => bytes.extend_from_slice(block.sector)?,
        }
    }
    Ok(Some(bytes))
}

// Whether a block is written and has the mark of a record of this sequence number.
fn has_mark(seq: u64, block: &Option<Block<'_>>) -> bool
    ensures { result
        ≡ option_map_or (λ b. (b.mark.lba == meta_lba)
        && (b.mark.position == seq)) block.now false }
{
    match block {
        None => false,
        Some(block) => block.mark.lba == Mark::META_LBA && block.mark.position == seq,
    }
}

// Whether all blocks do.
fn have_mark(seq: u64, run: &[Option<Block<'_>>]) -> bool
    ensures { result ≡ have_mark seq run.now }
{
    for block in run {
        if !has_mark(seq, block) {
            return false;
        }
    }
    true
}

/// The start record of a line of this width with these blocks, where it is whole.
pub(crate) fn start_in(
    alloc: Global,
    layout: &Layout,
    line: u32,
    width: u32,
    blocks: &[Option<Block<'_>>],
) -> Result<Option<StartRecord>, AllocError>
    requires line { line < layout.now.chunks }
    requires width { width ≤ units layout.now }
    ensures start { IfOk result (λ o. option_map start_numbers o
        ≡ start_among layout.now line width blocks.now) }
    ensures fits { IfOk result (λ o. IfSome o HasStartFits) }
{
    let len = layout.start_len() as usize;
    if blocks.len() < len {
        return Ok(None);
    }
    let run = &blocks[..len];
    let Some(bytes) = sectors_of(alloc, run)? else {
        return Ok(None);
    };
    let Some(start) = StartRecord::read(alloc, &bytes, layout, line, width)? else {
        return Ok(None);
    };
    if !have_mark(start.seq, run) {
        return Ok(None);
    }
    Ok(Some(start))
}

/// The end record of a line of this width and sequence number with these blocks, where it is whole.
pub(crate) fn end_in(
    alloc: Global,
    layout: &Layout,
    line: u32,
    width: u32,
    seq: u64,
    blocks: &[Option<Block<'_>>],
) -> Result<Option<EndRecord>, AllocError>
    requires width { width ≤ units layout.now }
    ensures end { IfOk result (λ o. option_map end_numbers o
        ≡ end_among layout.now line width seq blocks.now) }
{
    let len = layout.end_len(width) as usize;
    if blocks.len() < len {
        return Ok(None);
    }
    let run = &blocks[blocks.len() - len..];
    if !have_mark(seq, run) {
        return Ok(None);
    }
    let Some(bytes) = sectors_of(alloc, run)? else {
        return Ok(None);
    };
    EndRecord::read(alloc, &bytes, layout, line, width, seq)
}

/// The mark that the end record of a line has for the block at a line address, if it has one.
pub(crate) fn pair_at(shape: &Shape, end: &EndRecord, at: u32) -> Option<Mark>
    requires { IsAccepted shape.now }
    ensures { result ≡ pair_at shape.now (end_numbers end.now) at }
{
    let start = shape.start_len();
    if at < start {
        None
    } else {
        end.pairs.as_slice().get((at - start) as usize).copied()
    }
}

// The sector that a mark names: none for a position that was given up, and nothing for all else.
fn named(shape: &Shape, mark: Mark) -> Option<Option<u64>>
    ensures { result ≡ named shape.now mark }
{
    if mark.lba < shape.capacity {
        Some(Some(mark.lba))
    } else if mark.lba == Mark::VOID_LBA {
        Some(None)
    } else {
        None
    }
}

// What a block at a line address bears by the mark that it counts with.
fn trace_at(shape: &Shape, line: u32, seq: u64, at: u32, mark: Mark) -> Option<Trace>
    ensures { option_map bare result ≡ marked shape.now line seq at mark }
{
    let lba = named(shape, mark)?;
    Some(Trace {
        line,
        seq,
        at,
        position: mark.position,
        lba,
    })
}

/// Counts what a block at a line address bears. `mark` is the mark that it counts with, if it is
/// written and has one.
pub(crate) fn count_block(
    count: &mut Count,
    mount: &Mount,
    shape: &Shape,
    line: u32,
    seq: u64,
    at: u32,
    mark: Option<Mark>,
) -> Result<(), AllocError>
    requires mount { IsMount mount.now }
    requires line { line < length mount.now.rows.items }
    requires tops { length count.old.tally.tops.items ≡ length mount.now.rows.items }
    ensures { (sectors : ℕ) (rs : List Record)
        → IsCount sectors (length mount.now.rows.items) (head_of mount.now) rs count.old
        → OnOk result (IsCount sectors (length mount.now.rows.items) (head_of mount.now)
        (rs ++ cons_option (option_and_then (marked shape.now line seq at) mark) []) count.new) }
{
    let Some(mark) = mark else {
        return Ok(());
    };
    if let Some(trace) = trace_at(shape, line, seq, at, mark) {
        count.add(mount, &trace)?;
    }
    Ok(())
}
