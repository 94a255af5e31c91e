//! What a survey of all lines comes to.

ghost use Rattle.std.specs.Prelude.{◌≡◌, ◌&&◌, not, ◌<◌, ◌≤◌, ◌^◌, ℕ, map, length, Option, IfOk};
ghost use Rattle.std.specs.List.{AllByRecursion, filter, filter_map, range_with_len};
ghost use Rattle.std.specs.Option.{is_some, option_map, option_map_or};
ghost use Rattle.pblk_model.specs.Accepted.{IsAccepted};
ghost use Rattle.pblk_model.specs.Image.{Image, IsFit};
ghost use Rattle.pblk_model.specs.Records.{Record};
ghost use Rattle.pblk_meta.specs.Records.{row_numbers, start_numbers};
ghost use Rattle.pblk_world.specs.Lines.{is_stray};
ghost use Rattle.world_laws.specs.Finding.{IsFoundOf, is_young, taken_states, winner_with};
ghost use Rattle.scan_recovery.specs.Find.{bound_from, row_from};
ghost use Rattle.scan_recovery.specs.Mounts.{IsMount, IsMountOf};
ghost use Rattle.scan_recovery.specs.Survey.{IsSurvey, seen_line};
ghost use Rattle.pblk_model.specs.Tables.{IsTable};
ghost use Rattle.scan_recovery.specs.Traces.{bare};

use crate::mount::Mount;
use crate::survey::{SeenLine, Survey};
use crate::trace::Trace;
use pblk_meta::{Row, StartRecord};
use pblk_model::{ChunkState, Found, Items, LineRow, Shape, Winner};
use std::alloc::{AllocError, Global};

/// What is found of an image whose lines were surveyed and whose chunks have these states, by unit
/// and then by chunk.
pub(crate) fn found_of(
    alloc: Global,
    shape: &Shape,
    survey: Survey,
    mount: &Mount,
    chunks: Vec<ChunkState>,
) -> Result<Found, AllocError>
    requires accepted { IsAccepted shape.now }
    requires mount { IsMount mount.now }
    requires rows { length mount.now.rows.items ≡ shape.now.chunks }
    requires lines { length survey.lines.items ≡ shape.now.chunks }
    requires tops { length survey.count.tally.tops.items ≡ shape.now.chunks }
    requires few { length survey.count.late.items ≤ 2 ^ 26 }
    requires within { AllByRecursion (λ t. t.line < shape.now.chunks) survey.count.late.items }
    ensures { (i : Image) → IsFit i → i.shape ≡ shape.now
        → IsMountOf i mount.now → IsSurvey i shape.now.chunks survey
        → chunks.items ≡ taken_states i
        → IfOk result (IsFoundOf i) }
{
    let counted = survey.count.finish(alloc, mount)?;
    let winners = winners_in(alloc, &counted.tally.winners)?;
    let strays = strays_in(alloc, &survey.lines)?;
    let head = &mount.head;
    let lines = line_rows(alloc, &survey.lines, head, &mount.rows, &counted.tally.tops)?;
    Ok(Found {
        winners: Items::from_vec(winners),
        head: line_of(head),
        front: front_of(head),
        end: counted.end,
        strays: Items::from_vec(strays),
        chunks: Items::from_vec(chunks),
        lines: Items::from_vec(lines),
    })
}

fn line_of(head: &Option<StartRecord>) -> Option<u32>
    ensures { result ≡ option_map (λ h. h.line) (option_map start_numbers head.now) }
{
    match head {
        None => None,
        Some(head) => Some(head.line),
    }
}

fn front_of(head: &Option<StartRecord>) -> u64
    ensures { result ≡ option_map_or (λ h. h.front) (option_map start_numbers head.now) 0 }
{
    match head {
        None => 0,
        Some(head) => head.front,
    }
}

// The winners of a table by sector, by rising lba.
fn winners_in(alloc: Global, best: &[Option<Trace>]) -> Result<Vec<Winner>, AllocError>
    ensures { (f : ℕ → Option Record) → IsTable (length best.now) f (map (option_map bare) best.now)
        → IfOk result (λ v. v.items
        ≡ filter_map (λ lba. option_map (winner_with lba) (f lba))
        (range_with_len 0 (length best.now))) }
{
    let mut winners = Vec::new(alloc);
    for (lba, best) in best.iter().enumerate() {
        if let Some(t) = best {
            winners.push(Winner {
                lba: lba as u64,
                position: t.position,
                line: t.line,
                at: t.at,
            })?;
        }
    }
    Ok(winners)
}

// The lines without a sequence number that have a chunk neither Free nor Offline.
fn strays_in(alloc: Global, lines: &[SeenLine]) -> Result<Vec<u32>, AllocError>
    requires { length lines.now < 2 ^ 32 }
    ensures { (i : Image) → IsTable (length lines.now) (seen_line i) lines.now
        → IfOk result (λ v. v.items ≡ filter (is_stray i) (range_with_len 0 (length lines.now))) }
{
    let mut strays = Vec::new(alloc);
    for (line, seen) in lines.iter().enumerate() {
        if is_stray(seen) {
            strays.push(line as u32)?;
        }
    }
    Ok(strays)
}

fn is_stray(seen: &SeenLine) -> bool
    ensures { result ≡ (not (is_some seen.now.seq) && seen.now.used) }
{
    seen.seq.is_none() && seen.used
}

// A row for each line, from what was seen of it, the head's row of it, and its top.
fn line_rows(
    alloc: Global,
    lines: &[SeenLine],
    head: &Option<StartRecord>,
    rows: &[Option<Row>],
    tops: &[u64],
) -> Result<Vec<LineRow>, AllocError>
    requires rows { length rows.now ≡ length lines.now }
    requires tops { length tops.now ≡ length lines.now }
    ensures { let h = option_map start_numbers head.now
        in let rs = map (option_map row_numbers) rows.now
        in IfOk result
        (λ v. IsTable (length lines.now) (λ k. row_from lines.now h rs tops.now k) v.items) }
{
    let mut found = Vec::new(alloc);
    for line in 0..lines.len() {
        let seen = lines[line];
        found.push(LineRow {
            seq: seen.seq,
            bound: bound_of(&rows[line], seen.seq),
            top: tops[line],
            full: seen.full,
            young: is_young(head, seen.seq),
        })?;
    }
    Ok(found)
}

// The bound of a line with this sequence number, by the head's row of it.
fn bound_of(row: &Option<Row>, seq: Option<u64>) -> u64
    ensures { result ≡ bound_from (option_map row_numbers row.now) seq }
{
    match (row, seq) {
        (Some(row), Some(seq)) => { if row.seq == seq { row.bound } else { 0 } }
        _ => 0,
    }
}

// Whether a line's sequence number is at least the head's first one.
fn is_young(head: &Option<StartRecord>, seq: Option<u64>) -> bool
    ensures { result ≡ is_young (option_map start_numbers head.now) seq }
{
    match (head, seq) {
        (Some(head), Some(seq)) => head.first_seq <= seq,
        _ => false,
    }
}
