//! The newest counted record of each sector.

ghost use Rattle.std.specs.Prelude.{◌≡◌, ◌++◌, [], ◌∷◌, ◌==◌, if◌then◌else◌, ℕ, List, Option, length, map, filter, Some, IfOk};
ghost use Rattle.std.specs.List.{filter_map, list_any, range_with_len};
ghost use Rattle.std.specs.Option.{option_map};
ghost use Rattle.pblk_model.specs.Contents.{counted, counts, end, head, newer, winner};
ghost use Rattle.pblk_model.specs.ImageFile.{image_of};
ghost use Rattle.pblk_model.specs.Records.{Record as Borne};
ghost use Rattle.pblk_meta.specs.Records.{row_numbers, start_numbers};
ghost use Rattle.ocssd_drive.specs.Drive.{stored};
ghost use Rattle.image_check.specs.Right.{live_in, win_by, wins_of};
ghost use Rattle.pblk_model.specs.Tables.{IsTable};
ghost use Rattle.image_check.specs.Counting.{bounds};

use crate::certificate::{LineEntry, LiveCount};
use crate::line::Line;
use crate::record::Record;
use crate::table::none_of;
use ocssd_drive::Drive;
use pblk_meta::{Row, StartRecord};
use pblk_model::Winner;
use std::alloc::{AllocError, Global};

/// The newest counted record of each sector that has one, by lba. The head and the end are those of
/// the image.
pub(crate) fn wins_of(
    alloc: Global,
    drive: &Drive,
    newest: &Option<StartRecord>,
    last: u64,
) -> Result<Vec<Winner>, AllocError>
    requires head { option_map start_numbers newest.now ≡ head (image_of (stored drive.now)) }
    requires end { last ≡ end (image_of (stored drive.now)) }
    ensures { IfOk result (λ v. v.items ≡ wins_of (image_of (stored drive.now))) }
{
    match newest {
        None => Ok(Vec::new(alloc)),
        Some(head) => {
            let best = best_of(alloc, drive, head, last)?;
            places_of(alloc, &best)
        }
    }
}

// The newest counted record of each sector.
fn best_of<'a>(
    alloc: Global,
    drive: &'a Drive,
    newest: &StartRecord,
    last: u64,
) -> Result<Vec<Option<Record<'a>>>, AllocError>
    requires head { Some (start_numbers newest.now) ≡ head (image_of (stored drive.now)) }
    requires end { last ≡ end (image_of (stored drive.now)) }
    ensures { let i = image_of (stored drive.now)
        in IfOk result (λ v. IsTable i.shape.capacity (winner (counted i)) v.items) }
{
    let shape = drive.shape();
    let mut best = none_of(alloc, shape.capacity as usize)?;
    for number in 0..shape.chunks {
        let line = Line::new(drive, number);
        let records = line.records(alloc)?;
        note_all(&mut best, newest, last, &records);
    }
    Ok(best)
}

// Some records more, of which those that count are noted.
fn note_all<'a>(
    best: &mut [Option<Record<'a>>],
    newest: &StartRecord,
    last: u64,
    more: &[Record<'a>],
)
    ensures { let count = counts (start_numbers newest.now) last
        in (n : ℕ) (rs : List Borne) → IsTable n (winner (filter count rs)) best.old
        → IsTable n (winner (filter count (rs ++ more.now))) best.new }
{
    for record in more {
        if counts(newest, last, record) {
            note(best, record);
        }
    }
}

// A counted record more.
fn note<'a>(best: &mut [Option<Record<'a>>], record: &Record<'a>)
    ensures { (n : ℕ) (rs : List Borne) → IsTable n (winner rs) best.old
        → IsTable n (winner (rs ++ record.now ∷ [])) best.new }
{
    let Some(lba) = record.lba else {
        return;
    };
    let place = lba as usize;
    if place < best.len() && is_newest(&best[place], record) {
        best[place] = Some(record.again());
    }
}

// Whether a record is newer than the best so far.
fn is_newest(best: &Option<Record<'_>>, record: &Record<'_>) -> bool
    ensures { newer best.now record.now ≡ (if result then Some record.now else best.now) }
{
    match best {
        None => true,
        Some(best) => best.is_older_than(record),
    }
}

// Whether a record counts: its line is of the head's mount and its position below the end, or the
// head has a row of its line and sequence number, and its position is below that row's bound.
fn counts(newest: &StartRecord, last: u64, record: &Record<'_>) -> bool
    ensures { result ≡ counts (start_numbers newest.now) last record.now }
{
    (newest.first_seq <= record.seq && record.position < last)
        || is_below_row(newest.rows.as_slice(), record)
}

// Whether a row is of the record's line and sequence number, and the record's position is below its
// bound.
fn is_below_row(rows: &[Row], record: &Record<'_>) -> bool
    ensures { result ≡ list_any (bounds record.now) (map row_numbers rows.now) }
{
    for row in rows {
        if row.line == record.line && row.seq == record.seq && record.position < row.bound {
            return true;
        }
    }
    false
}

// Where the records of a table stand, by lba.
fn places_of(alloc: Global, best: &[Option<Record<'_>>]) -> Result<Vec<Winner>, AllocError>
    ensures { (f : ℕ → Option Borne) → IsTable (length best.now) f best.now
        → IfOk result (λ v. v.items
        ≡ filter_map (λ lba. win_by lba (f lba)) (range_with_len 0 (length best.now))) }
{
    let mut wins = Vec::new(alloc);
    for lba in 0..best.len() {
        if let Some(record) = &best[lba] {
            wins.push(Winner {
                lba: lba as u64,
                position: record.position,
                line: record.line,
                at: record.at,
            })?;
        }
    }
    Ok(wins)
}

/// For each of these lines how many of these places are in it.
pub(crate) fn lives_of(
    alloc: Global,
    lines: &[LineEntry],
    wins: &[Winner],
) -> Result<Vec<LiveCount>, AllocError>
    ensures { IfOk result (λ v. v.items ≡ map (live_in wins.now) lines.now) }
{
    let mut lives = Vec::with_capacity(alloc, lines.len())?;
    for entry in lines {
        let line = entry.line;
        let count = count_in(wins, line);
        lives.push(LiveCount { line, count })?;
    }
    Ok(lives)
}

// How many places are in a line.
fn count_in(wins: &[Winner], line: u32) -> u64
    ensures { result ≡ length (filter (λ w. w.line == line) wins.now) }
{
    let mut count = 0;
    for win in wins {
        if win.line == line {
            count += 1;
        }
    }
    count
}
