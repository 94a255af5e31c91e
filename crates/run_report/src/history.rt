//! The lines of the history, and how many are kept.
ghost use Rattle.std.specs.Prelude.{◌≡◌, ◌+◌, ◌^◌, ◌<◌, ◌≤◌, ◌++◌, OnOk, string_bytes};
ghost use Rattle.std.specs.List.{enumerate_from, flat_map, list_any};
ghost use Rattle.pblk_model.specs.History.{users};
ghost use Rattle.pblk_model.specs.Text.{history_line};
ghost use Rattle.run_report.specs.Rows.{has_placed, is_placed, lines_of, positions_of};
ghost use Rattle.run_report.specs.RowFits.{HasSectors, AreRows};

use crate::rows::Row;
use run_threads::{Answer, Records};
use std::alloc::AllocError;

/// Adds the lines of the history that these rows are.
pub(crate) fn put_history(out: &mut String, rows: &[Row]) -> Result<(), AllocError>
    requires { AreRows rows.now }
    ensures { OnOk result (string_bytes out.new ≡ string_bytes out.old
        ++ flat_map history_line (enumerate_from 0 (flat_map lines_of rows.now))) }
{
    let mut number = 0;
    for row in rows {
        put_row(out, number, row)?;
        number += u64::from(row.count);
    }
    Ok(())
}

// The lines of a row, from this number on.
fn put_row(out: &mut String, number: u64, row: &Row) -> Result<(), AllocError>
    requires sectors { HasSectors row.now }
    requires number { number < 2 ^ 32 }
    ensures { OnOk result (string_bytes out.new ≡ string_bytes out.old
        ++ flat_map history_line (enumerate_from number (lines_of row.now))) }
{
    for sector in 0..row.count {
        let at = u64::from(sector);
        put_line(out, number + at, row.thread, row.lba + at, row.tag)?;
    }
    Ok(())
}

// A line: its number, its thread, its sector and its tag.
fn put_line(
    out: &mut String,
    number: u64,
    thread: usize,
    lba: u64,
    tag: u64,
) -> Result<(), AllocError>
    ensures { OnOk result (string_bytes out.new ≡ string_bytes out.old
        ++ history_line (number, record { thread = thread; lba = lba; tag = tag })) }
{
    writeln!(out, "h {number} {thread} {lba} {tag}")
}

/// Whether a write of a run was answered a place. Where none was, the history is empty, and the
/// transcript is the same whatever the image that the run left holds.
pub fn has_history(records: &Records) -> bool
    ensures { result ≡ has_placed records.now.threads }
{
    for answers in records.threads.as_slice() {
        if has_placed(answers.as_slice()) {
            return true;
        }
    }
    false
}

// Whether one of these answers is a place.
fn has_placed(answers: &[Answer]) -> bool
    ensures { result ≡ list_any is_placed answers.now }
{
    for answer in answers {
        if is_placed(answer) {
            return true;
        }
    }
    false
}

// Whether an answer is a place.
fn is_placed(answer: &Answer) -> bool
    ensures { result ≡ is_placed answer.now }
{
    matches!(answer, Answer::Placed(_))
}

/// How many lines of the history stand at positions below `end`.
pub(crate) fn kept(rows: &[Row], end: u64) -> u64
    requires { AreRows rows.now }
    ensures { result ≡ users (flat_map positions_of rows.now) end }
{
    let mut kept = 0;
    for row in rows {
        kept += kept_of(row, end);
    }
    kept
}

// How many lines of a row stand there.
fn kept_of(row: &Row, end: u64) -> u64
    requires { HasSectors row.now }
    ensures kept { result ≡ users (positions_of row.now) end }
    ensures few { result ≤ 16 }
{
    u64::from(row.count).min(end.saturating_sub(row.first))
}
