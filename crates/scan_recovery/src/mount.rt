//! The head of a drive, and what it knew of older lines.

ghost use Rattle.std.specs.Prelude.{◌≡◌, ◌+◌, ◌<◌, ◌≤◌, ◌^◌, ◌==◌, map, length, IfOk, IfSome};
ghost use Rattle.std.specs.Bool.{OnTrue};
ghost use Rattle.std.specs.List.{find};
ghost use Rattle.std.specs.Option.{option_map};
ghost use Rattle.pblk_meta.specs.Records.{row_numbers, start_numbers};
ghost use Rattle.scan_recovery.specs.Mounts.{IsMount, head_of, is_late, is_settled};
ghost use Rattle.scan_recovery.specs.Tally.{HasStartFits};
ghost use Rattle.pblk_model.specs.Tables.{IsTable};
ghost use Rattle.scan_recovery.specs.Traces.{bare, head_row, is_below_row};

use crate::trace::Trace;
use pblk_meta::{Row, StartRecord};
use std::alloc::{AllocError, Global};

/// The head, the newest start record, and the row that it has of each line, by the line's number.
#[derive(Debug, Drop)]
pub(crate) struct Mount {
    pub head: Option<StartRecord>,
    pub rows: Vec<Option<Row>>,
}

impl Mount {
    /// That of this head, on a drive of so many lines.
    pub(crate) fn new(
        alloc: Global,
        head: Option<StartRecord>,
        lines: u32,
    ) -> Result<Mount, AllocError>
        requires { IfSome head HasStartFits }
        ensures mount { IfOk result IsMount }
        ensures head { IfOk result (λ m. m.head ≡ head) }
        ensures lines { IfOk result (λ m. length m.rows.items ≡ lines) }
    {
        let rows = rows_by_line(alloc, &head, lines)?;
        Ok(Mount { head, rows })
    }

    /// Whether a record counts wherever the positions of the mount end: its line is of the mount
    /// and its position below the head's front, or its line is older, has a row for its sequence
    /// number, and its position is below that row's bound.
    pub(crate) fn is_settled(&self, t: &Trace) -> bool
        requires mount { IsMount self.now }
        requires line { t.now.line < length self.now.rows.items }
        ensures settled { result ≡ is_settled (head_of self.now) (bare t.now) }
        ensures low { OnTrue result (t.now.position + 1 < 2 ^ 64) }
    {
        match &self.head {
            None => false,
            Some(head) => {
                if head.first_seq <= t.seq {
                    t.position < head.front
                } else {
                    is_below(&self.rows[t.line as usize], t)
                }
            }
        }
    }

    /// Whether a record counts only where the positions of the mount end past its own: its line is
    /// of the mount, and its position at or past the head's front.
    pub(crate) fn is_late(&self, t: &Trace) -> bool
        ensures { result ≡ is_late (head_of self.now) (bare t.now) }
    {
        match &self.head {
            None => false,
            Some(head) => head.first_seq <= t.seq && !(t.position < head.front),
        }
    }
}

// The head's row of each line, by the line's number.
fn rows_by_line(
    alloc: Global,
    head: &Option<StartRecord>,
    lines: u32,
) -> Result<Vec<Option<Row>>, AllocError>
    ensures { let of = head_row (option_map start_numbers head.now)
        in IfOk result (λ rows. IsTable lines of (map (option_map row_numbers) rows.items)) }
{
    let mut rows = Vec::new(alloc);
    for line in 0..lines {
        rows.push(row_in(head, line))?;
    }
    Ok(rows)
}

// The head's row of a line.
fn row_in(head: &Option<StartRecord>, line: u32) -> Option<Row>
    ensures { option_map row_numbers result ≡ head_row (option_map start_numbers head.now) line }
{
    match head {
        None => None,
        Some(head) => head_row(head.rows.as_slice(), line),
    }
}

fn head_row(rows: &[Row], line: u32) -> Option<Row>
    ensures { option_map row_numbers result
        ≡ find (λ row. row.line == line) (map row_numbers rows.now) }
{
    for row in rows {
        if row.line == line {
            return Some(*row);
        }
    }
    None
}

// Whether a row is for the record's sequence number and bounds its position.
fn is_below(row: &Option<Row>, t: &Trace) -> bool
    ensures below { result ≡ is_below_row (option_map row_numbers row.now) (bare t.now) }
    ensures low { OnTrue result (t.now.position + 1 < 2 ^ 64) }
{
    match row {
        None => false,
        Some(row) => row.seq == t.seq && t.position < row.bound,
    }
}
