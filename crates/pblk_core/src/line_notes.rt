//! What a core notes of each line, to tell when it may be freed.

ghost use Rattle.std.specs.Prelude.{ℕ, ◌<◌, ◌^◌, ◌≡◌, ◌↔◌, map, length, slice_get, slice_set, Some, IfOk, IsTrue, true, false};
ghost use Rattle.core_laws.specs.ClosedLines.{top_of};
ghost use Rattle.pblk_core.specs.LineNotes.{IsSpentNote, newest_landed, outdated_seq, note_found, note_opened, note_added, note_landed, note_closed, note_freed, head_start, newer_note, start_found};

use pblk_model::LineRow;
use std::alloc::{AllocError, Global};

/// What is noted of a line that has a sequence number.
#[derive(Clone, Copy, Debug, PartialEq, Eq)]
pub(crate) struct LineNote {
    /// Its sequence number.
    pub(crate) seq: u64,
    /// The front in its start record, where it was opened in this mount.
    pub(crate) front: u64,
    /// How many stripes of its start record haven't landed.
    pub(crate) starts_left: u32,
    /// One past the greatest position that is written in it: that has landed there, or was written
    /// there before its program failed. Of a line as it was found, one past the greatest that
    /// counts in it. 0 where there is none.
    pub(crate) top: u64,
    /// Whether nothing more is written to it before its chunks are reset.
    pub(crate) closed: bool,
}

/// The numbers of a start record.
#[derive(Clone, Copy, Debug, PartialEq, Eq)]
pub(crate) struct StartNote {
    pub(crate) seq: u64,
    pub(crate) front: u64,
}

/// A note of each line, and the numbers of the newest start record that has landed.
#[derive(Debug, Drop)]
pub(crate) struct LineNotes {
    rows: Vec<LineNote>,
    newest: Option<StartNote>,
}

impl LineNotes {
    /// The notes of lines of which recovery found this, with the head's line and its front. Each
    /// line with a sequence number is closed. Fails only where there isn't the memory.
    pub(crate) fn new(
        alloc: Global,
        lines: &[LineRow],
        head: Option<u32>,
        front: u64,
    ) -> Result<LineNotes, AllocError>
        requires few { length lines.now < 2 ^ 32 }
        requires inside { (line : ℕ) → head ≡ Some line → line < length lines.now }
        ensures rows { IfOk result (λ n. n.rows.items ≡ map note_found lines.now) }
        ensures newest { IfOk result (λ n. n.newest ≡ head_start lines.now head front) }
    {
        let mut rows = Vec::with_capacity(alloc, lines.len())?;
        for line in 0..lines.len() {
            rows.push(found_note(&lines[line]))?;
        }
        let newest = match head {
            Some(line) => start_of_head(&lines[line as usize], front),
            None => None,
        };
        Ok(LineNotes { rows, newest })
    }

    /// A line is opened with this sequence number and front. Its start record takes so many
    /// stripes.
    pub(crate) fn open(&mut self, line: u32, seq: u64, front: u64, starts: u32)
        requires { line < length self.old.rows.items }
        ensures rows { self.new.rows.items
            ≡ slice_set self.old.rows.items line (note_opened seq front starts) }
        ensures newest { self.new.newest ≡ self.old.newest }
    {
        self.rows[line as usize] = LineNote {
            seq,
            front,
            starts_left: starts,
            top: 0,
            closed: false,
        };
    }

    /// Blocks of these positions, each below 2^63, are written in a line.
    pub(crate) fn add(&mut self, line: u32, positions: &[u64])
        requires inside { line < length self.old.rows.items }
        requires small { (k q : ℕ) → slice_get positions.now k ≡ Some q → q < 2 ^ 63 }
        ensures rows { (row : LineNote) → slice_get self.old.rows.items line ≡ Some row
            → self.new.rows.items
            ≡ slice_set self.old.rows.items line (note_added (top_of positions.now) row) }
        ensures newest { self.new.newest ≡ self.old.newest }
    {
        let top = top_of(positions);
        let row = &mut self.rows[line as usize];
        row.top = row.top.max(top);
    }

    /// A stripe of a line has landed, which is one of its start record or another. Once all of its
    /// start record have, that record is the newest one, if it is newer than that which was. Tells
    /// whether it is.
    pub(crate) fn land(&mut self, line: u32, is_start: bool) -> bool
        requires inside { line < length self.old.rows.items }
        requires some { (row : LineNote) → slice_get self.old.rows.items line ≡ Some row
            → is_start ≡ true → 0 < row.starts_left }
        ensures rows { (row : LineNote) → slice_get self.old.rows.items line ≡ Some row
            → self.new.rows.items
            ≡ slice_set self.old.rows.items line (note_landed is_start row) }
        ensures newest { (row : LineNote) → slice_get self.old.rows.items line ≡ Some row
            → self.new.newest ≡ newest_landed is_start row self.old.newest }
        ensures same { result ≡ false → self.new.newest ≡ self.old.newest }
    {
        if !is_start {
            return false;
        }
        let row = &mut self.rows[line as usize];
        row.starts_left -= 1;
        if row.starts_left == 0 {
            let start = StartNote {
                seq: row.seq,
                front: row.front,
            };
            self.set_newer(start)
        } else {
            false
        }
    }

    // A start record has landed whole. Tells whether it is the newest one now.
    fn set_newer(&mut self, start: StartNote) -> bool
        ensures newest { self.new.newest ≡ Some (newer_note self.old.newest start) }
        ensures rows { self.new.rows.items ≡ self.old.rows.items }
        ensures same { result ≡ false → self.new.newest ≡ self.old.newest }
    {
        match self.newest {
            Some(newest) if start.seq <= newest.seq => false,
            _ => {
                self.newest = Some(start);
                true
            }
        }
    }

    /// Nothing more is written to a line before its chunks are reset.
    pub(crate) fn close(&mut self, line: u32)
        requires { line < length self.old.rows.items }
        ensures rows { (row : LineNote) → slice_get self.old.rows.items line ≡ Some row
            → self.new.rows.items ≡ slice_set self.old.rows.items line (note_closed row) }
        ensures newest { self.new.newest ≡ self.old.newest }
    {
        self.rows[line as usize].closed = true;
    }

    /// A line is freed.
    pub(crate) fn free(&mut self, line: u32)
        requires { line < length self.old.rows.items }
        ensures rows { (row : LineNote) → slice_get self.old.rows.items line ≡ Some row
            → self.new.rows.items ≡ slice_set self.old.rows.items line (note_freed row) }
        ensures newest { self.new.newest ≡ self.old.newest }
    {
        self.rows[line as usize].closed = false;
    }

    /// The sequence number of a line that is closed, older than the newest start record that has
    /// landed, and whose positions end at that record's front or below it. None of any other.
    pub(crate) fn outdated(&self, line: u32) -> Option<u64>
        requires { line < length self.now.rows.items }
        ensures { (row : LineNote) → slice_get self.now.rows.items line ≡ Some row
            → result ≡ outdated_seq row self.now.newest }
    {
        let row = self.rows[line as usize];
        let newest = self.newest?;
        if row.closed && row.seq < newest.seq && row.top <= newest.front {
            Some(row.seq)
        } else {
            None
        }
    }

    /// Whether a line may be freed: it is closed, older than the newest start record that has
    /// landed, its positions end at that record's front or below it, it has no live sector, and
    /// the last position that took a sector from it is below the front synced.
    pub(crate) fn is_spent(&self, line: u32, live: u32, taker: Option<u64>, synced: u64) -> bool
        requires { line < length self.now.rows.items }
        ensures { (row : LineNote) → slice_get self.now.rows.items line ≡ Some row
            → IsTrue result ↔ IsSpentNote row self.now.newest live taker synced }
    {
        let row = self.rows[line as usize];
        let Some(newest) = self.newest else {
            return false;
        };
        let is_taken = match taker {
            Some(taker) => taker < synced,
            None => true,
        };
        row.closed && row.seq < newest.seq && row.top <= newest.front && live == 0 && is_taken
    }
}

// The note of a line of which recovery found this.
fn found_note(row: &LineRow) -> LineNote
    ensures { result ≡ note_found row.now }
{
    LineNote {
        seq: row.seq.unwrap_or(0),
        front: 0,
        starts_left: 0,
        top: row.top,
        closed: row.seq.is_some(),
    }
}

// The numbers of the head's start record, by what recovery found of its line.
fn start_of_head(row: &LineRow, front: u64) -> Option<StartNote>
    ensures { result ≡ start_found front row.now.seq }
{
    match row.seq {
        Some(seq) => Some(StartNote { seq, front }),
        None => None,
    }
}

// One past the greatest of these positions, and 0 where there is none.
fn top_of(positions: &[u64]) -> u64
    requires small { (k q : ℕ) → slice_get positions.now k ≡ Some q → q < 2 ^ 63 }
    ensures { result ≡ top_of positions.now }
{
    let mut top = 0;
    for index in 0..positions.len() {
        top = top.max(positions[index] + 1);
    }
    top
}
