//! The rows of a table when a target is opened.

ghost use Rattle.std.specs.Prelude.{ℕ, ◌≡◌, ◌<◌, ◌≤◌, ◌^◌, ◌*◌, length, slice_get, Some, None, IfOk, sum_by};
ghost use Rattle.pblk_model.specs.declared.found.Winner.{Winner};
ghost use Rattle.pblk_model.specs.declared.found.LineRow.{LineRow};
ghost use Rattle.pblk_model.specs.Accepted.{IsAccepted};
ghost use Rattle.pblk_model.specs.Found.{IsFitFound};
ghost use Rattle.pblk_model.specs.Shape.{units};
ghost use Rattle.line_table.specs.declared.row.Row.{Row};
ghost use Rattle.line_table.specs.Opening.{width_of, live_count, opening_state};
ghost use Rattle.line_table.specs.Rows.{is_free_at, is_outlived_at, free_len};
ghost use Rattle.line_table.specs.LineSets.{has};
ghost use Rattle.line_table.specs.Counting.{AreOpened, AreCounted, AreOpening};

use crate::line_set::LineSet;
use crate::row::{LineState, Row};
use pblk_layout::Layout;
use pblk_model::{Found, LineRow, Winner};
use std::alloc::{AllocError, Global};

/// The state of a line of which this is found.
fn state(layout: &Layout, found: &Found, line: u32, row: &LineRow, width: u32) -> LineState
    requires width { width ≡ width_of layout.now found.now line }
    requires few { width ≤ units layout.now }
    ensures { result ≡ opening_state layout.now found.now line row.now }
{
    if row.seq.is_some() {
        if row.full {
            LineState::Full
        } else {
            LineState::Failed
        }
    } else if found.strays.as_slice().contains(&line) {
        LineState::Freed
    } else if layout.data_len(width) == 0 {
        LineState::Dead
    } else {
        LineState::Free
    }
}

/// The rows of the lines, with none of their sectors counted yet.
fn uncounted_rows(alloc: Global, layout: &Layout, found: &Found) -> Result<Vec<Row>, AllocError>
    requires fit { IsFitFound layout.now found.now }
    ensures rows { IfOk result (λ rows. AreOpened layout.now found.now rows.items) }
    ensures accepted { IsAccepted layout.now }
{
    let shape = layout.shape();
    let lines = found.lines.as_slice();
    let mut rows = Vec::with_capacity(alloc, lines.len())?;
    for line in 0..shape.chunks {
        let width = layout.online_units(found, line).width();
        let state = state(layout, found, line, &lines[line as usize], width);
        rows.push(Row {
            state,
            width,
            live: 0,
            taker: None,
        })?;
    }
    Ok(rows)
}

/// Counts the winning records, each in its line.
fn count_live(rows: &mut [Row], winners: &[Winner])
    requires lines { (k : ℕ) (w : Winner) → slice_get winners.now k ≡ Some w
        → w.line < length rows.old }
    requires none { (n : ℕ) (row : Row) → slice_get rows.old n ≡ Some row → row.live ≡ 0 }
    requires few { length winners.now < 2 ^ 32 }
    ensures { AreCounted winners.now rows.old rows.new }
{
    for winner in winners {
        rows[winner.line as usize].live += 1;
    }
}

/// The rows of the lines.
pub(crate) fn opening_rows(
    alloc: Global,
    layout: &Layout,
    found: &Found,
) -> Result<Vec<Row>, AllocError>
    requires fit { IsFitFound layout.now found.now }
    ensures { IfOk result (λ rows. AreOpening layout.now found.now rows.items) }
{
    let mut rows = uncounted_rows(alloc, layout, found)?;
    count_live(&mut rows, found.winners.as_slice());
    Ok(rows)
}

/// The Free lines.
pub(crate) fn free_lines(rows: &[Row]) -> LineSet
    requires { length rows.now ≤ 1024 }
    ensures { (n : ℕ) → has result n ≡ is_free_at rows.now n }
{
    let mut free = LineSet::empty();
    for line in 0..rows.len() {
        free.set(line as u32, rows[line].state.is_free());
    }
    free
}

/// The Full and Failed lines that have no live sector.
pub(crate) fn outlived_lines(rows: &[Row]) -> LineSet
    requires { length rows.now ≤ 1024 }
    ensures { (n : ℕ) → has result n ≡ is_outlived_at rows.now n }
{
    let mut outlived = LineSet::empty();
    for line in 0..rows.len() {
        outlived.set(line as u32, rows[line].is_outlived());
    }
    outlived
}

/// The data addresses of a line, if it is Free.
pub(crate) fn free_addresses_of(layout: &Layout, row: &Row) -> u64
    requires { row.now.width ≤ units layout.now }
    ensures addresses { result ≡ free_len layout.now row.now }
    ensures short { result < 2 ^ 32 }
{
    if row.state.is_free() {
        u64::from(layout.data_len(row.width))
    } else {
        0
    }
}

/// The data addresses of all Free lines.
pub(crate) fn count_free_addresses(layout: &Layout, rows: &[Row]) -> u64
    requires few { length rows.now ≤ 1024 }
    requires widths { (n : ℕ) (row : Row) → slice_get rows.now n ≡ Some row
        → row.width ≤ units layout.now }
    ensures sum { result ≡ sum_by (free_len layout.now) rows.now }
    ensures short { (n : ℕ) (row : Row) → slice_get rows.now n ≡ Some row
        → free_len layout.now row < 2 ^ 32 }
{
    let mut addresses = 0;
    for row in rows {
        addresses += free_addresses_of(layout, row);
    }
    addresses
}
