//! The table of the lines.

ghost use Rattle.std.specs.Prelude.{ℕ, ◌≡◌, ◌≢◌, ◌+◌, ◌-◌, ◌<◌, ◌≤◌, ◌^◌, length, slice_get, position, Some, None, IfOk, IfSome, IfNone};
ghost use Rattle.pblk_model.specs.Found.{IsFitFound};
ghost use Rattle.pblk_model.specs.LineOrder.{data_len};
ghost use Rattle.pblk_model.specs.Shape.{units};
ghost use Rattle.pblk_model.specs.declared.found.LineRow.{LineRow};
ghost use Rattle.line_table.specs.declared.row.Row.{Row};
ghost use Rattle.line_table.specs.Opening.{width_of, live_count, opening_state};
ghost use Rattle.line_table.specs.Rows.{IsRow, EachRow, IsFreeLine, IsOutlivedLine, Changes, IsChange, is_free, free_addresses, lost_to_taker, lowered, noted, turned};

use crate::line_set::LineSet;
use crate::opening::{
    count_free_addresses, free_addresses_of, free_lines, opening_rows, outlived_lines,
};
use crate::row::{LineState, Row, latest};
use pblk_layout::Layout;
use pblk_model::Found;
use std::alloc::{AllocError, Global};
use std::marker::Model;

/// The table of a target's lines: of each its state, its width, how many live sectors it has, and
/// the greatest position that took one from it.
///
/// Lines are what a target opens, fills and frees as a whole (Bjørling, González, Bonnet, FAST
/// 2017). Each call but `new` takes the same few steps, whatever the number of lines.
///
/// Contracts see the drive's shape and a list of rows, by the lines' numbers.
#[derive(Drop)]
pub struct Lines {
    layout: Layout,
    rows: Vec<Row>,
    // the Free ones
    free: LineSet,
    // their data addresses
    free_addresses: u64,
    // the Full and Failed ones that have no live sector
    outlived: LineSet,
}

impl Model for Lines {
    ghost use Rattle.line_table.specs.Rows.{Table};
    ghost use Rattle.line_table.specs.Inside.{table, IsTable};

    ghost Value = { Table };

    ghost view = { table };

    ghost invariant = { IsTable };
}

impl Lines {
    /// The table of a target that opens on a drive of which this is found.
    ///
    /// A line with a sequence number is Full where its end record is whole, and Failed elsewhere. A
    /// line without one is Freed where it has a chunk that is neither Free nor Offline, and Free or
    /// Dead elsewhere. The live sectors of a line are those whose winning record is in it.
    ///
    /// The findings fit the layout's shape. Fails only where there isn't the memory, which no later
    /// call takes.
    pub fn new(alloc: Global, layout: &Layout, found: &Found) -> Result<Lines, AllocError>
        requires fit { IsFitFound layout.now found.now }
        ensures shape { IfOk result (λ t. t.shape ≡ layout.now) }
        ensures lines { IfOk result (λ t. length t.rows ≡ layout.now.chunks) }
        ensures state { IfOk result (λ t. EachRow t (λ line row. (l : LineRow)
            → slice_get found.now.lines line ≡ Some l
            → row.state ≡ opening_state layout.now found.now line l)) }
        ensures width { IfOk result (λ t. EachRow t (λ line row.
            row.width ≡ width_of layout.now found.now line)) }
        ensures live { IfOk result (λ t. EachRow t (λ line row.
            row.live ≡ live_count found.now.winners line)) }
        ensures taker { IfOk result (λ t. EachRow t (λ line row. row.taker ≡ None)) }
    {
        let rows = opening_rows(alloc, layout, found)?;
        let free = free_lines(&rows);
        let free_addresses = count_free_addresses(layout, &rows);
        let outlived = outlived_lines(&rows);
        Ok(Lines {
            layout: *layout,
            rows,
            free,
            free_addresses,
            outlived,
        })
    }

    /// The state of a line of the drive.
    pub fn state(&self, line: u32) -> LineState
        requires { line < length self.now.rows }
        ensures { (row : Row) → IsRow self.now line row → result ≡ row.state }
    {
        self.rows[line as usize].state
    }

    /// How many live sectors a line of the drive has.
    pub fn live(&self, line: u32) -> u32
        requires { line < length self.now.rows }
        ensures { (row : Row) → IsRow self.now line row → result ≡ row.live }
    {
        self.rows[line as usize].live
    }

    /// The greatest position that took a sector from a line of the drive. None exactly where none
    /// was noted since the table was made or the line was last opened.
    pub fn taker(&self, line: u32) -> Option<u64>
        requires { line < length self.now.rows }
        ensures { (row : Row) → IsRow self.now line row → result ≡ row.taker }
    {
        self.rows[line as usize].taker
    }

    /// The data addresses of all Free lines together, each line's by its width.
    ///
    /// The table keeps this count, and doesn't add it up here.
    pub fn free_addresses(&self) -> u64
        ensures { result ≡ free_addresses self.now }
    {
        self.free_addresses
    }

    /// The Free line of least number. None exactly where no line is Free.
    ///
    /// The table keeps an index of 16 words for it.
    pub fn least_free(&self) -> Option<u32>
        ensures least { result ≡ position is_free self.now.rows }
        ensures free { IfSome result (λ line. IsFreeLine self.now line) }
    {
        self.free.least()
    }

    /// The line of least number, from this one on, that is Full or Failed and has no live sector.
    /// None exactly where there is no such line. Garbage collection frees such a line without a
    /// copy, once nothing in it is needed (Bjørling, González, Bonnet, FAST 2017).
    ///
    /// The table keeps an index of 16 words for it.
    pub fn outlived_from(&self, from: u32) -> Option<u32>
        ensures found { IfSome result (IsOutlivedLine self.now) }
        ensures from { IfSome result (λ line. from ≤ line) }
        ensures least { IfSome result (λ line.
            (m : ℕ) → from ≤ m → m < line → ¬ IsOutlivedLine self.now m) }
        ensures none { IfNone result ((line : ℕ) → from ≤ line → ¬ IsOutlivedLine self.now line) }
    {
        self.outlived.least_from(from)
    }

    /// Counts one more live sector in a line of the drive, which had fewer than 2^32 - 1.
    pub fn gain(&mut self, line: u32)
        requires inside { line < length self.old.rows }
        requires room { (row : Row) → IsRow self.old line row → row.live < 2 ^ 32 - 1 }
        ensures { Changes self.old self.new line (λ row. record row { live = row.live + 1 }) }
    {
        self.rows[line as usize].live += 1;
        self.outlived.set(line, false);
    }

    /// The entry at position `by` took a sector from a line of the drive, where it had landed. The
    /// line has one live sector less. It had some.
    pub fn lose(&mut self, line: u32, by: u64)
        requires inside { line < length self.old.rows }
        requires some { (row : Row) → IsRow self.old line row → 0 < row.live }
        ensures { Changes self.old self.new line (lost_to_taker by) }
    {
        self.lower(line);
        self.note_taker(line, by);
    }

    /// Counts one live sector less in a line of the drive, which had some. A later entry took the
    /// sector before it landed in the line: until it does, nothing was taken from the line.
    pub fn lower(&mut self, line: u32)
        requires inside { line < length self.old.rows }
        requires some { (row : Row) → IsRow self.old line row → 0 < row.live }
        ensures { Changes self.old self.new line lowered }
    {
        let row = &mut self.rows[line as usize];
        row.live -= 1;
        let outlived = row.is_outlived();
        self.outlived.set(line, outlived);
    }

    /// Notes that the entry at position `by` took a sector from a line of the drive. The line's
    /// live sectors are as many as before: the sector was taken before it landed there.
    pub fn note_taker(&mut self, line: u32, by: u64)
        requires inside { line < length self.old.rows }
        ensures { Changes self.old self.new line (noted by) }
    {
        let row = &mut self.rows[line as usize];
        row.taker = Some(latest(row.taker, by));
    }

    /// A line of the drive has a new state and a new width, which is at most the number of units.
    ///
    /// A line goes from Free to Open, from there to Full or Failed, then to Freed, and to Free
    /// again, or to Dead where a line of the new width has no data.
    pub fn turn(&mut self, line: u32, to: LineState, width: u32)
        requires inside { line < length self.old.rows }
        requires width { width ≤ units self.old.shape }
        requires change { (row : Row) → IsRow self.old line row
            → IsChange row.state to (data_len self.old.shape width) }
        ensures { Changes self.old self.new line (turned to width) }
    {
        let index = line as usize;
        let row = self.rows[index];
        let turned = Row {
            state: to,
            width,
            live: row.live,
            taker: to.kept(row.taker),
        };
        let before = free_addresses_of(&self.layout, &row);
        let after = free_addresses_of(&self.layout, &turned);
        self.free_addresses = self.free_addresses - before + after;
        self.free.set(line, to.is_free());
        self.outlived.set(line, turned.is_outlived());
        self.rows[index] = turned;
    }
}
