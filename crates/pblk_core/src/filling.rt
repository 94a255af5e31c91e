//! The entries of a stripe that is placed, has landed, or was lost.

ghost use Rattle.std.specs.Prelude.{ℕ, true, ◌≡◌, ◌+◌, ◌*◌, ◌<◌, ◌≤◌, ◌^◌, [], ◌∷◌, List, length, Some, slice_get};
ghost use Rattle.line_table.specs.declared.row.Row.{Row};
ghost use Rattle.line_table.specs.Rows.{IsRow};
ghost use Rattle.write_window.specs.Window.{IsHeld, sector_at};
ghost use Rattle.pblk_core.specs.Filling.{followed_by};
ghost use Rattle.pblk_core.specs.Entries.{entry_blocks, note_hold, noted_lines, place_hold, placed_lines, placed_rows};
ghost use Rattle.pblk_core.specs.Losing.{is_live, live_among, lost_rows, lower_hold, lowered_lines};

use crate::hold::{Hold, Holds};
use crate::stripe::Stripe;
use line_table::Lines;
use pblk_model::Mark;
use write_window::Window;

/// Adds the entries of these positions to an empty stripe, in their order, each with the mark that
/// is kept of it.
///
/// The window holds them, each of the size of a sector, and the stripe has room for them.
pub(crate) fn fill(window: &Window, holds: &Holds, positions: &[u64], into: &mut Stripe)
    requires rows { 0 < length holds.now.rows.items }
    requires held { (k q : ℕ) → slice_get positions.now k ≡ Some q
        → IsHeld window.now q }
    requires size { (q : ℕ) (sector : List ℕ) → sector_at window.now q ≡ Some sector
        → length sector ≡ into.old.shape.sector }
    requires empty { into.old.stripe.blocks ≡ [] }
    requires room { length positions.now ≤ into.old.shape.ws_opt }
    ensures { into.new ≡ followed_by into.old
        (entry_blocks window.now holds.now.rows.items positions.now) }
{
    for index in 0..positions.len() {
        add_entry(window, holds, positions[index], into);
    }
}

// Adds an entry to a stripe.
fn add_entry(window: &Window, holds: &Holds, position: u64, into: &mut Stripe)
    requires rows { 0 < length holds.now.rows.items }
    requires held { IsHeld window.now position }
    requires size { (sector : List ℕ) → sector_at window.now position ≡ Some sector
        → length sector ≡ into.old.shape.sector }
    requires room { length into.old.stripe.blocks < into.old.shape.ws_opt }
    ensures { into.new ≡ followed_by into.old
        (entry_blocks window.now holds.now.rows.items (position ∷ [])) }
{
    let hold = holds.get(position);
    match window.get(position) {
        Some(sector) => into.append(hold.mark, sector),
        None => unreachable!(),
    }
}

/// Notes that the entries of a placement are in its line: each is a live sector there, unless it is
/// Void or a later entry of the sector was taken already. The line has room for their number.
pub(crate) fn settle_lines(lines: &mut Lines, holds: &Holds, line: u32, positions: &[u64])
    requires rows { 0 < length holds.now.rows.items }
    requires inside { line < length lines.old.rows }
    requires room { (row : Row) → IsRow lines.old line row
        → row.live + length positions.now < 2 ^ 32 }
    ensures { lines.new ≡ placed_lines holds.now.rows.items line lines.old positions.now }
{
    for index in 0..positions.len() {
        let hold = holds.get(positions[index]);
        settle_line(lines, line, &hold);
    }
}

// Notes that an entry is in a line.
fn settle_line(lines: &mut Lines, line: u32, hold: &Hold)
    requires inside { line < length lines.old.rows }
    requires room { (row : Row) → IsRow lines.old line row → row.live + 1 < 2 ^ 32 }
    ensures { lines.new ≡ place_hold line lines.old (Some hold.now) }
{
    if hold.mark.lba == Mark::VOID_LBA {
        return;
    }
    if hold.taker.is_none() {
        lines.gain(line);
    }
}

/// Notes that the entries of a stripe have landed in its line. Where a later entry of the sector
/// was taken before, it took the sector from the line.
pub(crate) fn note_takers(lines: &mut Lines, holds: &Holds, line: u32, positions: &[u64])
    requires rows { 0 < length holds.now.rows.items }
    requires inside { line < length lines.old.rows }
    ensures { lines.new ≡ noted_lines holds.now.rows.items line lines.old positions.now }
{
    for index in 0..positions.len() {
        let hold = holds.get(positions[index]);
        note_taker(lines, line, &hold);
    }
}

// Notes that an entry has landed in a line.
fn note_taker(lines: &mut Lines, line: u32, hold: &Hold)
    requires { line < length lines.old.rows }
    ensures { lines.new ≡ note_hold line lines.old (Some hold.now) }
{
    if let Some(taker) = hold.taker {
        lines.note_taker(line, taker);
    }
}

/// Notes in the rows of the entries of these positions in which line they are.
pub(crate) fn settle_holds(holds: &mut Holds, line: u32, positions: &[u64])
    requires rows { 0 < length holds.old.rows.items }
    ensures { holds.new.rows.items ≡ placed_rows line holds.old.rows.items positions.now }
{
    for index in 0..positions.len() {
        let position = positions[index];
        let hold = holds.get(position);
        holds.set(
            position,
            Hold {
                mark: hold.mark,
                line: Some(line),
                taker: hold.taker,
            },
        );
    }
}

/// Notes that the entries of these positions are in a line no more, as their stripe was lost: each
/// was a live sector there, unless it is Void or a later entry of the sector was taken
/// already. The line has so many live sectors.
pub(crate) fn lower_lines(lines: &mut Lines, holds: &Holds, line: u32, positions: &[u64])
    requires rows { 0 < length holds.now.rows.items }
    requires inside { line < length lines.old.rows }
    requires some { (row : Row) → IsRow lines.old line row
        → live_among holds.now.rows.items positions.now ≤ row.live }
    ensures { lines.new ≡ lowered_lines holds.now.rows.items line lines.old positions.now }
{
    for index in 0..positions.len() {
        let hold = holds.get(positions[index]);
        lower_line(lines, line, &hold);
    }
}

// Notes that an entry is in a line no more.
fn lower_line(lines: &mut Lines, line: u32, hold: &Hold)
    requires inside { line < length lines.old.rows }
    requires some { (row : Row) → IsRow lines.old line row → is_live hold.now ≡ true
        → 0 < row.live }
    ensures { lines.new ≡ lower_hold line lines.old (Some hold.now) }
{
    if hold.mark.lba == Mark::VOID_LBA {
        return;
    }
    if hold.taker.is_none() {
        lines.lower(line);
    }
}

/// Notes in the rows of the entries of these positions that they are in no line.
pub(crate) fn unsettle_holds(holds: &mut Holds, positions: &[u64])
    requires rows { 0 < length holds.old.rows.items }
    ensures { holds.new.rows.items ≡ lost_rows holds.old.rows.items positions.now }
{
    for index in 0..positions.len() {
        let position = positions[index];
        let hold = holds.get(position);
        holds.set(
            position,
            Hold {
                mark: hold.mark,
                line: None,
                taker: hold.taker,
            },
        );
    }
}
