//! What the tables of a core are made of when a target opens: what recovery found.

ghost use Rattle.std.specs.Prelude.{ℕ, ◌≡◌, ◌*◌, ◌<◌, ◌^◌, if◌then◌else◌, List, length, map, replicate, slice_get, Some, IfOk};
ghost use Rattle.std.specs.FinMap as fin;
ghost use Rattle.pblk_model.specs.declared.found.LineRow.{LineRow};
ghost use Rattle.pblk_model.specs.declared.found.Winner.{Winner};
ghost use Rattle.pblk_model.specs.Accepted.{IsAccepted};
ghost use Rattle.pblk_model.specs.Shape.{units};
ghost use Rattle.pblk_meta.specs.Records.{row_numbers};
ghost use Rattle.world_laws.specs.MountBeginnings.{seq_after};
ghost use Rattle.core_laws.specs.OnlineUnits.{all_online};
ghost use Rattle.core_laws.specs.OpeningTables.{slot_found};
ghost use Rattle.pblk_core.specs.OlderLines.{older_found};

use l2p_map::{Map, Slot};
use pblk_layout::{Layout, LineUnits};
use pblk_meta::{Row, Rows};
use pblk_model::{Found, LineRow, Winner};
use std::alloc::{AllocError, Global};

/// The online units of each line, by what recovery found. Fails only where there isn't the memory.
pub(crate) fn all_online_units(
    alloc: Global,
    layout: &Layout,
    found: &Found,
) -> Result<Vec<LineUnits>, AllocError>
    requires accepted { IsAccepted layout.now }
    requires chunks { length found.now.chunks ≡ units layout.now * layout.now.chunks }
    ensures { IfOk result (λ v. v.items ≡ all_online layout.now found.now layout.now.chunks) }
{
    let lines = layout.shape().chunks;
    let mut online = Vec::with_capacity(alloc, lines as usize)?;
    for line in 0..lines {
        online.push(layout.online_units(found, line))?;
    }
    Ok(online)
}

/// The map of a drive on which these are the winning records: each sector is where its record is.
/// They are of different sectors below the capacity. Fails only where there isn't the memory.
pub(crate) fn found_map(alloc: Global, capacity: u64, winners: &[Winner]) -> Result<Map, AllocError>
    requires inside { (k : ℕ) (w : Winner) → slice_get winners.now k ≡ Some w → w.lba < capacity }
    requires rise { (j k : ℕ) (v w : Winner) → j < k → slice_get winners.now j ≡ Some v
        → slice_get winners.now k ≡ Some w → v.lba < w.lba }
    ensures capacity { IfOk result (λ m. fin.len m ≡ capacity) }
    ensures slots { IfOk result (λ m. (lba : ℕ) → lba < capacity
        → fin.get m lba ≡ Some (slot_found winners.now lba)) }
{
    let mut map = Map::new(alloc, capacity)?;
    for k in 0..winners.len() {
        let winner = winners[k];
        map.set(
            winner.lba,
            Slot::Media {
                line: winner.line,
                at: winner.at,
                position: winner.position,
            },
        );
    }
    Ok(map)
}

/// No stripe of any unit was answered. Fails only where there isn't the memory.
pub(crate) fn no_answers(alloc: Global, units: u32) -> Result<Vec<u64>, AllocError>
    ensures { IfOk result (λ counts. counts.items ≡ replicate units 0) }
{
    let mut counts = Vec::with_capacity(alloc, units as usize)?;
    counts.resize(units as usize, 0)?;
    Ok(counts)
}

/// The sequence number that follows that of the head, and 1 where there is no head.
pub(crate) fn next_seq(lines: &[LineRow], head: Option<u32>) -> u64
    requires inside { (line : ℕ) → head ≡ Some line → line < length lines.now }
    requires small { (line seq : ℕ) (row : LineRow) → slice_get lines.now line ≡ Some row
        → row.seq ≡ Some seq → seq < 2 ^ 61 }
    ensures { result ≡ seq_after lines.now head }
{
    match head {
        Some(line) => match lines[line as usize].seq {
            Some(seq) => seq + 1,
            None => 1,
        },
        None => 1,
    }
}

/// The rows of the lines with a sequence number: a line of the head's mount ends at the end, and
/// another at its bound. Fails only where there isn't the memory.
pub(crate) fn older_rows(alloc: Global, lines: &[LineRow], end: u64) -> Result<Rows, AllocError>
    requires { length lines.now < 2 ^ 32 }
    ensures { IfOk result (λ rows. map row_numbers rows ≡ older_found end lines.now) }
{
    let mut rows = Rows::new(alloc);
    for line in 0..lines.len() {
        let row = lines[line];
        if let Some(seq) = row.seq {
            rows.push(Row {
                line: line as u32,
                seq,
                bound: bound_of(&row, end),
            })?;
        }
    }
    Ok(rows)
}

// Where a line ends: one of the head's mount at the end, and another at its bound.
fn bound_of(row: &LineRow, end: u64) -> u64
    ensures { result ≡ (if row.now.young then end else row.now.bound) }
{
    if row.young { end } else { row.bound }
}
