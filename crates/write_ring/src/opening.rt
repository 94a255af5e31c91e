// What a ring begins with: its words, and a free frame in each slot.
ghost use Rattle.std.specs.Prelude.{◌≡◌, ◌+◌, ◌*◌, ◌<◌, ◌≤◌, ◌++◌, ◌∷◌, [], vec_capacity, ℕ, List};
ghost use Rattle.std.specs.Prelude.{Bool, IfOk, IfErr, OnOk, length, reverse, slice_index};
ghost use Rattle.std.specs.List.{AllByRecursion};
ghost use Rattle.pblk_model.specs.Frames.{count_left, count_out};
ghost use Rattle.write_ring.specs.Cells.{turn_at};
ghost use Rattle.write_ring.specs.Frames.{IsFreeOf};
ghost use Rattle.write_ring.specs.Openings.{IsDrawn};
ghost use Rattle.write_ring.specs.Rule.{Words};

use crate::batch::take_frame;
use crate::cell::Cell;
use crate::table::{CLAIMED, FREED, GRANTED, LINE, TURNS};
use sector_pool::Pool;
use std::alloc::{AllocError, Global};

// The words of a ring in which nothing is claimed yet. No turn word names a position.
pub(crate) fn first_words(alloc: Global, n: u32, first: u64) -> Result<Vec<u64>, AllocError>
    ensures words { IfOk result (λ w. Words n w.items first first first) }
    ensures turns { IfOk result (λ w. (q : ℕ) → slice_index w.items (turn_at n q) ≡ 0) }
    ensures long { IfOk result (λ w. length w.items ≡ 48 + 16 * n) }
{
    let mut words = vec![in alloc; 0u64; TURNS + LINE * n as usize]?;
    words[CLAIMED] = first;
    words[FREED] = first;
    words[GRANTED] = first;
    Ok(words)
}

// A frame that goes into a slot.
fn put(cells: &mut Vec<Cell>, cell: Cell)
    requires room { length cells.old.items < vec_capacity cells.old }
    ensures items { cells.new.items ≡ cells.old.items ++ cell ∷ [] }
    ensures capacity { vec_capacity cells.old ≤ vec_capacity cells.new }
{
    cells.push(cell).unwrap();
}

// So many frames of the pool, for the slots.
pub(crate) fn first_cells(alloc: Global, n: u32, pool: &mut Pool) -> Result<Vec<Cell>, AllocError>
    requires left { n ≤ count_left pool.old.left }
    ensures many { IfOk result (λ c. length c.items ≡ n) }
    ensures free { IfOk result (λ c. AllByRecursion (IsFreeOf pool.old.region) c.items) }
    ensures drawn { IfOk result
        (λ c. IsDrawn pool.old.region pool.old.left pool.new.left (reverse c.items)) }
    ensures unchanged { IfErr result (λ _. pool.new ≡ pool.old) }
    ensures region { pool.new.region ≡ pool.old.region }
    ensures fewer_left { OnOk result (count_left pool.old.left ≡ count_left pool.new.left + n) }
    ensures more_out { OnOk result (count_out pool.new.left ≡ count_out pool.old.left + n) }
{
    let mut cells = Vec::with_capacity(alloc, n as usize)?;
    for _number in 0..n {
        let frame = take_frame(pool);
        put(&mut cells, Cell::Free(frame));
    }
    Ok(cells)
}

// Gives the frames back, the last first, so that the pool is as it was before they were drawn.
pub(crate) fn give_cells(cells: Vec<Cell>, pool: &mut Pool)
    requires drawn { (before : List Bool)
        × IsDrawn pool.old.region before pool.old.left (reverse cells.items) }
    ensures back { (before : List Bool)
        → IsDrawn pool.old.region before pool.old.left (reverse cells.items)
        → pool.new.left ≡ before }
    ensures region { pool.new.region ≡ pool.old.region }
{
    let mut cells = cells;
    while let Some(cell) = cells.pop() {
        let Cell::Free(frame) = cell else {
            unreachable!()
        };
        pool.give(frame);
    }
    cells.destroy_empty();
}
