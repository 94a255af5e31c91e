// What a ring leaves behind: the frames in its slots go back to their pool.
ghost use Rattle.std.specs.Prelude.{◌≡◌, ◌+◌, ◌%◌, ◌<◌, ◌^◌, IsTrue, false, slice_index_or};
ghost use Rattle.std.specs.Prelude.{slice_set};
ghost use Rattle.std.specs.Slots.{slots_items, slots_filled, slots_len, IsFull};
ghost use mathlib.Core.Option.{some};
ghost use lib.ListN.{get_elem?};
ghost use Rattle.pblk_model.specs.Frames.{count_left, count_out};
ghost use Rattle.write_ring.specs.Endings.{HasFrame, IsLeft};

use crate::cell::Cell;
use atomic_table::Closed;
use sector_pool::{Entry, Pool};
use std::alloc::Global;

// Takes what the slot of a position has.
fn take_slot(closed: &mut Closed<Cell, Global>, at: u64, size: u64) -> Cell
    requires some { 0 < size }
    requires long { slots_len closed.old.slots ≡ size }
    requires here { IsTrue (slice_index_or (slots_filled closed.old.slots) (at % size) false) }
    ensures value { get_elem? (slots_items closed.old.slots) (at % size) ≡ some result }
    ensures items { slots_items closed.new.slots ≡ slots_items closed.old.slots }
    ensures flags { slots_filled closed.new.slots
        ≡ slice_set (slots_filled closed.old.slots) (at % size) false }
    ensures long { slots_len closed.new.slots ≡ slots_len closed.old.slots }
{
    closed.take((at % size) as usize)
}

// Gives the frame back that a slot has.
fn give_slot(cell: Cell, pool: &mut Pool)
    requires own { HasFrame pool.old.region cell }
    ensures region { pool.new.region ≡ pool.old.region }
    ensures more_left { count_left pool.new.left ≡ count_left pool.old.left + 1 }
    ensures fewer_out { count_out pool.old.left ≡ count_out pool.new.left + 1 }
{
    match cell {
        Cell::Free(frame) => pool.give(frame),
        Cell::Filled(entry) => {
            let Entry {
                position: _,
                class: _,
                lba: _,
                source: _,
                frame,
            } = entry;
            pool.give(frame);
        }
        Cell::Empty => unreachable!(),
    }
}

// Gives the frames in all slots back. Those of the positions from `freed` to `taken` have none.
pub(crate) fn give_slots(
    closed: Closed<Cell, Global>,
    freed: u64,
    taken: u64,
    size: u64,
    pool: &mut Pool,
)
    requires some { 0 < size }
    requires small { freed + size < 2 ^ 63 }
    requires long { slots_len closed.slots ≡ size }
    requires full { IsFull closed.slots }
    requires left { IsLeft pool.old.region size freed taken (slots_items closed.slots) }
    ensures region { pool.new.region ≡ pool.old.region }
    ensures more_left { count_left pool.new.left + taken ≡ count_left pool.old.left + freed + size }
    ensures fewer_out { count_out pool.new.left + freed + size ≡ count_out pool.old.left + taken }
{
    let mut closed = closed;
    for at in freed..taken {
        let cell = take_slot(&mut closed, at, size);
        let Cell::Empty = cell else { unreachable!() };
    }
    for at in taken..freed + size {
        let cell = take_slot(&mut closed, at, size);
        give_slot(cell, pool);
    }
    closed.free();
}
