// How the locks end.
ghost use Rattle.std.specs.Prelude.{◌≡◌, ◌+◌, ◌*◌, ◌<◌, ◌≤◌, [], ◌∷◌, ◌++◌, IsTrue, false, length};
ghost use Rattle.std.specs.Prelude.{slice_index_or, slice_set, vec_capacity};
ghost use Rattle.std.specs.Slots.{slots_items, slots_filled, slots_len, IsFull};
ghost use Rattle.numbered_locks.specs.Cells.{Fits};
ghost use Rattle.numbered_locks.specs.Handles.{AreKept, places};
ghost use Rattle.numbered_locks.specs.Kept.{IsLeft};
ghost use Rattle.numbered_locks.specs.Steps.{word_at};
ghost use lib.ListN.{get_elem?};
ghost use mathlib.Core.Option.{some};

use crate::cell::Cell;
use crate::keeps::Keeps;
use crate::locks::{FREE, LINE, NumberedLocks};
use atomic_table::Closed;
use std::alloc::Global;
use std::sync::Wait;
use std::thread;

// Waits until the word of a slot is 0. No step changes the words any more.
fn see_free<V, R: Wait>(rt: &R, closed: &Closed<Option<Cell<V>>, Global>, slot: usize)
    requires there { 16 * slot < slots_len closed.now.words }
    requires full { IsFull closed.now.words }
    ensures free { get_elem? (slots_items closed.now.words) (word_at slot) ≡ some 0 }
{
    for _ in rt.forever() {
        if closed.word(LINE * slot) == FREE {
            return;
        }
        thread::yield_now();
    }
    unreachable!()
}

// A value is put behind the others.
fn add<V>(values: &mut Vec<V>, value: V)
    requires room { length values.old.items < vec_capacity values.old }
    ensures items { values.new.items ≡ values.old.items ++ value ∷ [] }
    ensures capacity { vec_capacity values.old ≤ vec_capacity values.new }
{
    values.push(value).unwrap();
}

impl<V, L: Keeps<V>> NumberedLocks<V, L> {
    // Takes what lies in a slot, if that is free. What is held then would never be given back.
    fn take_cell<R: Wait>(
        rt: &R,
        closed: &mut Closed<Option<Cell<V>>, Global>,
        slot: usize,
        count: u32,
    ) -> Cell<V>
        requires there { slot < count + 1 }
        requires words { slots_len closed.old.words ≡ 16 * (count + 1) }
        requires slots { slots_len closed.old.slots ≡ count + 1 }
        requires full { IsFull closed.old.words }
        requires here { IsTrue (slice_index_or (slots_filled closed.old.slots) slot false) }
        requires left { IsLeft (Fits L.keeps count) (count + 1) (slots_items closed.old.words)
            (slots_items closed.old.slots) }
        ensures fits { Fits L.keeps count slot result }
        ensures words { closed.new.words ≡ closed.old.words }
        ensures items { slots_items closed.new.slots ≡ slots_items closed.old.slots }
        ensures flags { slots_filled closed.new.slots
            ≡ slice_set (slots_filled closed.old.slots) slot false }
        ensures slots { slots_len closed.new.slots ≡ slots_len closed.old.slots }
    {
        see_free(rt, closed, slot);
        let found = closed.take(slot);
        let Some(cell) = found else { unreachable!() };
        cell
    }

    /// Ends the locks, and gives all values back, in the order of their places.
    ///
    /// No place is held then, since each `Held` borrows the locks. The compiler alone says so, and
    /// no proof: at a place that were held the call would never return.
    pub fn close<R: Wait>(self, rt: &R) -> Vec<V>
        ensures many { length result.items ≡ places self }
        ensures kept { AreKept L.keeps result.items }
    {
        let NumberedLocks { table, count } = self;
        let mut closed = table.close();
        let first = Self::take_cell(rt, &mut closed, 0, count);
        let Cell::Spare(mut values) = first else {
            unreachable!()
        };
        for place in 0..count {
            let cell = Self::take_cell(rt, &mut closed, place as usize + 1, count);
            let Cell::Value(value) = cell else {
                unreachable!()
            };
            add(&mut values, value);
        }
        closed.free();
        values
    }
}
