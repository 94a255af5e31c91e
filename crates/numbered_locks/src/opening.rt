// How the locks begin.
ghost use Rattle.std.specs.Prelude.{◌≡◌, ◌+◌, ◌*◌, ◌<◌, ◌^◌, [], length, replicate, IfOk, IfErr};
ghost use Rattle.numbered_locks.specs.Cells.{Fits};
ghost use Rattle.numbered_locks.specs.Handles.{AreKept, places};
ghost use Rattle.numbered_locks.specs.Steps.{filling};

use crate::cell::Cell;
use crate::keeps::Keeps;
use crate::locks::{HELD, LINE, NumberedLocks};
use crate::rule::Draw;
use crate::view::View;
use atomic_table::{Seat, Table};
use std::alloc::{AllocError, AllocFailed, Global};

// The words of locks that are still to be filled, for so many places.
fn first_words(alloc: Global, count: usize) -> Result<Vec<u64>, AllocError>
    requires few { count < 2 ^ 32 }
    ensures words { IfOk result (λ w. w.items ≡ replicate (16 * (count + 1)) 1) }
{
    vec![in alloc; HELD; LINE * (count + 1)]
}

impl<V, L: Keeps<V>> NumberedLocks<V, L> {
    /// Locks with these values, each of which keeps what its place says.
    ///
    /// Fails only where there isn't as much memory, and the values come back then. No later call
    /// takes any.
    pub fn new(alloc: Global, values: Vec<V>) -> Result<NumberedLocks<V, L>, AllocFailed<Vec<V>>>
        requires few { length values.items < 2 ^ 32 }
        requires kept { AreKept L.keeps values.items }
        ensures count { IfOk result (λ l. places l ≡ length values.items) }
        ensures unchanged { IfErr result (λ e. e.value.items ≡ values.items) }
    {
        let count = values.len();
        let Ok(words) = first_words(alloc, count) else {
            return Err(AllocFailed { value: values });
        };
        let count = count as u32;
        let made = Table::vacant(alloc, words.as_slice(), count as usize + 1, &count);
        let Ok((table, seat)) = made else {
            return Err(AllocFailed { value: values });
        };
        let locks = NumberedLocks { table, count };
        locks.fill(seat, values);
        Ok(locks)
    }

    // Puts each value into the slot of its place, and the vector into the first slot.
    fn fill(&self, seat: Seat<Option<Cell<V>>, View>, values: Vec<V>)
        requires locks { seat.table_id ≡ self.now.table.shared.table_id }
        requires first { seat.me ≡ (filling (places self.now + 1), []) }
        requires many { length values.items ≡ places self.now }
        requires kept { AreKept L.keeps values.items }
    {
        let mut seat = seat;
        let mut values = values;
        while let Some(value) = values.pop() {
            let place = values.len();
            self.put(&mut seat, place + 1, Cell::Value(value));
        }
        self.put(&mut seat, 0, Cell::Spare(values));
    }

    // Fills the last of the slots that the seat has.
    fn put(&self, seat: &mut Seat<Option<Cell<V>>, View>, slot: usize, cell: Cell<V>)
        requires locks { seat.old.table_id ≡ self.now.table.shared.table_id }
        requires last { seat.old.me ≡ (filling (slot + 1), []) }
        requires there { slot < places self.now + 1 }
        requires fits { Fits L.keeps (places self.now) slot cell }
        ensures locks { seat.new.table_id ≡ seat.old.table_id }
        ensures fewer { seat.new.me ≡ (filling slot, []) }
    {
        self.table.shared.load::<Draw>(seat, LINE * slot);
        self.give(seat, slot, cell);
    }
}
