// A value is taken and given back.
ghost use Rattle.std.specs.Prelude.{◌≡◌, ◌+◌, ◌<◌, ◌≤◌, [], ◌∷◌, true, false, MatchBool, None};
ghost use Rattle.numbered_locks.specs.Cells.{Fits};
ghost use Rattle.numbered_locks.specs.Handles.{IsHeldOf, held_place, places};
ghost use Rattle.numbered_locks.specs.Steps.{IsTaken, filling, holding, idle};

use crate::cell::Cell;
use crate::keeps::Keeps;
use crate::locks::{AWAITED, FREE, HELD, Held, LINE, NumberedLocks};
use crate::rule::{Enter, Give, Take};
use crate::view::View;
use atomic_table::Seat;
use crossbeam_utils::Backoff;
use std::marker::PhantomData;
use std::sync::Wait;

impl<V, L: Keeps<V>> NumberedLocks<V, L> {
    /// How many places there are.
    pub fn count(&self) -> u32
        ensures count { result ≡ places self.now }
    {
        self.count
    }

    // Takes the place if it is free.
    fn try_take(&self, seat: &mut Seat<Option<Cell<V>>, View>, place: u32) -> bool
        requires locks { seat.old.table_id ≡ self.now.table.shared.table_id }
        requires idle { seat.old.me ≡ (idle, []) }
        requires there { place < places self.now }
        ensures locks { seat.new.table_id ≡ seat.old.table_id }
        ensures taken { MatchBool result (IsTaken L.keeps place seat.new.me)
            (seat.new.me ≡ (idle, [])) }
    {
        let word = LINE * (place as usize + 1);
        let found = self
            .table
            .shared
            .compare_exchange::<Take<L>>(seat, word, FREE, HELD);
        found == FREE
    }

    // The same for a thread that is to sleep where it isn't: in both cases others may wait from
    // then on, so the unlock that comes next wakes one.
    fn try_take_awaited(&self, seat: &mut Seat<Option<Cell<V>>, View>, place: u32) -> bool
        requires locks { seat.old.table_id ≡ self.now.table.shared.table_id }
        requires idle { seat.old.me ≡ (idle, []) }
        requires there { place < places self.now }
        ensures locks { seat.new.table_id ≡ seat.old.table_id }
        ensures taken { MatchBool result (IsTaken L.keeps place seat.new.me)
            (seat.new.me ≡ (idle, [])) }
    {
        let word = LINE * (place as usize + 1);
        self.table.shared.swap::<Take<L>>(seat, word, AWAITED) == FREE
    }

    // Takes the place once it is free: first with pauses, and then with sleeps, from which an
    // unlock wakes.
    fn wait<R: Wait>(&self, rt: &R, seat: &mut Seat<Option<Cell<V>>, View>, place: u32)
        requires locks { seat.old.table_id ≡ self.now.table.shared.table_id }
        requires idle { seat.old.me ≡ (idle, []) }
        requires there { place < places self.now }
        ensures locks { seat.new.table_id ≡ seat.old.table_id }
        ensures taken { IsTaken L.keeps place seat.new.me }
    {
        let word = LINE * (place as usize + 1);
        let backoff = Backoff::new();
        for _ in rt.forever() {
            if backoff.is_completed() {
                if self.try_take_awaited(seat, place) {
                    return;
                }
                self.table.shared.park(rt, word, AWAITED as u32);
            } else {
                backoff.snooze();
                if self.try_take(seat, place) {
                    return;
                }
            }
        }
        unreachable!()
    }

    // Takes the place, at once or later.
    fn take<R: Wait>(&self, rt: &R, seat: &mut Seat<Option<Cell<V>>, View>, place: u32)
        requires locks { seat.old.table_id ≡ self.now.table.shared.table_id }
        requires idle { seat.old.me ≡ (idle, []) }
        requires there { place < places self.now }
        ensures locks { seat.new.table_id ≡ seat.old.table_id }
        ensures taken { IsTaken L.keeps place seat.new.me }
    {
        if !self.try_take(seat, place) {
            self.wait(rt, seat, place);
        }
    }

    // The value comes out of its slot.
    fn take_out(&self, seat: Seat<Option<Cell<V>>, View>, place: u32) -> (Held<'_, V>, V)
        requires locks { seat.table_id ≡ self.now.table.shared.table_id }
        requires there { place < places self.now }
        requires taken { IsTaken L.keeps place seat.me }
        ensures locks { IsHeldOf self.now result.0 }
        ensures place { held_place result.0 ≡ place }
        ensures kept { L.keeps place result.1 }
    {
        let mut seat = seat;
        let found = self
            .table
            .shared
            .exchange(&mut seat, place as usize + 1, None);
        let Some(cell) = found else { unreachable!() };
        let Cell::Value(value) = cell else {
            unreachable!()
        };
        let held = Held {
            seat,
            place,
            of: PhantomData,
        };
        (held, value)
    }

    // A cell goes into the slot that is out with the seat, and the slot is free. Tells what the
    // word was.
    pub(crate) fn give(
        &self,
        seat: &mut Seat<Option<Cell<V>>, View>,
        slot: usize,
        cell: Cell<V>,
    ) -> u64
        requires locks { seat.old.table_id ≡ self.now.table.shared.table_id }
        requires held { (below : _) × (below ≤ slot)
            × (seat.old.me ≡ (holding below slot, (slot, None) ∷ [])) }
        requires there { slot < places self.now + 1 }
        requires fits { Fits L.keeps (places self.now) slot cell }
        ensures locks { seat.new.table_id ≡ seat.old.table_id }
        ensures given { seat.new.me ≡ (filling seat.old.me.0.below, []) }
    {
        let shared = &self.table.shared;
        let found = shared.exchange(seat, slot, Some(cell));
        let None = found else { unreachable!() };
        shared.swap::<Give>(seat, LINE * slot, FREE)
    }

    /// Takes the value of a place, which keeps what the place says. Nobody else has it until it is
    /// given back. Waits while another thread has it.
    pub fn lock<R: Wait>(&self, rt: &R, place: u32) -> (Held<'_, V>, V)
        requires there { place < places self.now }
        ensures locks { IsHeldOf self.now result.0 }
        ensures place { held_place result.0 ≡ place }
        ensures kept { L.keeps place result.1 }
    {
        let word = LINE * (place as usize + 1);
        let (_, mut seat) = self.table.shared.load_new_seat::<Enter>(word);
        self.take(rt, &mut seat, place);
        self.take_out(seat, place)
    }

    /// Gives a value back to the place that is held. It keeps what the place says, and need not be
    /// the one that was taken. Never waits, and wakes one of those who sleep until the place is
    /// free.
    pub fn unlock(&self, held: Held<'_, V>, value: V)
        requires locks { IsHeldOf self.now held }
        requires kept { L.keeps (held_place held) value }
    {
        let Held {
            mut seat,
            place,
            of: _,
        } = held;
        let slot = place as usize + 1;
        let found = self.give(&mut seat, slot, Cell::Value(value));
        if found == AWAITED {
            self.table.shared.wake_one(LINE * slot);
        }
    }
}
