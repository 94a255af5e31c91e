// The locks, and the right to give a value back.
ghost use Rattle.std.specs.Prelude.{◌≡◌, ◌+◌, ◌*◌, ◌<◌, [], ◌∷◌, None};
ghost use Rattle.numbered_locks.specs.Steps.{holding};

use crate::cell::Cell;
use crate::keeps::Keeps;
use crate::rule::Order;
use crate::view::View;
use atomic_table::{Seat, Table};
use std::alloc::Global;
use std::marker::PhantomData;

// Where the words lie: each on a cache line of its own, of so many words.
pub(crate) const LINE: usize = 16;

// The value is in its slot.
pub(crate) const FREE: u64 = 0;

// Some thread has the value.
pub(crate) const HELD: u64 = 1;

// The same, and others may sleep on the word.
pub(crate) const AWAITED: u64 = 2;

/// Locks that are numbered from 0, each with a value, for any number of threads.
///
/// The values lie side by side, each in a slot of its own. Where they are small, and threads use
/// neighbouring places at once, put them into a `CachePadded` each.
#[derive(Drop)]
pub struct NumberedLocks<V, L: Keeps<V>> {
    pub(crate) table: Table<Option<Cell<V>>, View, u32, Order<L>, Global>,
    pub(crate) count: u32,
    ghost counted: { table.shared.key ≡ count },
    ghost words: { table.shared.table_id.words ≡ 16 * (count + 1) },
    ghost slots: { table.shared.table_id.slots ≡ count + 1 },
}

/// The right to give the value of one place back, which its taker has.
///
/// It can't be dropped or copied: it ends in `NumberedLocks::unlock`.
pub struct Held<'a, V> {
    pub(crate) seat: Seat<Option<Cell<V>>, View>,
    pub(crate) place: u32,
    pub(crate) of: PhantomData<&'a ()>,
    ghost there: { place + 1 < seat.table_id.slots },
    ghost empty: { seat.me ≡ (holding 0 (place + 1), (place + 1, None) ∷ []) },
}
