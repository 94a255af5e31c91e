// The ring's words and slots.
ghost use Rattle.std.specs.Prelude.{◌≡◌, ◌<◌, ◌+◌, ◌*◌, ◌^◌};

use crate::cell::Cell;
use crate::rule::Order;
use crate::view::{Key, View};
use atomic_table::Table;
use std::alloc::Global;
use std::sync::atomic::AtomicU64;

// Where the words lie: each on a cache line of its own, of so many words.
pub(crate) const LINE: usize = 16;

pub(crate) const CLAIMED: usize = 0;

pub(crate) const FREED: usize = LINE;

pub(crate) const GRANTED: usize = 2 * LINE;

// From here on each slot has a turn word.
pub(crate) const TURNS: usize = 3 * LINE;

/// A ring of entries, for any number of threads.
///
/// It can't be dropped: it ends by `close`, which gives its frames back.
pub struct Ring {
    pub(crate) table: Table<Cell, View, Key, Order, Global>,
    pub(crate) size: u64,
    pub(crate) first: u64,
    // How many threads doze.
    pub(crate) sleepers: AtomicU64,
    // How many threads wait for a grant.
    pub(crate) waiters: AtomicU64,
    // What was granted when the last of these was woken.
    pub(crate) told: AtomicU64,
    ghost sized: { table.shared.key.size ≡ size },
    ghost begins: { table.shared.key.first ≡ first },
    ghost small: { size < 2 ^ 32 },
    ghost some: { 0 < size },
    ghost words: { table.shared.table_id.words ≡ 48 + 16 * size },
    ghost slots: { table.shared.table_id.slots ≡ size },
}
