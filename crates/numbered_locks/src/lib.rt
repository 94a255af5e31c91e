//! Locks by number: each place has a value of its own, of which the place says something.
//!
//! Any thread takes the value of a place by `lock`, and gives a value back by `unlock`. A `Mutex`
//! of the library says of the value in it only what the value's type does. Here the place says
//! which value it is, by the relation of the trait `Keeps`: so a caller learns it at each lock,
//! owes it at each unlock, and has all values in the order of their places at the end. Where no
//! number is needed, a `Mutex` serves.
//!
//! A place has one word, which is free, held, or held while somebody may wait for it (Drepper,
//! "Futexes Are Tricky", 2011, the second mutex), and one slot, in which the value lies while the
//! place is free. A lock that finds the word free is one exchange of it, and so is an unlock;
//! neither calls the system where nobody waits. A thread that doesn't find it free tries again
//! after longer and longer pauses, and then sleeps on the word.
#![tactic(auto)]

mod cell;
mod closing;
mod keeps;
mod laws;
mod locking;
mod locks;
mod opening;
mod rule;
mod view;

pub use keeps::Keeps;
pub use laws::a_place_is_free_or_has_one_holder;
pub use locks::{Held, NumberedLocks};
