// The rule of the board's words, what each kind of step tells, and how seats are split and joined.
ghost use Rattle.std.specs.Prelude.{◌≡◌, ◌≤◌, ◌^◌, ℕ};
ghost use Rattle.run_threads.specs.Rule.{IsConsistent, IsKept};
ghost use Rattle.run_threads.specs.Steps.{heard, joined, posted, rest_of, share_of, spent, starting};

use crate::view::View;
use atomic_table::{Join, Play, Split, TableRule};
use std::marker::{Brand, PhantomData};

/// What the board keeps between any two steps, and the view of its first seat. The key is how many
/// names are posted.
pub struct Order;

impl TableRule<(), View, usize> for Order {
    ghost holds = { λ _ s. IsKept s };

    ghost first = { starting };
}

/// Past which word a new seat may post none. The call that makes the seat picks it.
pub(crate) trait Share {
    ghost past: { ℕ };
}

impl Share for Brand {
    ghost past = { 0 };
}

/// A store in the next of the seat's words.
pub(crate) struct Posts;

impl Play<(), View> for Posts {
    ghost then = { λ s m n w. w ≡ (posted m.0 n, m.1) };
}

/// A load of any word.
pub(crate) struct Hears;

impl Play<(), View> for Hears {
    ghost then = { λ s m n w. (w ≡ (heard m.0 s.word n, m.1)) × (n ≤ 2 ^ 63) };
}

/// A load of any word by a seat that is told that what it knows fits together.
pub(crate) struct Looks;

impl Play<(), View> for Looks {
    ghost then = { λ s m n w. (w ≡ m) × IsConsistent m.0.known };
}

/// A seat for the first of the words that the seat may post.
pub(crate) struct Deals<D> {
    share: PhantomData<D>,
}

impl<D: Share> Split<View> for Deals<D> {
    ghost left = { rest_of D.past };

    ghost right = { share_of D.past };
}

/// Another seat is taken in, with what it knows.
pub(crate) struct Meets;

impl Join<View> for Meets {
    ghost both = { joined };

    ghost spent = { spent };
}
