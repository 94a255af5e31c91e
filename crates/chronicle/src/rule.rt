// The rule of a chronicle's words, what each kind of step tells, and how seats are split and
// joined.
ghost use Rattle.std.specs.Prelude.{◌≡◌};
ghost use Rattle.pblk_world.specs.Events.{Decides, Event as EventOf, Free};
ghost use Rattle.chronicle.specs.Views.{Past as PastOf};
ghost use Rattle.chronicle.specs.Rule.{IsKept, IsHeard, IsWhole};
ghost use Rattle.chronicle.specs.Steps.{appended, began, but_first, first_of, merged, no_past};
ghost use Rattle.chronicle.specs.Steps.{lent, named, naming_next, noted, spent, starting};
ghost use Rattle.chronicle.specs.Steps.{with_heard, without_makers};

use crate::view::View;
use atomic_table::{Join, Play, Split, TableRule};
use std::marker::{Brand, PhantomData};

/// What a chronicle keeps between any two steps, and the view of its first seat. The key is the
/// number of its logs.
pub struct Order;

impl TableRule<(), View, usize> for Order {
    ghost holds = { λ _ s. IsKept s };

    ghost first = { starting };
}

/// What a chronicle begins with. The call that begins it picks it.
pub(crate) trait Start {
    ghost past: { PastOf };
}

impl Start for Brand {
    ghost past = { no_past };
}

/// The event that is appended. The call that appends it picks it.
pub(crate) trait Row {
    ghost event: { EventOf };
}

impl Row for Brand {
    ghost event = { Decides (Free 0) };
}

/// The first store, by which the only seat gets the image and the logs so far.
pub(crate) struct Begin<B> {
    past: PhantomData<B>,
}

impl<B: Start> Play<(), View> for Begin<B> {
    ghost then = { λ s m n w. w ≡ (began m.0 B.past, m.1) };
}

/// A store of an author in the word of its own log.
pub(crate) struct Append<R> {
    row: PhantomData<R>,
}

impl<R: Row> Play<(), View> for Append<R> {
    ghost then = { λ s m n w. w ≡ (appended m.0 s.word R.event, m.1) };
}

/// A load of any word, after another seat was taken in.
pub(crate) struct Hear;

impl Play<(), View> for Hear {
    ghost then = { λ s m n w. (w ≡ (merged m.0, m.1)) × IsHeard m.0.mine m.0.heard };
}

/// A load of any word, by a seat that may own all logs.
pub(crate) struct Look;

impl Play<(), View> for Look {
    ghost then = { λ s m n w. (w ≡ m) × IsWhole m.0.mine };
}

/// A seat for the author of the first log that the seat owns.
pub(crate) struct FirstLog;

impl Split<View> for FirstLog {
    ghost left = { but_first };

    ghost right = { first_of };
}

/// A seat that owns no log, numbers no commands, and knows as much.
pub(crate) struct Notes;

impl Split<View> for Notes {
    ghost left = { λ v. v };

    ghost right = { noted };
}

/// A seat that numbers the commands which the seat numbered.
pub(crate) struct Lends;

impl Split<View> for Lends {
    ghost left = { without_makers };

    ghost right = { lent };
}

/// A seat that numbers the commands of the next new worker.
pub(crate) struct Names;

impl Split<View> for Names {
    ghost left = { naming_next };

    ghost right = { named };
}

/// Another seat is taken in, with what it owns and knows.
pub(crate) struct Meets;

impl Join<View> for Meets {
    ghost both = { with_heard };

    ghost spent = { spent };
}
