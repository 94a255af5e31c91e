// The rule of the words and slots, and what each kind of step tells.
ghost use Rattle.std.specs.Prelude.{◌≡◌, ◌+◌, [], ◌∷◌, ℕ, None};
ghost use Rattle.atomic_table.specs.Table.{rest};
ghost use Rattle.numbered_locks.specs.Cells.{Fits};
ghost use Rattle.numbered_locks.specs.Kept.{Kept};
ghost use Rattle.numbered_locks.specs.Steps.{Takes, filling, gave, holding, idle};

use crate::cell::Cell;
use crate::keeps::Keeps;
use crate::view::View;
use atomic_table::{Play, TableRule};
use std::marker::PhantomData;

/// What is kept between any two steps, and the first seat's view. The key is how many places there
/// are.
pub struct Order<L> {
    of: PhantomData<L>,
}

impl<V, L: Keeps<V>> TableRule<Option<Cell<V>>, View, u32> for Order<L> {
    ghost holds = { λ count s. Kept (Fits L.keeps count) (count + 1) s };

    ghost first = { λ count. filling (count + 1) };
}

/// A load that makes a new seat, which has nothing yet.
pub(crate) struct Enter;

impl<V> Play<Option<Cell<V>>, View> for Enter {
    ghost then = { λ s m n w. w ≡ (idle, []) };
}

/// An exchange that takes a place where it finds it free.
pub(crate) struct Take<L> {
    of: PhantomData<L>,
}

impl<V, L: Keeps<V>> Play<Option<Cell<V>>, View> for Take<L> {
    ghost then = { Takes L.keeps };
}

/// An exchange that makes the place free, whose slot is out with a value.
pub(crate) struct Give;

impl<V> Play<Option<Cell<V>>, View> for Give {
    ghost then = { λ s m n w. w ≡ (gave m.0, rest m.1) };
}

/// A load by the seat that has all slots below a number, which takes the last of them.
pub(crate) struct Draw;

impl<V> Play<Option<Cell<V>>, View> for Draw {
    ghost then = { λ s m n w. (i : ℕ) → m.0 ≡ filling (i + 1)
        → w ≡ (holding i i, (i, None) ∷ []) };
}
