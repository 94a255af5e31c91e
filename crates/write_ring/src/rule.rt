// The rule of the ring's words and slots, what each kind of step tells, and how seats are split and joined.
ghost use Rattle.std.specs.Prelude.{◌≡◌, ◌≤◌, ◌^◌, [], ◌∷◌, true, false};
ghost use Rattle.atomic_table.specs.Table.{rest};
ghost use Rattle.write_ring.specs.declared.cell.Cell.TheVariants as cell;
ghost use Rattle.write_ring.specs.Cells.{slot};
ghost use Rattle.write_ring.specs.Frames.{Carries, Fits, IsBlank, IsFree, front_row};
ghost use Rattle.write_ring.specs.Kept.{Kept};
ghost use Rattle.write_ring.specs.Steps.{Claims, first_view, freed_next, gave_back, granted_to};
ghost use Rattle.write_ring.specs.Steps.{joined_pass, less_share, new_pass, only_intake, put_next};
ghost use Rattle.write_ring.specs.Steps.{saw_claimed, saw_freed, saw_granted, spent, took_free};
ghost use Rattle.write_ring.specs.Steps.{with_intake, without_intake};
ghost use Rattle.write_ring.specs.Tells.{Finds, Gains, SeesClaimed};

use crate::cell::Cell;
use crate::view::{Key, View};
use atomic_table::{Join, Play, Split, TableRule};

/// What a ring keeps between any two steps, and its first seat's view.
pub struct Order;

impl TableRule<Cell, View, Key> for Order {
    ghost holds = { λ key s. Kept key (IsFree key) IsBlank (Carries key) (Fits key) s };

    ghost first = { first_view };
}

/// A load of `claimed`.
pub(crate) struct LookClaimed;

impl Play<Cell, View> for LookClaimed {
    ghost then = { λ s m n w. (w ≡ (saw_claimed m.0 n, m.1)) × SeesClaimed m.0 n };
}

/// A load of `freed` by the intake, which knows it.
pub(crate) struct LookFreed;

impl Play<Cell, View> for LookFreed {
    ghost then = { λ s m n w. (w ≡ (saw_freed m.0 n, m.1))
        × ((n ≤ 2 ^ 62) × (n ≡ m.0.intake.freed)) };
}

/// A load of `granted`.
pub(crate) struct LookGranted;

impl Play<Cell, View> for LookGranted {
    ghost then = { λ s m n w. (w ≡ (saw_granted m.0 n, m.1)) × (n ≤ 2 ^ 62) };
}

/// A load of `granted` by the intake, which knows it.
pub(crate) struct LookOwn;

impl Play<Cell, View> for LookOwn {
    ghost then = { λ s m n w. (w ≡ (saw_granted m.0 n, m.1)) × (n ≡ m.0.intake.granted) };
}

/// A claim for users.
pub(crate) struct ClaimUser;

impl Play<Cell, View> for ClaimUser {
    ghost then = { λ s m n w. Claims false m.0 s.first s.second n w.0
        × Gains IsFree m.0 s.slots s.first s.second n w.1 };
}

/// A claim for copies.
pub(crate) struct ClaimCopy;

impl Play<Cell, View> for ClaimCopy {
    ghost then = { λ s m n w. Claims true m.0 s.first s.second n w.0
        × Gains IsFree m.0 s.slots s.first s.second n w.1 };
}

/// A store of the turn word of the first open position, whose slot is in front with its entry.
pub(crate) struct Fill;

impl Play<Cell, View> for Fill {
    ghost then = { λ s m n w. w ≡ (put_next m.0 (front_row m.1), rest m.1) };
}

/// A load of the turn word of the next position.
pub(crate) struct Find;

impl Play<Cell, View> for Find {
    ghost then = { λ s m n w. Finds Carries Fits m.0 s.slots n w };
}

/// A load of the same turn word, by which the empty slot goes back.
pub(crate) struct GiveBack;

impl Play<Cell, View> for GiveBack {
    ghost then = { λ s m n w. w ≡ (gave_back m.0 n, rest m.1) };
}

/// A load of the turn word of the first position that isn't freed, whose slot is empty.
pub(crate) struct TakeEmpty;

impl Play<Cell, View> for TakeEmpty {
    ghost then = { λ s m n w. w
        ≡ (took_free m.0 n, (slot s.slots m.0.intake.freed, cell.Empty) ∷ []) };
}

/// A store of `freed`, by which that slot goes back with a free frame.
pub(crate) struct Free;

impl Play<Cell, View> for Free {
    ghost then = { λ s m n w. w ≡ (freed_next m.0, rest m.1) };
}

/// A store of `granted`.
pub(crate) struct Grant;

impl Play<Cell, View> for Grant {
    ghost then = { λ s m n w. w ≡ (granted_to m.0 n, m.1) };
}

/// A pass gives a share to a new one, and takes one in.
pub(crate) struct Passes;

impl Split<View> for Passes {
    ghost left = { less_share };

    ghost right = { λ v. new_pass v.key };
}

impl Join<View> for Passes {
    ghost both = { joined_pass };

    ghost spent = { spent };
}

/// The intake leaves a seat, with the copies.
pub(crate) struct Parted;

impl Split<View> for Parted {
    ghost left = { without_intake };

    ghost right = { only_intake };
}

/// All that a seat knows goes out of it, and back into it.
pub(crate) struct Moved;

impl Split<View> for Moved {
    ghost left = { λ _. spent };

    ghost right = { λ v. v };
}

impl Join<View> for Moved {
    ghost both = { λ _ w. w };

    ghost spent = { spent };
}

/// The intake goes into a pass.
pub(crate) struct Handed;

impl Join<View> for Handed {
    ghost both = { with_intake };

    ghost spent = { spent };
}
