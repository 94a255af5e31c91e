//! What the rule of the locks says of a place.
ghost use Rattle.std.specs.Prelude.{◌+◌, ◌<◌, ℕ, ◌⊎◌, Option};
ghost use Rattle.atomic_table.specs.Table.{State};
ghost use Rattle.numbered_locks.specs.Cells.{Fits};
ghost use Rattle.numbered_locks.specs.declared.cell.Cell.{Cell as CellOf};
ghost use Rattle.numbered_locks.specs.declared.view.View.{View as ViewOf};
ghost use Rattle.numbered_locks.specs.Kept.{IsFree, IsHeld, Kept};

use crate::keeps::Keeps;

/// The table of the locks keeps its rule at every step of any seat. Where the rule holds, each
/// place is free, and then its value lies in its slot, and no seat has it; or exactly one seat has
/// it.
pub fn a_place_is_free_or_has_one_holder<V, L: Keeps<V>>()
    ensures { (count place : ℕ) (s : State (Option (CellOf V)) ViewOf)
        → Kept (Fits L.keeps count) (count + 1) s → place < count
        → IsFree (Fits L.keeps count) s (place + 1)
        ⊎ IsHeld (Fits L.keeps count) s (place + 1) }
{}
