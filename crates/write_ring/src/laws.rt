//! What the rule of a ring's table says of the ring.
ghost use Rattle.atomic_table.specs.Table.{State};
ghost use Rattle.write_ring.specs.declared.cell.Cell.{Cell as CellOf};
ghost use Rattle.write_ring.specs.declared.view.Key.{Key as KeyOf};
ghost use Rattle.write_ring.specs.declared.view.View.{View as ViewOf};
ghost use Rattle.write_ring.specs.Frames.{Carries, Fits, IsBlank, IsFree};
ghost use Rattle.write_ring.specs.Kept.{Kept};
ghost use Rattle.write_ring.specs.State.{IsInRingState};

/// A ring's table keeps its rule at every step of any seat. Where the rule holds, the words and the seats are
/// in a ring state.
pub fn a_ring_is_in_a_ring_state()
    ensures { (key : KeyOf) (s : State CellOf ViewOf)
        → Kept key (IsFree key) IsBlank (Carries key) (Fits key) s → IsInRingState key s }
{}
