//! A law on the writes of a port's users: it is the contract of a function that does nothing.

ghost use Rattle.std.specs.Prelude.{◌≡◌, ◌-◌, ℕ, List};
ghost use Rattle.std.specs.List.{Contains, range_with_len};
ghost use Rattle.pblk_model.specs.RingState.{between, times};
ghost use Rattle.block_port.specs.ByPlace.{HasItsSectors, KeysRise, ThreadWrite};
ghost use Rattle.block_port.specs.ByPlace.{all_lines, by_place, covered, first_of, own_writes};
ghost use Rattle.block_port.specs.Own.{PlacedSector, lines_of};
ghost use Rattle.block_port.specs.Port.{Rise, positions};

/// Let the writes of several threads be put in the order of their places. A thread's own writes
/// stay in the order in which they were, if none begins before an earlier one.
///
/// If each position from a first one up to some number is in the place of exactly one write, and no
/// other position is in any, the lines of these writes stand at just these positions, one behind
/// another. If each position of a history whose positions rise is in one place, no other is in any,
/// and each line of a write is a line of that history, the lines are the history.
pub fn writes_by_place_are_the_history()
    ensures each { (writes : List ThreadWrite) (thread : ℕ)
        → KeysRise first_of (own_writes thread writes)
        → own_writes thread (by_place writes) ≡ own_writes thread writes }
    ensures tiled { (writes : List ThreadWrite) (first claimed : ℕ)
        → ((w : ThreadWrite) → Contains writes w → HasItsSectors w)
        → ((x : ℕ) → covered x writes ≡ between first claimed x)
        → positions (all_lines (by_place writes)) ≡ range_with_len first (claimed - first) }
    ensures history { (writes : List ThreadWrite) (history : List PlacedSector) (from to : ℕ)
        → ((w : ThreadWrite) → Contains writes w → HasItsSectors w) → Rise from to history
        → ((x : ℕ) → covered x writes ≡ times x (positions history))
        → ((w : ThreadWrite) (line : PlacedSector) → Contains writes w
        → Contains (lines_of w.write) line → Contains history line)
        → all_lines (by_place writes) ≡ history }
{}
