//! Takes plans and fuse from the units of a drive.
ghost use Rattle.std.specs.Prelude.{ℕ, ◌≡◌, ◌<◌, length, map, slice_get, true, false, IfSome, IfNone, Some};
ghost use Rattle.std.specs.Option.{IsSome};
ghost use Rattle.unit_port.specs.Unit.{IsStopped};
ghost use Rattle.ocssd_drive.specs.Drive.{AreArmedTogether, FuseFell, KnowsMore};
ghost use Rattle.ocssd_drive.specs.Journal.{SeatTells};
ghost use Rattle.ocssd_drive.specs.Outcomes.{GoesByArms};
ghost use Rattle.ocssd_drive.specs.Faults.{fuse_is_at};
ghost use Rattle.ocssd_drive.specs.Units.{WornUnit, disarmed};

use crate::memory_unit::MemoryUnit;
use crate::stop_word::StopSeat;

/// Disarms each unit, and brings what they know of the stop word together.
pub(crate) fn disarm_units(units: &mut [MemoryUnit])
    requires { AreArmedTogether units.old }
    ensures units { units.new ≡ map disarmed units.old }
    ensures stopped { (i : ℕ) (u : WornUnit) → slice_get units.old i ≡ Some u → IsStopped u.unit
        → FuseFell units.old u.unit.armed }
    ensures by_arms { (i : ℕ) (u : WornUnit) → slice_get units.old i ≡ Some u → GoesByArms u }
{
    match fuse_unit(units) {
        Some(at) => disarm_fused(units, at),
        None => disarm_plain(units),
    }
}

// The unit on which the fuse falls, if there is a fuse.
fn fuse_unit(units: &[MemoryUnit]) -> Option<usize>
    ensures some { IfSome result (λ at. (u : WornUnit) × (slice_get units.now at ≡ Some u)
        × (fuse_is_at u.unit.armed ≡ true)) }
    ensures none { IfNone result ((i : ℕ) (u : WornUnit) → slice_get units.now i ≡ Some u
        → fuse_is_at u.unit.armed ≡ false) }
{
    units.iter().position(MemoryUnit::has_fuse)
}

// Disarms units without a fuse.
fn disarm_plain(units: &mut [MemoryUnit])
    ensures units { units.new ≡ map disarmed units.old }
    ensures by_arms { (i : ℕ) (u : WornUnit) → slice_get units.old i ≡ Some u → GoesByArms u }
{
    for unit in units {
        unit.disarm();
    }
}

// Disarms units with a fuse, which falls on the unit `at`.
fn disarm_fused(units: &mut [MemoryUnit], at: usize)
    requires together { AreArmedTogether units.old }
    requires there { (u : WornUnit) × (slice_get units.old at ≡ Some u)
        × (fuse_is_at u.unit.armed ≡ true) }
    ensures units { units.new ≡ map disarmed units.old }
    ensures stopped { (i : ℕ) (u : WornUnit) → slice_get units.old i ≡ Some u → IsStopped u.unit
        → FuseFell units.old u.unit.armed }
    ensures by_arms { (i : ℕ) (u : WornUnit) → slice_get units.old i ≡ Some u → GoesByArms u }
{
    let unit = &mut units[at];
    let Some(mut keeper) = unit.disarm() else {
        unreachable!()
    };
    for i in 0..units.len() {
        if i != at {
            let unit = &mut units[i];
            join_unit(unit, &mut keeper);
        }
    }
    keeper.load();
}

// Disarms a unit, and takes in its seat at the stop word.
fn join_unit(unit: &mut MemoryUnit, keeper: &mut StopSeat)
    requires word { unit.old.unit.armed.word ≡ Some keeper.old.word }
    requires fused { IsSome unit.old.unit.armed.fuse }
    requires other { fuse_is_at unit.old.unit.armed ≡ false }
    ensures unit { unit.new ≡ disarmed unit.old }
    ensures by_arms { GoesByArms unit.old }
    ensures keeper { KnowsMore keeper.old keeper.new }
    ensures stopped { IsStopped unit.old.unit → keeper.new.view.found ≡ true }
{
    let Some(seat) = unit.disarm() else {
        unreachable!()
    };
    keeper.join(seat);
}
