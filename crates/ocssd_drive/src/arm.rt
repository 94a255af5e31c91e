//! What the units of a drive are to be armed with.
ghost use Rattle.std.specs.Prelude.{ℕ, ◌≡◌, ◌^◌, ◌<◌, length, slice_get, IfOk, Option, Some};
ghost use Rattle.atomic_table.specs.Seated.{TableId};
ghost use Rattle.ocssd_drive.specs.Drive.{AreArmings, HasTallies, HasWord, IsKeeper, armed_units, fitting_fuse, other_seat_of};
ghost use Rattle.ocssd_drive.specs.declared.journal.Arming.{Arming};

use crate::journal::Arming;
use crate::memory_unit::MemoryUnit;
use crate::stop_word::StopSeat;
use crate::tally::Tally;
use std::alloc::{AllocError, Global};
use unit_port::{CommandKind, FaultPlan, Fuse};

/// A fuse for a unit that isn't there is none.
pub(crate) fn fitting(units: usize, fuse: Option<Fuse>) -> Option<Fuse>
    ensures { result ≡ fitting_fuse units fuse }
{
    match fuse {
        Some(fuse) if (fuse.unit as usize) < units => Some(fuse),
        _ => None,
    }
}

/// What each unit is to be armed with, in the order of the units.
pub(crate) fn make_armings(
    alloc: Global,
    units: u32,
    plans: &[FaultPlan],
    fuse: Option<Fuse>,
) -> Result<Vec<Arming>, AllocError>
    requires { fuse ≡ fitting_fuse units fuse }
    ensures count { IfOk result (λ armings. length armings.items ≡ units) }
    ensures each { IfOk result (λ armings. (word : Option TableId) × HasWord fuse word
        × AreArmings plans.now fuse word armings.items) }
{
    let mut keeper = make_keeper(alloc, &fuse)?;
    let mut armings = make_others(alloc, units, plans, &mut keeper)?;
    if let Some(fuse) = fuse {
        armings[fuse.unit as usize].stop = keeper;
    }
    Ok(armings)
}

// The seat of the fuse's unit, where there is a fuse.
fn make_keeper(alloc: Global, fuse: &Option<Fuse>) -> Result<Option<StopSeat>, AllocError>
    ensures { IfOk result (IsKeeper fuse.now) }
{
    match fuse {
        Some(_) => Ok(Some(StopSeat::new(alloc)?)),
        None => Ok(None),
    }
}

// What each unit is to be armed with, the seats being those of units without the fuse.
fn make_others(
    alloc: Global,
    units: u32,
    plans: &[FaultPlan],
    keeper: &mut Option<StopSeat>,
) -> Result<Vec<Arming>, AllocError>
    ensures keeper { keeper.new ≡ keeper.old }
    ensures count { IfOk result (λ armings. length armings.items ≡ units) }
    ensures each { IfOk result (λ armings. (i : ℕ) (a : Arming) → slice_get armings.items i ≡ Some a
        → HasTallies plans.now i a × (a.stop ≡ other_seat_of keeper.old)) }
{
    let mut armings = Vec::with_capacity(alloc, units as usize)?;
    for unit in 0..units {
        let stop = other_seat(keeper)?;
        armings.push(make_arming(alloc, unit, plans, stop)?)?;
    }
    Ok(armings)
}

// A seat for another unit.
fn other_seat(keeper: &mut Option<StopSeat>) -> Result<Option<StopSeat>, AllocError>
    ensures keeper { keeper.new ≡ keeper.old }
    ensures seat { IfOk result (λ seat. seat ≡ other_seat_of keeper.old) }
{
    match keeper {
        Some(keeper) => Ok(Some(keeper.split()?)),
        None => Ok(None),
    }
}

fn make_arming(
    alloc: Global,
    unit: u32,
    plans: &[FaultPlan],
    stop: Option<StopSeat>,
) -> Result<Arming, AllocError>
    ensures { IfOk result (λ a. HasTallies plans.now unit a × (a.stop ≡ stop)) }
{
    let programs = Tally::new(alloc, plans, unit, CommandKind::Program)?;
    let fetches = Tally::new(alloc, plans, unit, CommandKind::Fetch)?;
    let resets = Tally::new(alloc, plans, unit, CommandKind::Reset)?;
    Ok(Arming {
        programs,
        fetches,
        resets,
        stop,
    })
}

/// Arms each unit with its own.
pub(crate) fn install(
    units: &mut [MemoryUnit],
    mut armings: Vec<Arming>,
    plans: &[FaultPlan],
    fuse: Option<Fuse>,
)
    requires count { length armings.items ≡ length units.old }
    requires few { length units.old < 2 ^ 32 }
    requires each { (word : Option TableId) × HasWord fuse word
        × AreArmings plans.now fuse word armings.items }
    ensures { (word : Option TableId) → AreArmings plans.now fuse word armings.items
        → units.new ≡ armed_units plans.now fuse word units.old }
{
    while let Some(arming) = armings.pop() {
        let at = armings.len();
        let unit = &mut units[at];
        unit.arm(arming, at as u32, plans, fuse);
    }
}
