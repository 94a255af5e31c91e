//! What a unit has of the target.

ghost use Rattle.std.specs.Prelude.{◌≡◌, ◌<◌, ◌≤◌, not, [], ◌∷◌, length, take, replicate, IfOk};
ghost use Rattle.std.specs.List.{filter_map, find};
ghost use Rattle.std.specs.Option.{option_map};
ghost use Rattle.pblk_layout.specs.Online.{is_in};
ghost use Rattle.stripe_placer.specs.Entries.{waiting};
ghost use Rattle.stripe_placer.specs.Placing.{Program, placement, program_with, stopped_in};
ghost use Rattle.stripe_placer.specs.Placing.{under_way_in, positions_in, is_under_way, is_stopped, is_ready};
ghost use Rattle.stripe_placer.specs.Placing.UnitRow.{Idle, UnderWay, Stopped};
ghost use Rattle.stripe_placer.specs.Units.{entry_count};
ghost use Rattle.stripe_placer.specs.Inside.{OwnUnits};

use crate::placement::Placement;
use crate::queue::Queue;
use std::alloc::{AllocError, Global};
use std::marker::Model;

/// What became of the stripe that a unit has.
#[derive(Clone, Copy, Debug, PartialEq, Eq)]
pub(crate) enum Turn {
    /// None of its stripes waits for an answer.
    Idle,
    /// The program of this stripe is under way.
    UnderWay(Placement),
    /// The program of this stripe was stopped.
    Stopped(Placement),
}

impl Turn {
    // How many entries the unit's stripe has.
    fn entry_count(&self) -> u32
        ensures { result ≡ entry_count self.now }
    {
        match self {
            Turn::Idle => 0,
            Turn::UnderWay(of) => of.count,
            Turn::Stopped(of) => of.count,
        }
    }
}

/// What a unit has of the target: a stripe that isn't answered, with the positions of its entries.
#[derive(Drop)]
pub(crate) struct UnitState {
    turn: Turn,
    // the first of them are those of the stripe's entries
    positions: [u64; 64],
}

impl Model for UnitState {
    ghost use Rattle.stripe_placer.specs.Placing.{UnitRow};

    ghost Value = { UnitRow };

    ghost use Rattle.stripe_placer.specs.Units.{unit_row, IsUnit};

    ghost view = { unit_row };

    ghost invariant = { IsUnit };
}

fn no_positions() -> [u64; 64]
    ensures { length result ≡ 64 }
{
    [0; 64]
}

impl UnitState {
    /// It has no stripe.
    pub(crate) fn idle() -> UnitState
        ensures { result ≡ Idle }
    {
        UnitState {
            turn: Turn::Idle,
            positions: no_positions(),
        }
    }

    pub(crate) fn is_under_way(&self) -> bool
        ensures { result ≡ is_under_way self.now }
    {
        matches!(self.turn, Turn::UnderWay(_))
    }

    pub(crate) fn is_stopped(&self) -> bool
        ensures { result ≡ is_stopped self.now }
    {
        matches!(self.turn, Turn::Stopped(_))
    }

    /// The program that is under way, if there is one.
    pub(crate) fn under_way(&self) -> Option<Placement>
        ensures { result ≡ option_map placement (under_way_in self.now) }
    {
        match self.turn {
            Turn::Idle => None,
            Turn::UnderWay(of) => Some(of),
            Turn::Stopped(_) => None,
        }
    }

    /// The program that was stopped, if there is one.
    pub(crate) fn stopped(&self) -> Option<Placement>
        ensures { result ≡ option_map placement (stopped_in self.now) }
    {
        match self.turn {
            Turn::Idle => None,
            Turn::UnderWay(_) => None,
            Turn::Stopped(of) => Some(of),
        }
    }

    /// The positions of the entries of its stripe, in their order.
    pub(crate) fn positions(&self) -> &[u64]
        ensures { result.now ≡ positions_in self.now }
    {
        &self.positions[..self.turn.entry_count() as usize]
    }

    /// The program of a new stripe is under way, with the first entries that wait.
    pub(crate) fn begin(&mut self, of: &Placement, queue: &Queue)
        requires few { of.now.count ≤ 64 }
        requires waiting { of.now.count ≤ length (waiting queue.now.entries) }
        ensures { self.new ≡ UnderWay (program_with of.now
            (take of.now.count (waiting queue.now.entries))) }
    {
        queue.copy_to(&mut self.positions, of.count);
        self.turn = Turn::UnderWay(*of);
    }

    /// The program that was stopped is under way again.
    pub(crate) fn again(&mut self)
        ensures { (of : Program) → self.old ≡ Stopped of → self.new ≡ UnderWay of }
    {
        if let Turn::Stopped(of) = self.turn {
            self.turn = Turn::UnderWay(of);
        }
    }

    /// The program that is under way was stopped.
    pub(crate) fn stop(&mut self)
        ensures { (of : Program) → self.old ≡ UnderWay of → self.new ≡ Stopped of }
    {
        if let Turn::UnderWay(of) = self.turn {
            self.turn = Turn::Stopped(of);
        }
    }

    /// Its stripe is answered.
    pub(crate) fn end(&mut self)
        ensures { self.new ≡ Idle }
    {
        self.turn = Turn::Idle;
    }
}

/// So many units, none of which has a stripe.
pub(crate) fn idle_units(alloc: Global, count: u32) -> Result<Vec<UnitState>, AllocError>
    ensures { IfOk result (λ units. units.items ≡ replicate count Idle) }
{
    let mut units = Vec::with_capacity(alloc, count as usize)?;
    for unit in 0..count {
        units.push(UnitState::idle())?;
    }
    Ok(units)
}

// Whether a unit is in a set of them.
fn is_busy(busy: u64, unit: u32) -> bool
    requires { unit < 64 }
    ensures { result ≡ is_in busy unit }
{
    (busy >> unit) & 1 == 1
}

/// Whether a unit takes a program.
pub(crate) fn is_ready(units: &[UnitState], busy: u64, unit: u32) -> bool
    requires inside { unit < length units.now }
    requires few { length units.now ≤ 64 }
    ensures { result ≡ is_ready units.now busy unit }
{
    !is_busy(busy, unit) && !units[unit as usize].is_under_way()
}

// The stripe of a unit that was stopped, where the unit isn't busy.
fn stopped_at(state: &UnitState, busy: u64) -> Option<Placement>
    requires { (of : Program) → state.now ≡ Stopped of → of.unit < 64 }
    ensures { result ≡ option_map placement
        (find (λ of. not (is_in busy of.unit)) (filter_map stopped_in (state.now ∷ []))) }
{
    let of = state.stopped()?;
    if is_busy(busy, of.unit) {
        None
    } else {
        Some(of)
    }
}

/// The first stripe, by unit, that was stopped and whose unit isn't busy.
pub(crate) fn stopped_stripe(units: &[UnitState], busy: u64) -> Option<Placement>
    requires few { length units.now ≤ 64 }
    requires own { OwnUnits units.now }
    ensures { result ≡ option_map placement
        (find (λ of. is_ready units.now busy of.unit) (filter_map stopped_in units.now)) }
{
    for unit in 0..units.len() {
        if let Some(of) = stopped_at(&units[unit], busy) {
            return Some(of);
        }
    }
    None
}
