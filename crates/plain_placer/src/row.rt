//! What a unit has.

ghost use Rattle.std.specs.Prelude.{◌≡◌, ◌++◌, ℕ, List, Some, false, IfOk, OnOk};
ghost use Rattle.std.specs.Option.{option_map};
ghost use Rattle.std.specs.Bool.{OnTrue};
ghost use Rattle.stripe_placer.specs.Placing.{Program, placement, program_with, or_first, stopped_in};
ghost use Rattle.stripe_placer.specs.Placing.{is_under_way, is_stopped, positions_in};
ghost use Rattle.stripe_placer.specs.Placing.UnitRow.{Idle, UnderWay, Stopped};
ghost use Rattle.plain_placer.specs.Rows.{is_idle};

use std::alloc::{AllocError, Global};
use std::marker::Model;
use stripe_placer::Placement;

/// What became of the stripe that a unit has.
#[derive(Clone, Copy, Debug, PartialEq, Eq)]
pub(crate) enum State {
    Idle,
    UnderWay(Placement),
    Stopped(Placement),
}

/// The row of a unit.
#[derive(Drop)]
pub(crate) struct PlainRow {
    state: State,
    // those of the entries of its stripe
    positions: Vec<u64>,
}

impl Model for PlainRow {
    ghost use Rattle.stripe_placer.specs.Placing.{UnitRow};
    ghost use Rattle.plain_placer.specs.Rows.{plain_row};

    ghost Value = { UnitRow };

    ghost view = { λ r. plain_row r.state r.positions.items };
}

impl PlainRow {
    pub(crate) fn idle(alloc: Global) -> PlainRow
        ensures { result ≡ Idle }
    {
        PlainRow {
            state: State::Idle,
            positions: Vec::new(alloc),
        }
    }

    /// The program of a stripe with these entries is under way.
    pub(crate) fn under_way(of: &Placement, positions: Vec<u64>) -> PlainRow
        ensures { result ≡ UnderWay (program_with of.now positions.items) }
    {
        PlainRow {
            state: State::UnderWay(*of),
            positions,
        }
    }

    /// Its stripe is answered.
    pub(crate) fn end(&mut self)
        ensures { self.new ≡ Idle }
    {
        self.state = State::Idle;
    }

    /// The program that is under way was stopped.
    pub(crate) fn stop(&mut self)
        ensures { (of : Program) → self.old ≡ UnderWay of → self.new ≡ Stopped of }
    {
        if let State::UnderWay(of) = self.state {
            self.state = State::Stopped(of);
        }
    }

    /// The stripe that was stopped.
    pub(crate) fn stopped_in(&self) -> Option<Placement>
        ensures { result ≡ option_map placement (stopped_in self.now) }
    {
        match self.state {
            State::Idle => None,
            State::UnderWay(_) => None,
            State::Stopped(of) => Some(of),
        }
    }

    pub(crate) fn is_idle(&self) -> bool
        ensures { result ≡ is_idle self.now }
    {
        matches!(self.state, State::Idle)
    }

    pub(crate) fn is_under_way(&self) -> bool
        ensures { result ≡ is_under_way self.now }
    {
        matches!(self.state, State::UnderWay(_))
    }

    pub(crate) fn is_stopped(&self) -> bool
        ensures { result ≡ is_stopped self.now }
    {
        matches!(self.state, State::Stopped(_))
    }

    /// Whether the program of this stripe is under way.
    pub(crate) fn has(&self, of: &Placement) -> bool
        ensures { OnTrue result ((first : List ℕ)
            → self.now ≡ UnderWay (program_with of.now (or_first (Some self.now) first))) }
    {
        match self.state {
            State::UnderWay(other) => other == *of,
            _ => false,
        }
    }

    /// The positions of the entries of its stripe, where it has one.
    pub(crate) fn positions(&self, alloc: Global) -> Result<Vec<u64>, AllocError>
        ensures { IfOk result (λ v. (first : List ℕ) → is_idle self.now ≡ false
            → v.items ≡ or_first (Some self.now) first) }
    {
        self.positions.as_slice().to_vec(alloc)
    }

    /// Adds the positions of the entries of its stripe.
    pub(crate) fn append_to(&self, positions: &mut Vec<u64>) -> Result<(), AllocError>
        ensures { OnOk result (positions.new.items ≡ positions.old.items
            ++ positions_in self.now) }
    {
        match self.state {
            State::Idle => Ok(()),
            State::UnderWay(_) => positions.extend_from_slice(&self.positions),
            State::Stopped(_) => positions.extend_from_slice(&self.positions),
        }
    }
}
