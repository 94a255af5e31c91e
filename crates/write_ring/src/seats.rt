// The two kinds of seat, and what the ring answers.
ghost use Rattle.std.specs.Prelude.{◌≡◌, ◌<◌, ◌≤◌, ◌^◌, IsTrue, None, [], true, false};
ghost use Rattle.write_ring.specs.Steps.{IsOfClass, no_desk};

use crate::cell::Cell;
use crate::view::View;
use atomic_table::Seat;
use sector_pool::Entry;
use thiserror::Error;

/// The right to put users' entries into one ring, with the lists of its claims and of what it put.
///
/// Each has at least one of the 127 shares that the intake hasn't. It can't be dropped: it ends in
/// `Ring::join` or `Ring::close`.
pub struct Pass {
    pub(crate) seat: Seat<Cell, View>,
    ghost at_rest: { seat.me.1 ≡ [] },
    ghost some: { 0 < seat.me.0.pass.shares },
    ghost only: { seat.me.0.intake ≡ no_desk },
    ghost all_put: { seat.me.0.pass.next ≡ seat.me.0.pass.until },
    ghost for_users: { seat.me.0.pass.copier ≡ false },
    ghost users: { IsOfClass false seat.me.0.pass },
}

/// The one right to take entries from a ring, to free their slots, to grant positions to users, and
/// to put copies in. It has the last of the 128 shares, and the lists of its claims and of the
/// copies that it put.
///
/// It can't be dropped: it ends in `Ring::close`.
pub struct Intake {
    pub(crate) seat: Seat<Cell, View>,
    pub(crate) taken: u64,
    pub(crate) freed: u64,
    ghost at_rest: { seat.me.1 ≡ [] },
    ghost on: { IsTrue seat.me.0.intake.on },
    ghost one: { seat.me.0.pass.shares ≡ 1 },
    ghost all_put: { seat.me.0.pass.next ≡ seat.me.0.pass.until },
    ghost for_copies: { seat.me.0.pass.copier ≡ true },
    ghost copies: { IsOfClass true seat.me.0.pass },
    ghost home: { seat.me.0.intake.away ≡ None },
    ghost taken_is: { seat.me.0.intake.taken ≡ taken },
    ghost freed_is: { seat.me.0.intake.freed ≡ freed },
    ghost low: { seat.me.0.key.first ≤ freed },
    ghost order: { freed ≤ taken },
    ghost most: { taken ≤ 2 ^ 62 },
}

/// Positions that were claimed and filled: `count` of them, from `first` on.
#[derive(Clone, Copy, Debug, PartialEq, Eq, Drop)]
pub struct Place {
    /// The first of them.
    pub first: u64,
    /// How many they are.
    pub count: u32,
}

/// What one try at putting a batch is refused with. Each number was found by a load or an exchange
/// of this try.
#[derive(Clone, Copy, Debug, PartialEq, Eq, Drop, Error)]
pub enum TryPut {
    /// The positions would end above the limit.
    #[error("the ring is full: claimed {claimed}, limit {limit}")]
    Full {
        /// What the load of `claimed` found.
        claimed: u64,
        /// The limit that was read next.
        limit: u64,
    },
    /// Another pass claimed in between.
    #[error("claimed was expected at {expected} and found at {found}")]
    Raced {
        /// What the load of `claimed` found.
        expected: u64,
        /// What the exchange found, which is greater.
        found: u64,
    },
}

/// What putting a batch is refused with, where it is tried again after each race.
#[derive(Clone, Copy, Debug, PartialEq, Eq, Drop, Error)]
#[error("the ring is full: claimed {claimed}, limit {limit}")]
pub struct Full {
    /// What the last load of `claimed` found.
    pub claimed: u64,
    /// The limit that was read next.
    pub limit: u64,
}

/// What the intake finds at the next position.
pub enum Taken {
    /// Its entry.
    Entry(Entry),
    /// Nobody has claimed it yet.
    Empty {
        /// What the load of `claimed` found.
        claimed: u64,
    },
    /// It was claimed, and isn't filled yet.
    Unfilled {
        /// The position.
        at: u64,
    },
}
