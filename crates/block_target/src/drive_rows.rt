//! The units of a drive, as rows of a list that only contracts see.
ghost use Rattle.std.specs.Prelude.{map};

use pblk_model::Shows;
use std::marker::Model;
use unit_port::Unit;

/// The units of a drive, as they are at one moment. Such rows exist in contracts alone, so no value
/// of this type is ever made.
pub(crate) struct DriveRow {
    unmade: Unmade,
}

// No value of it can be made.
enum Unmade {}

impl Model for DriveRow {
    ghost use Rattle.std.specs.Prelude.{List};
    ghost use Rattle.unit_port.specs.Unit.{ModelUnit};

    ghost Value = { List ModelUnit };

    ghost view = { λ d. elim d.unmade as (λ _. List ModelUnit) [ ] };
}

/// Shows the units as they are now.
#[derive(Drop)]
pub(crate) struct Stand<'a, U: Unit> {
    pub(crate) units: &'a [U],
}

impl<U: Unit> Shows for Stand<'_, U> {
    type Event = DriveRow;

    ghost shown = { λ s. map U.model s.units.now };
}
