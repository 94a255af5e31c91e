//! Rows of a unit's log.

use std::marker::Model;

/// A row of a unit's log: a program, a fetch or a reset of one of its chunks, with its outcome.
///
/// Logs exist in contracts alone, so no value of this type is ever made.
pub struct UnitEvent {
    unmade: Unmade,
}

// No value of it can be made.
enum Unmade {}

// Contracts see the model's event.
impl Model for UnitEvent {
    ghost use Rattle.pblk_model.specs.UnitLog.{UnitEvent};

    ghost Value = { UnitEvent };

    ghost view = { λ e. elim e.unmade as (λ _. UnitEvent) [ ] };
}
