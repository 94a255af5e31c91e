//! What is shown of a command to the chronicle, and to the worker that made it.

use chronicle::{Author, Event};
use pblk_model::Shows;
use std::marker::Model;
use unit_port::{Log, Unit};

// No value of it can be made.
enum Unmade {}

/// A command that a worker made: of which unit it was, what became of it, and which event of the
/// unit's log that is.
///
/// It exists in contracts alone, so no value of this type is ever made.
pub struct Made {
    unmade: Unmade,
}

// Contracts see the command.
impl Model for Made {
    ghost use Rattle.pblk_engine.specs.Workers.{Made as MadeOf};

    ghost Value = { MadeOf };

    ghost view = { λ m. elim m.unmade as (λ _. MadeOf) [ ] };
}

// The unit's last event, as its author notes it: with its maker, and how many this had made before.
#[derive(Drop)]
pub(crate) struct Deed<'a, U> {
    pub(crate) unit: &'a U,
    pub(crate) worker: u64,
    pub(crate) made: &'a Log<Made>,
}

impl<'a, U: Unit> Shows for Deed<'a, U> {
    type Event = Event;

    ghost use Rattle.std.specs.Prelude.{length};
    ghost use Rattle.pblk_engine.specs.Arms.{last_done};

    ghost shown = { λ d. last_done (U.model d.unit.now) d.worker (length d.made.now) };
}

// The same, once its author has noted it.
#[derive(Drop)]
pub(crate) struct Own<'a, U> {
    pub(crate) number: u32,
    pub(crate) author: &'a Author,
    pub(crate) unit: &'a U,
}

impl<'a, U: Unit> Shows for Own<'a, U> {
    type Event = Made;

    ghost use Rattle.pblk_engine.specs.Workers.{last_made};

    ghost shown = { λ o. last_made o.number o.author.now.known (U.model o.unit.now) };
}
