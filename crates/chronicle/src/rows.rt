//! What values show to a chronicle.

use std::marker::Model;

// No value of it can be made.
enum Unmade {}

/// What an author does: a decision of the engine, or a command of a unit with its outcome.
///
/// Logs exist in contracts alone, so no value of this type is ever made.
pub struct Event {
    unmade: Unmade,
}

// Contracts see the event.
impl Model for Event {
    ghost use Rattle.pblk_world.specs.Events.{Event as EventOf};

    ghost Value = { EventOf };

    ghost view = { λ e. elim e.unmade as (λ _. EventOf) [ ] };
}

/// What a chronicle begins with: the image over which the mount stands, and the logs so far.
///
/// Logs exist in contracts alone, so no value of this type is ever made.
pub struct Past {
    unmade: Unmade,
}

// Contracts see the image and the logs.
impl Model for Past {
    ghost use Rattle.chronicle.specs.Views.{Past as PastOf};

    ghost Value = { PastOf };

    ghost view = { λ p. elim p.unmade as (λ _. PastOf) [ ] };
}
