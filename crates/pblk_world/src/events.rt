//! Rows of the logs of a mount, as contracts see them.

use std::marker::Model;

// No value of it can be made.
enum Unmade {}

/// An event of the engine of a mount: a line opened, a stripe placed, an answer of a unit, and the
/// like.
///
/// Logs exist in contracts alone, so no value of this type is ever made.
pub struct EngineEvent {
    unmade: Unmade,
}

// Contracts see the event.
impl Model for EngineEvent {
    ghost use Rattle.pblk_world.specs.Events.{EngineEvent};

    ghost Value = { EngineEvent };

    ghost view = { λ e. elim e.unmade as (λ _. EngineEvent) [ ] };
}

/// An event of the engine or of a unit, with the lengths of the prefixes of all logs that its
/// author knew.
///
/// Logs exist in contracts alone, so no value of this type is ever made.
pub struct Logged {
    unmade: Unmade,
}

// Contracts see the event with these lengths.
impl Model for Logged {
    ghost use Rattle.pblk_world.specs.Events.{Logged};

    ghost Value = { Logged };

    ghost view = { λ l. elim l.unmade as (λ _. Logged) [ ] };
}

/// A step of a world: such an event with the number of its author, 0 for the engine and u + 1 for
/// unit u.
///
/// Worlds exist in contracts alone, so no value of this type is ever made.
pub struct Step {
    unmade: Unmade,
}

// Contracts see the step.
impl Model for Step {
    ghost use Rattle.pblk_world.specs.Events.{Step};

    ghost Value = { Step };

    ghost view = { λ s. elim s.unmade as (λ _. Step) [ ] };
}

/// An image over which a world stands: a drive's shape, and the chunks of each of its units.
///
/// Worlds exist in contracts alone, so no value of this type is ever made.
pub struct Image {
    unmade: Unmade,
}

// Contracts see the image.
impl Model for Image {
    ghost use Rattle.pblk_model.specs.Image.{Image};

    ghost Value = { Image };

    ghost view = { λ i. elim i.unmade as (λ _. Image) [ ] };
}
