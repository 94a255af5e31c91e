// What the engine's author shows to the chronicle.

ghost use Rattle.std.specs.Prelude.{◌≡◌, ℕ, false};
ghost use Rattle.pblk_world.specs.Events.{Decides, EngineEvent, Free, Place};
ghost use Rattle.pblk_world.specs.Legal.{IsAllowed};
ghost use Rattle.chronicle.specs.Prefixes.{logs_of, with_event};
ghost use Rattle.pblk_engine.specs.Answers.{answer_event};
ghost use Rattle.pblk_engine.specs.Stops.{is_stop_note};

use crate::commands::Ended;
use crate::engine_author::EngineAuthor;
use chronicle::{Chronicle, Event};
use pblk_core::Stripe;
use pblk_model::Shows;
use std::marker::{Brand, PhantomData};

/// A line is freed.
#[derive(Drop)]
pub(crate) struct Freed {
    pub(crate) line: u32,
}

impl Shows for Freed {
    type Event = Event;

    ghost shown = { λ f. Decides (Free f.line) };
}

/// A stripe is placed.
#[derive(Drop)]
pub(crate) struct Placed<'a> {
    pub(crate) stripe: &'a Stripe,
}

impl<'a> Shows for Placed<'a> {
    type Event = Event;

    ghost shown = { λ p. Decides (Place p.stripe.now.stripe) };
}

/// The number of an event in its unit's log, from 0. The call that answers by it picks it.
pub(crate) trait EventNumber {
    ghost number: { ℕ };
}

impl EventNumber for Brand {
    ghost number = { 0 };
}

/// The answer to a stripe: of which unit it was, and how its program ended, which is the event of
/// that number in the unit's log.
#[derive(Drop)]
pub(crate) struct Answered<N: EventNumber> {
    pub(crate) unit: u32,
    pub(crate) how: Ended,
    pub(crate) of: PhantomData<N>,
}

impl<N: EventNumber> Shows for Answered<N> {
    type Event = Event;

    ghost shown = { λ a. Decides (answer_event a.how a.unit N.number) };
}

/// A decision of the engine. The call that appends it picks it.
pub(crate) trait Decision {
    ghost event: { EngineEvent };
}

impl Decision for Brand {
    ghost event = { Free 0 };
}

// That decision, as it is shown.
#[derive(Drop)]
struct Decided<D: Decision> {
    of: PhantomData<D>,
}

impl<D: Decision> Shows for Decided<D> {
    type Event = Event;

    ghost shown = { λ _. Decides D.event };
}

/// Appends the decision that the caller picks, by a value that it is told by. It notes no stop.
pub(crate) fn decide<T, D: Decision>(author: &mut EngineAuthor, chronicle: &Chronicle, _by: &T)
    requires of { author.old.chronicle ≡ chronicle.now }
    requires allowed { IsAllowed author.old.past.image author.old.number (Decides D.event)
        (logs_of author.old.known) }
    requires quiet { is_stop_note (Decides D.event) ≡ false }
    ensures { let old = author.old in author.new ≡ record old {
      known = with_event old.known old.number (Decides D.event);
    } }
{
    author.append(chronicle, &Decided::<D> { of: PhantomData });
}
