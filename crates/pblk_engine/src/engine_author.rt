//! The author of the engine's log.

ghost use Rattle.std.specs.Prelude.{◌≡◌, ◌<◌, ◌^◌, ℕ, false, length, slice_get, Some};
ghost use Rattle.std.specs.List.{Contains};
ghost use mathlib.Core.List.{IsPrefix};
ghost use Rattle.pblk_model.specs.Shape.{units};
ghost use Rattle.pblk_world.specs.Events.{Decides};
ghost use Rattle.pblk_world.specs.Legal.{IsAllowed};
ghost use Rattle.chronicle.specs.Prefixes.{AreLegalLogs, ArePrefixes, logs_of, longer_of, with_event};
ghost use Rattle.pblk_engine.specs.Answers.{answer_event};
ghost use Rattle.pblk_engine.specs.Hearts.{IsEngine};
ghost use Rattle.pblk_engine.specs.Stops.{is_stop_note, stop_count, stop_counts, stops_with};

use crate::commands::Ended;
use crate::shown::{Answered, EventNumber};
use chronicle::{Author, Chronicle, Event, Note};
use pblk_model::Shows;
use std::marker::{Model, PhantomData};

/// The author of the engine's log, which owns no other log.
///
/// For each unit it counts how often it noted that a program of the unit was stopped. From 2^64 - 1
/// on a count stands still.
#[derive(Drop)]
pub(crate) struct EngineAuthor {
    author: Author,
    stops: Vec<u64>,
}

// Contracts see the author.
impl Model for EngineAuthor {
    ghost use Rattle.chronicle.specs.Handles.{AuthorView};
    ghost use Rattle.pblk_engine.specs.Stops.{IsCounting};

    ghost Value = { AuthorView };

    ghost view = { λ a. a.author };

    ghost invariant = { λ a. IsCounting a.author a.stops.items };
}

// Counts the stop of a unit's program, where it was stopped.
fn count_stop(stops: &mut Vec<u64>, unit: u32, how: Ended)
    requires inside { unit < length stops.old.items }
    ensures { (n : ℕ) → slice_get stops.old.items unit ≡ Some n
        → stops.new.items ≡ stops_with stops.old.items unit n how }
{
    match how {
        Ended::Done => (),
        Ended::Failed { kept: _ } => (),
        Ended::Stopped => {
            let count = &mut stops[unit as usize];
            *count = count.saturating_add(1);
        }
    }
}

impl EngineAuthor {
    /// It has so many stops noted of each unit as the author's log says.
    pub(crate) fn new(author: Author, stops: Vec<u64>) -> EngineAuthor
        requires engine { IsEngine author }
        requires stops { stops.items
            ≡ stop_counts author.past.image.shape (logs_of author.known 0) }
        ensures { result ≡ author }
    {
        EngineAuthor { author, stops }
    }

    /// The author alone.
    pub(crate) fn end(self) -> Author
        ensures same { result ≡ self }
        ensures engine { IsEngine result }
    {
        let EngineAuthor { author, stops: _ } = self;
        author
    }

    /// Appends an event to the engine's log, as [`Author::append`] does. It notes no stop.
    pub(crate) fn append<S: Shows<Event = Event>>(&mut self, chronicle: &Chronicle, shown: &S)
        requires of { self.old.chronicle ≡ chronicle.now }
        requires allowed { IsAllowed self.old.past.image self.old.number (S.shown shown.now)
            (logs_of self.old.known) }
        requires quiet { is_stop_note (S.shown shown.now) ≡ false }
        ensures appended { let old = self.old in self.new
            ≡ record old { known = with_event old.known old.number (S.shown shown.now) } }
        ensures legal { AreLegalLogs self.new.past.image self.new.known }
        ensures begun { ArePrefixes self.new.past.logs self.new.known }
    {
        self.author.append(chronicle, shown);
    }

    /// Appends the answer to a stripe of a unit, whose program ended like this.
    pub(crate) fn answer<N: EventNumber>(&mut self, chronicle: &Chronicle, unit: u32, how: Ended)
        requires of { self.old.chronicle ≡ chronicle.now }
        requires inside { unit < units self.old.past.image.shape }
        requires allowed { IsAllowed self.old.past.image self.old.number
            (Decides (answer_event how unit N.number)) (logs_of self.old.known) }
        ensures appended { let old = self.old in self.new ≡ record old {
          known = with_event old.known old.number (Decides (answer_event how unit N.number));
        } }
        ensures legal { AreLegalLogs self.new.past.image self.new.known }
        ensures begun { ArePrefixes self.new.past.logs self.new.known }
    {
        let of = PhantomData;
        self.author
            .append(chronicle, &Answered::<N> { unit, how, of });
        count_stop(&mut self.stops, unit, how);
    }

    /// How often it noted that a program of the unit was stopped, or 2^64 - 1 where that is less.
    pub(crate) fn stops(&self, unit: u32) -> u64
        requires inside { unit < units self.now.past.image.shape }
        ensures { result ≡ stop_count (logs_of self.now.known 0) unit }
    {
        self.stops[unit as usize]
    }

    /// How many units the drive has.
    pub(crate) fn units(&self) -> u32
        requires few { units self.now.past.image.shape < 2 ^ 32 }
        ensures { result ≡ units self.now.past.image.shape }
    {
        self.stops.len() as u32
    }

    /// A note of all that the author knows, which is a legal world.
    pub(crate) fn note(&mut self, chronicle: &Chronicle) -> Note
        requires of { self.old.chronicle ≡ chronicle.now }
        ensures same { self.new ≡ self.old }
        ensures note_of { result.chronicle ≡ self.old.chronicle }
        ensures note_past { result.past ≡ self.old.past }
        ensures note_known { result.known ≡ self.old.known }
        ensures legal { AreLegalLogs self.old.past.image self.old.known }
        ensures begun { ArePrefixes self.old.past.logs self.old.known }
    {
        self.author.note(chronicle)
    }

    /// Takes a note in. Of each log the author knows the longer of the two prefixes from then on,
    /// which is a legal world. Of the engine's log it knew more than the note, or as much.
    pub(crate) fn meet(&mut self, chronicle: &Chronicle, note: Note)
        requires of { self.old.chronicle ≡ chronicle.now }
        requires note_of { note.chronicle ≡ chronicle.now }
        ensures met { let old = self.old in self.new
            ≡ record old { known = longer_of old.known note.known } }
        ensures past { note.past ≡ self.old.past }
        ensures own { (author : ℕ) → Contains self.old.owned author
            → logs_of self.new.known author ≡ logs_of self.old.known author }
        ensures own_noted { (author : ℕ) → Contains self.old.owned author
            → IsPrefix (logs_of note.known author) (logs_of self.old.known author) }
        ensures keeps { ArePrefixes self.old.known self.new.known }
        ensures learns { ArePrefixes note.known self.new.known }
        ensures legal { AreLegalLogs self.new.past.image self.new.known }
        ensures begun { ArePrefixes self.new.past.logs self.new.known }
    {
        self.author.meet(chronicle, note);
    }
}
