//! Authors: each appends to one log.
ghost use Rattle.std.specs.Prelude.{◌≡◌, ◌≢◌, ◌++◌, ◌∷◌, [], ℕ, None};
ghost use Rattle.std.specs.List.{Contains};
ghost use mathlib.Core.List.{IsPrefix};
ghost use Rattle.pblk_world.specs.Legal.{IsAllowed};
ghost use Rattle.chronicle.specs.Prefixes.{AreLegalLogs, ArePrefixes, IsNext, either, logs_of};
ghost use Rattle.chronicle.specs.Prefixes.{longer_of, naming, next_after, with_event};

use crate::rows::Event;
use crate::rule::{Append, Row};
use crate::table::Chronicle;
use crate::tokens::{Lent, Note};
use crate::view::View;
use atomic_table::Seat;
use pblk_model::Shows;
use std::marker::{Brand, Model};

/// The author of one log: the engine's is number 0, and that of unit u is number u + 1.
///
/// It knows its own log whole, and of each other log a prefix, which notes make longer. All that it
/// knows is a legal world by itself. Once it has joined another author, it owns that one's log too,
/// and knows it whole.
#[derive(Drop)]
pub struct Author {
    pub(crate) seat: Seat<(), View>,
    pub(crate) number: usize,
    // how many events were appended to its log since the chronicle began, modulo 2^64
    pub(crate) appended: u64,
}

// Contracts see the chronicle and what it began with, which logs the author owns, and what it
// knows.
impl Model for Author {
    ghost use Rattle.chronicle.specs.Handles.{AuthorView};

    ghost Value = { AuthorView };

    ghost use Rattle.chronicle.specs.Inside.{IsAuthor, author_view};

    ghost view = { author_view };

    ghost invariant = { IsAuthor };
}

impl Author {
    /// Appends the event that the value shows to the author's own log. The event names all that the
    /// author knows, and has to be legal by that. A command is the next one of a worker whose
    /// commands the author numbers. It is one store, and takes no memory.
    pub fn append<S: Shows<Event = Event>>(&mut self, chronicle: &Chronicle, shown: &S)
        requires of { self.old.chronicle ≡ chronicle.now }
        requires allowed { IsAllowed self.old.past.image self.old.number (S.shown shown.now)
            (logs_of self.old.known) }
        requires next { IsNext (S.shown shown.now) self.old.makers }
        ensures appended { let old = self.old in self.new ≡ record old {
          known = with_event old.known old.number (S.shown shown.now);
          makers = next_after (S.shown shown.now) old.makers;
        } }
        ensures own { logs_of self.new.known self.old.number
            ≡ logs_of self.old.known self.old.number
            ++ naming self.old.known (S.shown shown.now) ∷ [] }
        ensures others { (author : ℕ) → author ≢ self.old.number
            → logs_of self.new.known author ≡ logs_of self.old.known author }
        ensures legal { AreLegalLogs self.new.past.image self.new.known }
        ensures begun { ArePrefixes self.new.past.logs self.new.known }
    {
        self.add::<S, Brand>(chronicle, shown);
    }

    // The call picks the event, which is why it is handed the value that shows it.
    fn add<S, R: Row>(&mut self, chronicle: &Chronicle, _shown: &S)
        requires of { self.old.chronicle ≡ chronicle.now }
        requires allowed { IsAllowed self.old.past.image self.old.number R.event
            (logs_of self.old.known) }
        requires next { IsNext R.event self.old.makers }
        ensures appended { let old = self.old in self.new ≡ record old {
          known = with_event old.known old.number R.event;
          makers = next_after R.event old.makers;
        } }
        ensures own { logs_of self.new.known self.old.number
            ≡ logs_of self.old.known self.old.number ++ naming self.old.known R.event ∷ [] }
        ensures others { (author : ℕ) → author ≢ self.old.number
            → logs_of self.new.known author ≡ logs_of self.old.known author }
        ensures legal { AreLegalLogs self.new.past.image self.new.known }
        ensures begun { ArePrefixes self.new.past.logs self.new.known }
    {
        let number = self.number;
        let appended = self.appended.wrapping_add(1);
        let shared = &chronicle.table.shared;
        shared.store::<Append<R>>(&mut self.seat, number, appended);
        self.appended = appended;
    }

    /// A note of all that the author knows, which is a legal world.
    pub fn note(&mut self, chronicle: &Chronicle) -> Note
        requires of { self.old.chronicle ≡ chronicle.now }
        ensures same { self.new ≡ self.old }
        ensures note_of { result.chronicle ≡ self.old.chronicle }
        ensures note_past { result.past ≡ self.old.past }
        ensures note_known { result.known ≡ self.old.known }
        ensures legal { AreLegalLogs self.old.past.image self.old.known }
        ensures begun { ArePrefixes self.old.past.logs self.old.known }
    {
        Note {
            seat: chronicle.note(&mut self.seat),
        }
    }

    /// Takes a note in. Of each log the author knows the longer of the two prefixes from then on,
    /// which is a legal world. Of a log that it owns it knew more than the note, or as much.
    pub fn meet(&mut self, chronicle: &Chronicle, note: Note)
        requires of { self.old.chronicle ≡ chronicle.now }
        requires note_of { note.chronicle ≡ chronicle.now }
        ensures met { let old = self.old in self.new
            ≡ record old { known = longer_of old.known note.known } }
        ensures past { note.past ≡ self.old.past }
        ensures own { (author : ℕ) → Contains self.old.owned author
            → logs_of self.new.known author ≡ logs_of self.old.known author }
        ensures own_noted { (author : ℕ) → Contains self.old.owned author
            → IsPrefix (logs_of note.known author) (logs_of self.old.known author) }
        ensures keeps { ArePrefixes self.old.known self.new.known }
        ensures learns { ArePrefixes note.known self.new.known }
        ensures legal { AreLegalLogs self.new.past.image self.new.known }
        ensures begun { ArePrefixes self.new.past.logs self.new.known }
    {
        let Note { seat } = note;
        chronicle.hear(&mut self.seat, seat);
    }

    /// Takes in what a token lent, as a note, with the right to number its workers' commands.
    pub fn take_over(&mut self, chronicle: &Chronicle, lent: Lent)
        requires of { self.old.chronicle ≡ chronicle.now }
        requires lent_of { lent.chronicle ≡ chronicle.now }
        ensures met { let old = self.old in self.new ≡ record old {
          known = longer_of old.known lent.known;
          makers = old.makers ++ lent.makers;
          spare = either old.spare lent.spare;
        } }
        ensures past { lent.past ≡ self.old.past }
        ensures own { (author : ℕ) → Contains self.old.owned author
            → logs_of self.new.known author ≡ logs_of self.old.known author }
        ensures own_noted { (author : ℕ) → Contains self.old.owned author
            → IsPrefix (logs_of lent.known author) (logs_of self.old.known author) }
        ensures keeps { ArePrefixes self.old.known self.new.known }
        ensures learns { ArePrefixes lent.known self.new.known }
        ensures legal { AreLegalLogs self.new.past.image self.new.known }
        ensures begun { ArePrefixes self.new.past.logs self.new.known }
    {
        let Lent { seat } = lent;
        chronicle.hear(&mut self.seat, seat);
    }

    /// Gives back what was lent, with all that the author knows. It numbers no commands from then
    /// on.
    pub fn give_back(&mut self, chronicle: &Chronicle) -> Lent
        requires of { self.old.chronicle ≡ chronicle.now }
        ensures kept { self.new ≡ record self.old { makers = []; spare = None } }
        ensures lent_of { result.chronicle ≡ self.old.chronicle }
        ensures lent_past { result.past ≡ self.old.past }
        ensures lent_known { result.known ≡ self.old.known }
        ensures makers { result.makers ≡ self.old.makers }
        ensures spare { result.spare ≡ self.old.spare }
        ensures legal { AreLegalLogs self.old.past.image self.old.known }
        ensures begun { ArePrefixes self.old.past.logs self.old.known }
    {
        Lent {
            seat: chronicle.lend(&mut self.seat),
        }
    }

    /// Takes another author in, with the logs that it owns and what it knows.
    pub fn join(&mut self, chronicle: &Chronicle, other: Author)
        requires of { self.old.chronicle ≡ chronicle.now }
        requires other_of { other.chronicle ≡ chronicle.now }
        ensures joined { let old = self.old in self.new ≡ record old {
          owned = old.owned ++ other.owned;
          known = longer_of old.known other.known;
          makers = old.makers ++ other.makers;
          spare = either old.spare other.spare;
        } }
        ensures past { other.past ≡ self.old.past }
        ensures own { (author : ℕ) → Contains self.old.owned author
            → logs_of self.new.known author ≡ logs_of self.old.known author }
        ensures other_own { (author : ℕ) → Contains other.owned author
            → logs_of self.new.known author ≡ logs_of other.known author }
        ensures keeps { ArePrefixes self.old.known self.new.known }
        ensures learns { ArePrefixes other.known self.new.known }
        ensures legal { AreLegalLogs self.new.past.image self.new.known }
        ensures begun { ArePrefixes self.new.past.logs self.new.known }
    {
        let Author {
            seat,
            number: _,
            appended: _,
        } = other;
        chronicle.hear(&mut self.seat, seat);
    }
}
