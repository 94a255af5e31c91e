//! Notes and tokens: they know a prefix of each log, and own none.
ghost use Rattle.std.specs.Prelude.{◌≡◌, ◌+◌, ◌^◌, ◌<◌, ◌++◌, ◌∷◌, [], ℕ, None, Some};
ghost use Rattle.chronicle.specs.Handles.{note_of};
ghost use Rattle.chronicle.specs.Prefixes.{AreLegalLogs, ArePrefixes, either, longer_of};

use crate::table::Chronicle;
use crate::view::View;
use atomic_table::Seat;
use std::marker::Model;

/// What somebody knew of all logs of a chronicle at one moment, to be met by somebody else.
#[derive(Drop)]
pub struct Note {
    pub(crate) seat: Seat<(), View>,
}

// Contracts see the chronicle, what it began with, and what is known of each log.
impl Model for Note {
    ghost use Rattle.chronicle.specs.Handles.{NoteView};

    ghost Value = { NoteView };

    ghost use Rattle.chronicle.specs.Inside.{IsNote, note_view};

    ghost view = { note_view };

    ghost invariant = { IsNote };
}

/// What a token lends: what it knew, with the right to number its workers' commands.
#[derive(Drop)]
pub struct Lent {
    pub(crate) seat: Seat<(), View>,
}

// Contracts see the chronicle, what it began with, what is known of each log, and the makers of the
// next commands.
impl Model for Lent {
    ghost use Rattle.chronicle.specs.Handles.{TokenView};

    ghost Value = { TokenView };

    ghost use Rattle.chronicle.specs.Inside.{IsLent, lent_view};

    ghost view = { lent_view };

    ghost invariant = { IsLent };
}

/// One who appends to no log, and learns of all by notes. It may have the right to number the
/// commands of workers, and to name new ones.
#[derive(Drop)]
pub struct Token {
    pub(crate) seat: Seat<(), View>,
}

// Contracts see the chronicle, what it began with, what is known of each log, the makers of the
// next commands, and the number of the next new worker.
impl Model for Token {
    ghost use Rattle.chronicle.specs.Handles.{TokenView};

    ghost Value = { TokenView };

    ghost use Rattle.chronicle.specs.Inside.{IsToken, token_view};

    ghost view = { token_view };

    ghost invariant = { IsToken };
}

impl Token {
    /// A note of all that the token knows, which is a legal world.
    pub fn note(&mut self, chronicle: &Chronicle) -> Note
        requires of { self.old.chronicle ≡ chronicle.now }
        ensures same { self.new ≡ self.old }
        ensures note { result ≡ note_of self.old }
        ensures legal { AreLegalLogs self.old.past.image self.old.known }
        ensures begun { ArePrefixes self.old.past.logs self.old.known }
    {
        Note {
            seat: chronicle.note(&mut self.seat),
        }
    }

    /// Takes a note in. Of each log the token knows the longer of the two prefixes from then on,
    /// which is a legal world.
    pub fn meet(&mut self, chronicle: &Chronicle, note: Note)
        requires of { self.old.chronicle ≡ chronicle.now }
        requires note_of { note.chronicle ≡ chronicle.now }
        ensures met { let old = self.old in self.new
            ≡ record old { known = longer_of old.known note.known } }
        ensures past { note.past ≡ self.old.past }
        ensures keeps { ArePrefixes self.old.known self.new.known }
        ensures learns { ArePrefixes note.known self.new.known }
        ensures legal { AreLegalLogs self.new.past.image self.new.known }
        ensures begun { ArePrefixes self.new.past.logs self.new.known }
    {
        let Note { seat } = note;
        chronicle.hear(&mut self.seat, seat);
    }

    /// Lends the right to number its workers' commands, with all that the token knows.
    pub fn lend(&mut self, chronicle: &Chronicle) -> Lent
        requires of { self.old.chronicle ≡ chronicle.now }
        ensures kept { self.new ≡ record self.old { makers = []; spare = None } }
        ensures lent { result ≡ self.old }
        ensures legal { AreLegalLogs self.old.past.image self.old.known }
        ensures begun { ArePrefixes self.old.past.logs self.old.known }
    {
        Lent {
            seat: chronicle.lend(&mut self.seat),
        }
    }

    /// Takes back what was lent, as a note.
    pub fn take_back(&mut self, chronicle: &Chronicle, lent: Lent)
        requires of { self.old.chronicle ≡ chronicle.now }
        requires lent_of { lent.chronicle ≡ chronicle.now }
        ensures met { let old = self.old in self.new ≡ record old {
          known = longer_of old.known lent.known;
          makers = old.makers ++ lent.makers;
          spare = either old.spare lent.spare;
        } }
        ensures past { lent.past ≡ self.old.past }
        ensures keeps { ArePrefixes self.old.known self.new.known }
        ensures learns { ArePrefixes lent.known self.new.known }
        ensures legal { AreLegalLogs self.new.past.image self.new.known }
        ensures begun { ArePrefixes self.new.past.logs self.new.known }
    {
        let Lent { seat } = lent;
        chronicle.hear(&mut self.seat, seat);
    }

    /// Names the next new worker. The second token knows as much, and numbers the commands of that
    /// worker, which has made none.
    pub fn name_worker(&mut self, chronicle: &Chronicle) -> Token
        requires of { self.old.chronicle ≡ chronicle.now }
        requires spare { (n : ℕ) × (self.old.spare ≡ Some n) × (n < 2 ^ 64) }
        ensures named { (n : ℕ) → self.old.spare ≡ Some n
            → self.new ≡ record self.old { spare = Some (n + 1) } }
        ensures worker { (n : ℕ) → self.old.spare ≡ Some n → result ≡ record self.old {
          makers = record { worker = n; made = 0 } ∷ [];
          spare = None;
        } }
        ensures legal { AreLegalLogs self.old.past.image self.old.known }
        ensures begun { ArePrefixes self.old.past.logs self.old.known }
    {
        Token {
            seat: chronicle.name(&mut self.seat),
        }
    }

    /// A second token, which knows as much, and numbers no commands.
    pub fn split(&mut self, chronicle: &Chronicle) -> Token
        requires of { self.old.chronicle ≡ chronicle.now }
        ensures same { self.new ≡ self.old }
        ensures token { result ≡ record self.old { makers = []; spare = None } }
        ensures legal { AreLegalLogs self.old.past.image self.old.known }
        ensures begun { ArePrefixes self.old.past.logs self.old.known }
    {
        Token {
            seat: chronicle.note(&mut self.seat),
        }
    }
}
