//! Resets of chunks, which an arm makes while both locks are held.
ghost use Rattle.std.specs.Prelude.{◌≡◌, ◌+◌, ◌<◌, ◌++◌, ◌∷◌, [], ℕ, suc, length, Err, None, Some};
ghost use Rattle.pblk_core.specs.Resets.{IsToReset};
ghost use Rattle.pblk_laws.specs.LineBlocks.{chunk_in};
ghost use Rattle.pblk_model.specs.Chunk.{Chunk};
ghost use Rattle.pblk_world.specs.AtRest.{AreResetsNoted};
ghost use Rattle.pblk_world.specs.World.{media};
ghost use Rattle.chronicle.specs.Handles.{note_of};
ghost use Rattle.chronicle.specs.Prefixes.{AreLegalLogs, ArePrefixes, logs_of, longer_of};
ghost use Rattle.pblk_engine.specs.Arms.{number_told};
ghost use Rattle.pblk_engine.specs.Notes.{IsNoteOf};
ghost use Rattle.pblk_engine.specs.Resets.{IsLastOf, WasReset};
ghost use Rattle.pblk_engine.specs.Workers.{WasMade, last_made};

use crate::arm::Arm;
use crate::commands;
use crate::made::{Deed, Made, Own};
use crate::mount::Mount;
use chronicle::{Author, Chronicle, Note, Token};
use pblk_model::ChunkState;
use std::marker::{Model, PhantomData};
use unit_port::{Log, Unit, UnitErr};

/// A unit whose chunk was reset, with the author of its log, until that author knows that the
/// engine has noted the reset. It can't be dropped, and isn't an arm, so it can't go back to its
/// place.
pub(crate) struct Resetting<M: Mount, U: Unit> {
    number: u32,
    author: Author,
    unit: U,
    ended: u64,
    of: PhantomData<M>,
}

// Contracts see what they see of an arm.
impl<M: Mount, U: Unit> Model for Resetting<M, U> {
    ghost use Rattle.pblk_engine.specs.Arms.{ArmView, arm_view};
    ghost use Rattle.pblk_engine.specs.Mounts.{IsMounted};
    ghost use Rattle.pblk_engine.specs.Resets.{IsResettingOf};

    ghost Value = { ArmView };

    ghost view = { λ a. arm_view a.number a.author.known (U.model a.unit) };

    ghost invariant = { λ a. IsMounted M.past M.key M.handed M.wear
        × IsResettingOf M.chronicle M.past M.handed M.wear a.author a.number (U.model a.unit)
        (U.wear a.unit) a.ended };
}

impl<M: Mount, U: Unit> Arm<M, U> {
    /// Has the unit reset its chunk of a line, as the engine names it. The note is the engine's,
    /// which knows all that the arm and the worker know. The note that is given back knows the
    /// reset. Where that was stopped, it is a note as any other: the engine need not note the
    /// reset.
    ///
    /// The worker of this number makes the reset, and has made these commands before. Its token
    /// lends the right to number them, and gets it back at the end.
    pub(crate) fn reset(
        self,
        chronicle: &Chronicle,
        note: Note,
        token: &mut Token,
        worker: u64,
        made: &Log<Made>,
        line: u32,
    ) -> (Resetting<M, U>, Note, Result<(), UnitErr>)
        requires of { chronicle.now ≡ M.chronicle }
        requires note { IsNoteOf M.chronicle M.past note }
        requires told { ArePrefixes self.known note.known }
        requires token { IsNoteOf M.chronicle M.past (note_of token.old) }
        requires token_told { ArePrefixes token.old.known note.known }
        requires makers { token.old.makers
            ≡ record { worker = worker; made = length made.now } ∷ [] }
        requires spare { token.old.spare ≡ None }
        requires given_up { IsToReset M.past.image (logs_of note.known) line self.number }
        ensures token { let old = token.old in token.new ≡ record old {
          makers = [];
          spare = None;
        } }
        ensures number { result.0.number ≡ self.number }
        ensures reset { WasReset self result.0 worker (length made.now)
            (longer_of self.known note.known) line result.2 }
        ensures last { IsLastOf result.0.known result.0.number result.0.unit worker
            (length made.now) }
        ensures note_of { result.1.chronicle ≡ M.chronicle }
        ensures note_over { result.1.past ≡ M.past }
        ensures note_known { result.1.known ≡ result.0.known }
        ensures note_legal { AreLegalLogs M.past.image result.1.known }
        ensures note_stopped { result.2 ≡ Err UnitErr.Stopped
            → IsNoteOf M.chronicle M.past result.1 }
        ensures keeps { ArePrefixes note.known result.0.known }
    {
        let Arm {
            number,
            mut author,
            mut unit,
            ended,
            of,
        } = self;
        author.meet(chronicle, note);
        let answer = commands::reset(&mut unit, line);
        let lent = token.lend(chronicle);
        author.take_over(chronicle, lent);
        author.append(
            chronicle,
            &Deed {
                unit: &unit,
                worker,
                made,
            },
        );
        let note = author.note(chronicle);
        let unit = Resetting {
            number,
            author,
            unit,
            ended,
            of,
        };
        (unit, note, answer)
    }
}

impl<M: Mount, U: Unit> Resetting<M, U> {
    /// The state in which the unit's chunk of a line is now.
    pub(crate) fn state(&self, line: u32) -> ChunkState
        requires line { line < M.past.image.shape.chunks }
        ensures state { (c : Chunk) × (chunk_in (media M.past.image (logs_of self.now.known)) line
            self.now.number ≡ Some c) × (result ≡ c.state) }
    {
        let (state, _) = self.unit.state(line);
        state
    }

    /// The number of the unit's last event in its log, from 1, or 2^64 - 1 where that is less.
    pub(crate) fn events(&self) -> u64
        ensures told { (number : ℕ)
            → suc number ≡ length (logs_of self.now.known (suc self.now.number))
            → result ≡ number_told M.handed self.now.number number }
    {
        self.unit.events()
    }

    /// Makes an arm of it again. The note is the engine's, which knows all that the unit's author
    /// knows, and has noted the reset, unless it was stopped. The worker that made the reset knows
    /// it from then on, and its token gets back what it lent.
    pub(crate) fn end(
        self,
        chronicle: &Chronicle,
        note: Note,
        token: &mut Token,
        made: &mut Log<Made>,
    ) -> Arm<M, U>
        requires of { chronicle.now ≡ M.chronicle }
        requires note { IsNoteOf M.chronicle M.past note }
        requires told { ArePrefixes self.known note.known }
        requires token_of { token.old.chronicle ≡ M.chronicle }
        requires makers { token.old.makers ≡ [] }
        requires spare { token.old.spare ≡ None }
        requires last { (worker : ℕ)
            × IsLastOf self.known self.number self.unit worker (length made.old) }
        ensures arm { result ≡ record self { known = longer_of self.known note.known } }
        ensures made { made.new ≡ made.old ++ last_made self.number self.known self.unit ∷ [] }
        ensures token { (worker : ℕ)
            → IsLastOf self.known self.number self.unit worker (length made.old)
            → let old = token.old in token.new ≡ record old {
              known = longer_of old.known result.known;
              makers = record { worker = worker; made = length made.old + 1 } ∷ [];
              spare = None;
            } }
        ensures token_past { token.old.past ≡ M.past }
        ensures token_keeps { ArePrefixes token.old.known token.new.known }
        ensures token_learns { ArePrefixes result.known token.new.known }
        ensures token_legal { AreLegalLogs M.past.image token.new.known }
        ensures token_begun { ArePrefixes M.past.logs token.new.known }
        ensures noted { AreResetsNoted (logs_of result.known) }
        ensures was_made { (worker : ℕ)
            → IsLastOf self.known self.number self.unit worker (length made.old)
            → WasMade (logs_of result.known) worker (length made.old)
            (last_made self.number self.known self.unit) }
        ensures keeps { ArePrefixes self.known result.known }
        ensures learns { ArePrefixes note.known result.known }
    {
        let Resetting {
            number,
            mut author,
            unit,
            ended,
            of,
        } = self;
        author.meet(chronicle, note);
        made.add(&Own {
            number,
            author: &author,
            unit: &unit,
        });
        let lent = author.give_back(chronicle);
        token.take_back(chronicle, lent);
        Arm {
            number,
            author,
            unit,
            ended,
            of,
        }
    }
}
