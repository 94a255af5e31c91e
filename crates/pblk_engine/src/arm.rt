//! A unit with the author of its log, as it lies under its lock.
ghost use Rattle.std.specs.Prelude.{◌≡◌, ◌↔◌, ◌+◌, ◌-◌, ◌^◌, ◌<◌, ◌≤◌, ◌++◌, ◌∷◌, [], IsTrue, suc, true, length, min, None, ℕ};
ghost use Rattle.pblk_world.specs.AtRest.{AreResetsNoted};
ghost use Rattle.pblk_world.specs.Commanding.{ended_stripes, is_reset, was_stopped};
ghost use Rattle.pblk_world.specs.Legal.{IsAllowed};
ghost use Rattle.chronicle.specs.Prefixes.{AreLegalLogs, ArePrefixes, logs_of, longer_of, with_event};
ghost use Rattle.pblk_engine.specs.Arms.{last_done, last_event, number_told};
ghost use Rattle.pblk_engine.specs.ArmViews.{IsArmOfMount};
ghost use Rattle.pblk_engine.specs.Placements.{IsPlacedAs};
ghost use Rattle.pblk_engine.specs.Deeds.{HasProgrammed, IsProgrammed};
ghost use Rattle.pblk_engine.specs.Ended.{ended_by};
ghost use Rattle.pblk_engine.specs.Notes.{IsNoteOf};
ghost use Rattle.pblk_engine.specs.Workers.{last_made};
ghost use Rattle.pblk_engine.specs.declared.arm.Programmed.TheVariants as programmed;
ghost use Rattle.pblk_engine.specs.declared.commands.Ended.{Ended as EndedOf};

use crate::commands::{self, Ended};
use crate::made::{Deed, Own};
use crate::mount::Mount;
use crate::worker::Worker;
use chronicle::{Author, Chronicle, Note};
use std::marker::{Model, PhantomData};
use unit_port::Unit;

/// A unit of a mount with the author of its log, which lies under the unit's lock.
///
/// The author knows the unit's log whole, and the unit is as that log leaves it. The engine has
/// noted each reset that the author knows of, but those that were stopped.
#[derive(Drop)]
pub struct Arm<M: Mount, U: Unit> {
    pub(crate) number: u32,
    pub(crate) author: Author,
    pub(crate) unit: U,
    // how many of its stripes have ended: from 2^64 - 1 on the number stands still
    pub(crate) ended: u64,
    pub(crate) of: PhantomData<M>,
}

// Contracts see the unit's number, what its author knows, and the unit.
impl<M: Mount, U: Unit> Model for Arm<M, U> {
    ghost use Rattle.pblk_engine.specs.Arms.{ArmView, IsArmOf, arm_view};
    ghost use Rattle.pblk_engine.specs.Mounts.{IsMounted};

    ghost Value = { ArmView };

    ghost view = { λ a. arm_view a.number a.author.known (U.model a.unit) };

    ghost invariant = { λ a. IsMounted M.past M.key M.handed M.wear
        × IsArmOf M.chronicle M.past M.handed M.wear a.author a.number (U.model a.unit)
        (U.wear a.unit) a.ended };
}

/// What became of a stripe that was to be programmed.
#[derive(Clone, Copy, Debug, PartialEq, Eq)]
pub enum Programmed {
    /// It has to wait, and nothing was done.
    Waits,
    /// It was programmed. `event` is the number of that event in the unit's log, from 1, or
    /// 2^64 - 1 where that is less.
    Made { how: Ended, event: u64 },
}

// Notes the unit's last event in its log, with its maker, and among the worker's commands. The
// event isn't a reset, or is one that was stopped. The worker knows no more than the author.
pub(crate) fn note_command<M: Mount, U: Unit>(
    chronicle: &Chronicle,
    author: &mut Author,
    unit: &U,
    number: u32,
    worker: &mut Worker<M>,
)
    requires of { chronicle.now ≡ M.chronicle }
    requires author_of { author.old.chronicle ≡ M.chronicle }
    requires author_over { author.old.past ≡ M.past }
    requires author_is { author.old.number ≡ suc number }
    requires numbers_none { author.old.makers ≡ [] }
    requires names_none { author.old.spare ≡ None }
    requires told { ArePrefixes worker.old.known author.old.known }
    requires allowed { IsAllowed M.past.image (suc number)
        (last_done (U.model unit.now) worker.old.number (length worker.old.made))
        (logs_of author.old.known) }
    requires legal { AreLegalLogs M.past.image author.old.known }
    requires noted { AreResetsNoted (logs_of author.old.known) }
    requires no_reset { is_reset (last_event (U.model unit.now)).command ≡ true
        → was_stopped (last_event (U.model unit.now)).outcome ≡ true }
    ensures appended { let old = author.old
        in author.new ≡ record old {
          known = with_event old.known (suc number)
              (last_done (U.model unit.now) worker.old.number (length worker.old.made));
        } }
    ensures author_legal { AreLegalLogs M.past.image author.new.known }
    ensures author_begun { ArePrefixes M.past.logs author.new.known }
    ensures author_noted { AreResetsNoted (logs_of author.new.known) }
    ensures worker { let old = worker.old in worker.new ≡ record old {
      known = longer_of old.known author.new.known;
      made = old.made ++ last_made number author.new.known (U.model unit.now) ∷ [];
    } }
    ensures keeps { ArePrefixes worker.old.known worker.new.known }
    ensures learns { ArePrefixes author.new.known worker.new.known }
{
    let lent = worker.token.lend(chronicle);
    author.take_over(chronicle, lent);
    author.append(
        chronicle,
        &Deed {
            unit,
            worker: worker.number,
            made: &worker.made,
        },
    );
    worker.made.add(&Own {
        number,
        author: &*author,
        unit,
    });
    let lent = author.give_back(chronicle);
    worker.token.take_back(chronicle, lent);
}

// So many of the unit's stripes have ended then, as far as numbers tell.
fn count_of(ended: u64, how: Ended) -> u64
    ensures { ended ≤ 2 ^ 64 - 1 → result ≡ min (ended + ended_by how) (2 ^ 64 - 1) }
{
    match how {
        Ended::Done => ended.saturating_add(1),
        Ended::Failed { kept: _ } => ended.saturating_add(1),
        Ended::Stopped => ended,
    }
}

impl<M: Mount, U: Unit> Arm<M, U> {
    /// A note of all that the arm knows.
    pub(crate) fn note(&mut self, chronicle: &Chronicle) -> Note
        requires of { chronicle.now ≡ M.chronicle }
        ensures same { self.new ≡ self.old }
        ensures note { IsNoteOf M.chronicle M.past result }
        ensures known { result.known ≡ self.old.known }
    {
        self.author.note(chronicle)
    }

    /// Takes a note in. Of each log the arm knows the longer prefix from then on.
    pub(crate) fn meet(&mut self, chronicle: &Chronicle, note: Note)
        requires of { chronicle.now ≡ M.chronicle }
        requires note { IsNoteOf M.chronicle M.past note }
        ensures met { let old = self.old in self.new
            ≡ record old { known = longer_of old.known note.known } }
        ensures keeps { ArePrefixes self.old.known self.new.known }
        ensures learns { ArePrefixes note.known self.new.known }
        ensures is_arm { IsArmOfMount M.past M.key M.handed M.wear self.new }
    {
        self.author.meet(chronicle, note);
    }

    /// Has the unit program the worker's stripe, which was placed on it, if it is the stripe's
    /// turn: all stripes of the unit before it have ended. Else the stripe has to wait, and nothing
    /// is done. From 2^64 - 1 stripes on each has to wait.
    ///
    /// The note is of one who knows that the stripe was placed, and all that the worker knows. The
    /// note that is given back knows all that the arm knows then. The program was noted with its
    /// maker, and the worker knows that.
    pub(crate) fn program(
        &mut self,
        chronicle: &Chronicle,
        note: Note,
        worker: &mut Worker<M>,
    ) -> (Note, Programmed)
        requires of { chronicle.now ≡ M.chronicle }
        requires note { IsNoteOf M.chronicle M.past note }
        requires unit { worker.old.stripe.stripe.unit ≡ self.old.number }
        requires placed { IsPlacedAs (logs_of note.known 0) worker.old.stripe }
        requires told { ArePrefixes worker.old.known note.known }
        ensures number { self.new.number ≡ self.old.number }
        ensures programmed { IsProgrammed self.old self.new worker.old worker.new
            (longer_of self.old.known note.known) result.1 }
        ensures waits { let before = logs_of (longer_of self.old.known note.known) in
            let turn = worker.old.stripe.turn in result.1 ≡ programmed.Waits
            → ¬ ((ended_stripes (before (suc self.old.number)) ≡ turn) × (turn < 2 ^ 64 - 1)) }
        ensures event { (how : EndedOf) (event : ℕ) → result.1 ≡ programmed.Made how event
            → let before = longer_of self.old.known note.known in let unit = self.old.number in
            event ≡ number_told M.handed unit (length (logs_of before (suc unit))) }
        ensures note { IsNoteOf M.chronicle M.past result.0 }
        ensures knows { result.0.known ≡ self.new.known }
        ensures keeps { ArePrefixes self.old.known self.new.known }
        ensures learns { ArePrefixes note.known self.new.known }
    {
        self.meet(chronicle, note);
        if self.is_turn(worker.stripe().turn()) {
            let (how, event) = self.program_now(chronicle, worker);
            (self.note(chronicle), Programmed::Made { how, event })
        } else {
            (self.note(chronicle), Programmed::Waits)
        }
    }

    // Whether so many stripes of the unit have ended, and fewer than 2^64 - 1.
    fn is_turn(&self, turn: u64) -> bool
        ensures { IsTrue result
            ↔ (ended_stripes (logs_of self.now.known (suc self.now.number)) ≡ turn)
            × (turn < 2 ^ 64 - 1) }
    {
        self.ended == turn && turn < u64::MAX
    }

    // Has the unit program the worker's stripe, whose turn it is. Tells how that ended, and the
    // number of the event in the unit's log, from 1.
    fn program_now(&mut self, chronicle: &Chronicle, worker: &mut Worker<M>) -> (Ended, u64)
        requires of { chronicle.now ≡ M.chronicle }
        requires unit { worker.old.stripe.stripe.unit ≡ self.old.number }
        requires placed { IsPlacedAs (logs_of self.old.known 0) worker.old.stripe }
        requires turn { ended_stripes (logs_of self.old.known (suc self.old.number))
            ≡ worker.old.stripe.turn }
        requires below { worker.old.stripe.turn < 2 ^ 64 - 1 }
        requires told { ArePrefixes worker.old.known self.old.known }
        ensures number { self.new.number ≡ self.old.number }
        ensures programmed { HasProgrammed self.old self.new worker.old worker.new
            self.old.known result.0 }
        ensures event { result.1 ≡ min (length self.new.unit.log) (2 ^ 64 - 1) }
        ensures told { let unit = self.old.number in
            result.1 ≡ number_told M.handed unit (length (logs_of self.old.known (suc unit))) }
        ensures keeps { ArePrefixes self.old.known self.new.known }
    {
        let how = commands::program(&mut self.unit, worker.stripe());
        note_command(chronicle, &mut self.author, &self.unit, self.number, worker);
        self.ended = count_of(self.ended, how);
        (how, self.unit.events())
    }
}
