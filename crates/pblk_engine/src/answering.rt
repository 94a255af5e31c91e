//! Answers to stripes that units had to program, as the core and the engine's author note them.

ghost use Rattle.std.specs.Prelude.{◌≡◌, ◌↔◌, ◌≤◌, ◌<◌, ◌-◌, ◌++◌, ◌+◌, ◌∷◌, [], suc, false, length, IsTrue};
ghost use Rattle.pblk_model.specs.Shape.{units};
ghost use Rattle.pblk_world.specs.Events.{Decides};
ghost use Rattle.pblk_world.specs.Orders.{NoneToFree};
ghost use Rattle.chronicle.specs.Prefixes.{ArePrefixes, logs_of, longer_of, naming};
ghost use Rattle.pblk_core.specs.Collecting.{IsCollecting};
ghost use Rattle.pblk_core.specs.Keeping.{KeepsFrames, KeepsOtherStripes};
ghost use Rattle.pblk_core.specs.Landing.{IsUnderWayOn};
ghost use Rattle.pblk_core.specs.Losing.{HasItsEntries};
ghost use Rattle.pblk_core.specs.Mounts.{CollectsAfterAnswer, StandsAfterAnswer};
ghost use Rattle.pblk_core.specs.Named.{pad_of};
ghost use Rattle.pblk_core.specs.Stands.{IsStanding};
ghost use Rattle.pblk_engine.specs.Answers.{HasAnswered, IsAwaited, IsLastProgram, MayAnswer, answer_event};
ghost use Rattle.pblk_engine.specs.Asks.{IsRaisedByVictims};
ghost use Rattle.pblk_engine.specs.Hearts.{HasDecided, IsBeating, IsRingOf, parts};
ghost use Rattle.pblk_engine.specs.Notes.{IsNoteOf};

use crate::commands::Ended;
use crate::engine_author::EngineAuthor;
use crate::heart::Heart;
use crate::mount::Mount;
use crate::settling::settle;
use crate::shown::EventNumber;
use chronicle::{Chronicle, Note};
use pblk_core::{Core, Stripe};
use std::marker::Brand;
use write_ring::{Intake, Ring};

// Has the core note how the program of a stripe ended, which is under way on its unit.
fn note_end(core: &mut Core, stripe: &Stripe, how: Ended)
    requires collecting { IsCollecting core.old }
    requires under_way { IsUnderWayOn core.old stripe.now.stripe.unit }
    requires entries { HasItsEntries core.old stripe.now.stripe }
    ensures stands { let unit = stripe.now.stripe.unit in
        StandsAfterAnswer core.old (answer_event how unit) (MayAnswer how unit) core.new }
    ensures collects { let unit = stripe.now.stripe.unit in
        CollectsAfterAnswer core.old (answer_event how unit) (MayAnswer how unit) core.new }
    ensures kept { KeepsOtherStripes stripe.now.stripe.unit core.old core.new }
    ensures frames { KeepsFrames core.old.window core.new.window }
{
    match how {
        Ended::Done => core.landed(stripe),
        Ended::Failed { kept } => core.lost(stripe, kept),
        Ended::Stopped => core.stopped(stripe),
    }
}

// Whether the stripe is the one of its unit that isn't answered, its program is under way, and just
// so many stops of the unit were noted. From 2^64 - 1 answers or stops on that isn't told.
fn is_awaited(core: &Core, author: &EngineAuthor, stripe: &Stripe, stops: u64) -> bool
    requires standing { IsStanding core.now }
    requires inside { stripe.now.stripe.unit < units core.now.layout }
    requires shape { core.now.layout ≡ author.now.past.image.shape }
    ensures { IsTrue result
        ↔ IsAwaited core.now (logs_of author.now.known 0) stripe.now stops }
{
    let unit = stripe.unit();
    let turn = stripe.turn();
    let is_next = core.answers(unit) == turn && turn < u64::MAX;
    let is_latest = author.stops(unit) == stops && stops < u64::MAX;
    core.is_under_way(unit) && is_next && is_latest
}

// Notes how the program of a stripe ended, in the engine's log and in the core.
fn note_answer<N: EventNumber>(
    core: &mut Core,
    author: &mut EngineAuthor,
    chronicle: &Chronicle,
    intake: &Intake,
    stripe: &Stripe,
    how: Ended,
)
    requires of { author.old.chronicle ≡ chronicle.now }
    requires beating { IsBeating (parts core.old author.old intake.now.seat.me.0) }
    requires none { NoneToFree author.old.past.image (logs_of author.old.known) }
    requires inside { stripe.now.stripe.unit < units author.old.past.image.shape }
    requires under_way { IsUnderWayOn core.old stripe.now.stripe.unit }
    requires entries { HasItsEntries core.old stripe.now.stripe }
    requires may { MayAnswer how stripe.now.stripe.unit author.old.past.image
        (logs_of author.old.known) N.number }
    ensures beating { IsBeating (parts core.new author.new intake.now.seat.me.0) }
    ensures decided { HasDecided author.old author.new }
    ensures answered { let e = answer_event how stripe.now.stripe.unit N.number in
        logs_of author.new.known 0 ≡ logs_of author.old.known 0
        ++ naming author.old.known (Decides e) ∷ [] }
    ensures kept { KeepsOtherStripes stripe.now.stripe.unit core.old core.new }
    ensures pads { IsRaisedByVictims author.new.past.image (logs_of author.new.known)
        (pad_of core.old) (pad_of core.new) }
{
    author.answer::<N>(chronicle, stripe.unit(), how);
    note_end(core, stripe, how);
}

impl<M: Mount> Heart<M> {
    /// Takes in what a unit's arm knew after a program of a stripe, and notes how that ended. The
    /// program is the last event of the unit that the note knows, and when it was made the stripe
    /// was placed, and so many stops of the unit's programs were noted.
    ///
    /// Answers true where it noted that: the stripe is still the one of its unit that isn't
    /// answered, its program is under way, and no other stop of the unit was noted since. Else, and
    /// from 2^64 - 1 answers or stops of the unit on, it answers false. Then the note was taken in,
    /// and nothing else was done.
    pub(crate) fn answer(
        &mut self,
        chronicle: &Chronicle,
        ring: &Ring,
        note: Note,
        stripe: &Stripe,
        how: Ended,
        stops: u64,
    ) -> bool
        requires of { chronicle.now ≡ M.chronicle }
        requires ring { IsRingOf M.ring M.key ring.now }
        requires note { IsNoteOf M.chronicle M.past note }
        requires shape { stripe.now.shape ≡ M.past.image.shape }
        requires programmed { IsLastProgram note.known stripe.now how stops }
        ensures decided { let old = self.old.author in HasDecided
            (record old { known = longer_of old.known note.known }) self.new.author }
        ensures keeps { ArePrefixes self.old.author.known self.new.author.known }
        ensures learns { ArePrefixes note.known self.new.author.known }
        ensures answered { IsTrue result → HasAnswered note.known stripe.now.stripe.unit how
            (logs_of self.old.author.known 0) (logs_of self.new.author.known 0) }
        ensures unanswered { result ≡ false → self.new ≡ record self.old {
          author = record self.old.author {
            known = longer_of self.old.author.known note.known;
          };
        } }
        ensures same_copying { self.new.copying ≡ self.old.copying }
        ensures same_pass { self.new.intake.pass ≡ self.old.intake.pass }
        ensures same_taken { self.new.intake.intake.taken ≡ self.old.intake.intake.taken }
        ensures granted { self.old.intake.intake.granted ≤ self.new.intake.intake.granted }
        ensures pad { self.old.pad ≤ self.new.pad }
        ensures pads { IsRaisedByVictims M.past.image (logs_of self.new.author.known) self.old.pad
            self.new.pad }
        ensures asked { self.new.asked ≡ self.old.asked }
    {
        self.answer_by::<Brand>(chronicle, ring, note, stripe, how, stops)
    }

    // The program has this number in the unit's log, from 0.
    fn answer_by<N: EventNumber>(
        &mut self,
        chronicle: &Chronicle,
        ring: &Ring,
        note: Note,
        stripe: &Stripe,
        how: Ended,
        stops: u64,
    ) -> bool
        requires of { chronicle.now ≡ M.chronicle }
        requires ring { IsRingOf M.ring M.key ring.now }
        requires note { IsNoteOf M.chronicle M.past note }
        requires shape { stripe.now.shape ≡ M.past.image.shape }
        requires programmed { IsLastProgram note.known stripe.now how stops }
        requires number { length (logs_of note.known (suc stripe.now.stripe.unit)) ≡ N.number + 1 }
        ensures decided { let old = self.old.author in HasDecided
            (record old { known = longer_of old.known note.known }) self.new.author }
        ensures keeps { ArePrefixes self.old.author.known self.new.author.known }
        ensures learns { ArePrefixes note.known self.new.author.known }
        ensures answered { IsTrue result → HasAnswered note.known stripe.now.stripe.unit how
            (logs_of self.old.author.known 0) (logs_of self.new.author.known 0) }
        ensures unanswered { result ≡ false → self.new ≡ record self.old {
          author = record self.old.author {
            known = longer_of self.old.author.known note.known;
          };
        } }
        ensures same_copying { self.new.copying ≡ self.old.copying }
        ensures same_pass { self.new.intake.pass ≡ self.old.intake.pass }
        ensures same_taken { self.new.intake.intake.taken ≡ self.old.intake.intake.taken }
        ensures granted { self.old.intake.intake.granted ≤ self.new.intake.intake.granted }
        ensures pad { self.old.pad ≤ self.new.pad }
        ensures pads { IsRaisedByVictims M.past.image (logs_of self.new.author.known) self.old.pad
            self.new.pad }
        ensures asked { self.new.asked ≡ self.old.asked }
    {
        self.meet(chronicle, note);
        if !is_awaited(&self.core, &self.author, stripe, stops) {
            return false;
        }
        note_answer::<N>(
            &mut self.core,
            &mut self.author,
            chronicle,
            &self.intake,
            stripe,
            how,
        );
        settle(
            &mut self.core,
            &mut self.author,
            chronicle,
            ring,
            &mut self.intake,
        );
        true
    }
}
