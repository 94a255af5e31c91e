//! What decides for a target, under the engine's lock.

ghost use Rattle.std.specs.Prelude.{ℕ, ◌≡◌, ◌<◌, ◌≤◌, ◌⊎◌, ◌↔◌, false, true, max, IsTrue};
ghost use mathlib.Core.List.{IsPrefix};
ghost use Rattle.pblk_model.specs.Shape.{units};
ghost use Rattle.pblk_world.specs.AtRest.{AreResetsNoted, IsCopyDue};
ghost use Rattle.chronicle.specs.Prefixes.{AreLegalLogs, ArePrefixes, logs_of, longer_of};
ghost use Rattle.core_laws.specs.PlacerOf.{was_stopped_on};
ghost use Rattle.pblk_core.specs.Resets.{IsToReset};
ghost use Rattle.pblk_core.specs.declared.work.Work.TheVariants as works;
ghost use Rattle.pblk_engine.specs.Asks.{IsRaisedByVictims};
ghost use Rattle.pblk_engine.specs.Placements.{IsPlacedAs};
ghost use Rattle.pblk_engine.specs.Hearts.{HasDecided, IsRingOf};
ghost use Rattle.pblk_engine.specs.Stops.{stop_count};
ghost use Rattle.pblk_engine.specs.WorkSince.{HasOpened, HasWorkSince};

use crate::engine_author::EngineAuthor;
use crate::mount::Mount;
use crate::placing::{open_line, place};
use crate::settling::settle;
use crate::worker::Worker;
use chronicle::{Chronicle, Note};
use pblk_core::{Core, Stripe};
use std::marker::{Model, PhantomData};
use write_ring::{Batch, Intake, Ring};

/// What decides for a target: the core, and the intake of the write ring, of which it grants
/// positions, takes entries and frees slots. Each decision is an event in the engine's log, of
/// which it has the author.
///
/// Between two calls the core's tables agree with all that the author knows of the logs. The ring
/// has taken, freed and granted what the core has. No line may be freed, no frame can be given
/// back, and all the room that there is was granted.
pub(crate) struct Heart<M: Mount> {
    pub(crate) core: Core,
    pub(crate) author: EngineAuthor,
    pub(crate) intake: Intake,
    // one frame, for copies
    pub(crate) batch: Batch,
    // a block that is to be copied is fetched into it
    pub(crate) sector: Vec<u8>,
    // how many slots the ring has
    pub(crate) slots: u64,
    // up to which position flushes and the close asked for pads
    pub(crate) asked: u64,
    pub(crate) of: PhantomData<M>,
}

// Contracts see what the author knows, the intake, of the core what it does next, and up to which
// position pads were asked for.
impl<M: Mount> Model for Heart<M> {
    ghost use Rattle.pblk_engine.specs.Hearts.{HeartView, IsCopyBatch, IsHeartOf};
    ghost use Rattle.pblk_engine.specs.Hearts.{heart_view, parts};
    ghost use Rattle.pblk_engine.specs.Asks.{IsRaisedByVictims};
    ghost use Rattle.pblk_core.specs.Named.{pad_of};
    ghost use Rattle.chronicle.specs.Prefixes.{logs_of};

    ghost Value = { HeartView };

    ghost view = { λ h. heart_view h.core h.author h.intake.seat.me.0 h.asked h.sector.items };

    ghost invariant = { λ h. IsHeartOf M.chronicle M.ring M.past M.key h.intake.seat.table_id
        (parts h.core h.author h.intake.seat.me.0)
        × IsCopyBatch M.key h.batch h.sector.items h.slots
        × IsRaisedByVictims M.past.image (logs_of h.author.known) h.asked (pad_of h.core) };
}

impl<M: Mount> Heart<M> {
    /// Takes in what somebody knew. Of each log it knows the longer of the two prefixes from then
    /// on. The engine's own log stays as it was.
    pub(crate) fn meet(&mut self, chronicle: &Chronicle, note: Note)
        requires of { chronicle.now ≡ M.chronicle }
        requires note_of { note.chronicle ≡ M.chronicle }
        requires noted { AreResetsNoted (logs_of note.known) }
        ensures met { let old = self.old in self.new ≡ record old {
          author = record old.author { known = longer_of old.author.known note.known };
        } }
        ensures past { note.past ≡ M.past }
        ensures own { logs_of self.new.author.known 0 ≡ logs_of self.old.author.known 0 }
        ensures own_noted { IsPrefix (logs_of note.known 0) (logs_of self.old.author.known 0) }
        ensures keeps { ArePrefixes self.old.author.known self.new.author.known }
        ensures learns { ArePrefixes note.known self.new.author.known }
        ensures legal { AreLegalLogs M.past.image self.new.author.known }
    {
        self.author.meet(chronicle, note);
    }

    /// A note of all that it knows.
    pub(crate) fn note(&mut self, chronicle: &Chronicle) -> Note
        requires of { chronicle.now ≡ M.chronicle }
        ensures same { self.new ≡ self.old }
        ensures note_of { result.chronicle ≡ M.chronicle }
        ensures note_past { result.past ≡ M.past }
        ensures note_known { result.known ≡ self.old.author.known }
        ensures noted { AreResetsNoted (logs_of result.known) }
        ensures legal { AreLegalLogs M.past.image self.old.author.known }
        ensures begun { ArePrefixes M.past.logs self.old.author.known }
        ensures to_reset { (line unit : ℕ) → self.old.work ≡ works.Reset line unit
            → IsToReset M.past.image (logs_of result.known) line unit }
    {
        self.author.note(chronicle)
    }

    /// Opens the line that the core names.
    pub(crate) fn open_line(&mut self, chronicle: &Chronicle, ring: &Ring)
        requires of { chronicle.now ≡ M.chronicle }
        requires ring { IsRingOf M.ring M.key ring.now }
        requires named { self.old.work ≡ works.Open }
        ensures decided { HasDecided self.old.author self.new.author }
        ensures opened { HasOpened self.old.author.known self.new.author.known }
        ensures same_copying { self.new.copying ≡ self.old.copying }
        ensures same_pass { self.new.intake.pass ≡ self.old.intake.pass }
        ensures same_taken { self.new.intake.intake.taken ≡ self.old.intake.intake.taken }
        ensures granted { self.old.intake.intake.granted ≤ self.new.intake.intake.granted }
        ensures pad { self.old.pad ≤ self.new.pad }
        ensures pads { IsRaisedByVictims M.past.image (logs_of self.new.author.known) self.old.pad
            self.new.pad }
        ensures asked { self.new.asked ≡ self.old.asked }
    {
        open_line(&mut self.core, &mut self.author, chronicle, &self.intake);
        settle(
            &mut self.core,
            &mut self.author,
            chronicle,
            ring,
            &mut self.intake,
        );
    }

    /// Places the stripe that the core names, and fills `into` with it. A stripe that was placed
    /// before is under way again: then no second event says that it was placed. Answers how many
    /// stops of its unit's programs were noted, which [`Heart::answer`] asks for.
    pub(crate) fn place(&mut self, chronicle: &Chronicle, ring: &Ring, into: &mut Stripe) -> u64
        requires of { chronicle.now ≡ M.chronicle }
        requires ring { IsRingOf M.ring M.key ring.now }
        requires named { self.old.work ≡ works.Program }
        requires shape { into.old.shape ≡ M.past.image.shape }
        ensures placed { IsPlacedAs (logs_of self.new.author.known 0) into.new }
        ensures worked { HasWorkSince self.old.author.known self.new.author.known
            ⊎ (was_stopped_on (logs_of self.old.author.known 0) into.new.stripe.unit ≡ true) }
        ensures stops { result
            ≡ stop_count (logs_of self.new.author.known 0) into.new.stripe.unit }
        ensures inside { into.new.stripe.unit < units M.past.image.shape }
        ensures shape { into.new.shape ≡ into.old.shape }
        ensures decided { HasDecided self.old.author self.new.author }
        ensures same_copying { self.new.copying ≡ self.old.copying }
        ensures same_pass { self.new.intake.pass ≡ self.old.intake.pass }
        ensures same_taken { self.new.intake.intake.taken ≡ self.old.intake.intake.taken }
        ensures granted { self.old.intake.intake.granted ≤ self.new.intake.intake.granted }
        ensures pad { self.old.pad ≤ self.new.pad }
        ensures pads { IsRaisedByVictims M.past.image (logs_of self.new.author.known) self.old.pad
            self.new.pad }
        ensures asked { self.new.asked ≡ self.old.asked }
    {
        place(
            &mut self.core,
            &mut self.author,
            chronicle,
            &self.intake,
            into,
        );
        settle(
            &mut self.core,
            &mut self.author,
            chronicle,
            ring,
            &mut self.intake,
        );
        self.author.stops(into.unit())
    }

    /// Asks for pads up to a position, for a flush of this worker: entries below it are placed even
    /// where they are fewer than a stripe holds. Answers whether it did. It does just where all
    /// below was taken and no copy is due, and else nothing changes. The worker keeps the greatest
    /// position for which it asked.
    pub(crate) fn ask_pad(&mut self, worker: &mut Worker<M>, to: u64) -> bool
        ensures when { IsTrue result ↔ ((to ≤ self.old.intake.intake.taken)
            × (¬ IsCopyDue M.past.image (logs_of self.old.author.known))) }
        ensures raised { IsTrue result → self.new.pad ≡ max self.old.pad to }
        ensures asked { IsTrue result → self.new.asked ≡ max self.old.asked to }
        ensures unchanged { result ≡ false → self.new ≡ self.old }
        ensures same { self.new ≡ record self.old {
          work = self.new.work;
          pad = self.new.pad;
          asked = self.new.asked;
        } }
        ensures worker_asked { IsTrue result → worker.new
            ≡ record worker.old { asked = max worker.old.asked to } }
        ensures worker_same { result ≡ false → worker.new ≡ worker.old }
    {
        if self.core.front().position < to {
            return false;
        }
        if !self.core.may_pad() {
            return false;
        }
        self.core.ask_pad(to);
        self.asked = self.asked.max(to);
        worker.asked = worker.asked.max(to);
        true
    }
}
