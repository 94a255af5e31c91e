//! A stripe on its way: it is placed under the engine's lock, programmed under its unit's lock
//! alone, and answered under the engine's lock again.
ghost use Rattle.std.specs.Prelude.{◌≡◌, ◌≢◌, ◌<◌, ◌≤◌, ◌++◌, List, IfOk, Ok};
ghost use Rattle.std.specs.Sync.Mutex.{mutex_guard_value};
ghost use Rattle.chronicle.specs.Prefixes.{ArePrefixes, logs_of};
ghost use Rattle.pblk_core.specs.declared.work.Why.{Why as WhyOf};
ghost use Rattle.pblk_core.specs.declared.work.Work.TheVariants as works;
ghost use Rattle.pblk_model.specs.Shape.{units};
ghost use Rattle.pblk_engine.specs.Answers.{IsLastProgram};
ghost use Rattle.pblk_engine.specs.Notes.{IsNoteOf};
ghost use Rattle.pblk_engine.specs.Placements.{IsPlacedAs};
ghost use Rattle.pblk_engine.specs.Programs.{HasMade, HasTried};
ghost use Rattle.pblk_engine.specs.Pumps.{AreOfRole, HasPumped, IsOfWorker};
ghost use Rattle.pblk_engine.specs.Stops.{stop_count};
ghost use Rattle.pblk_engine.specs.WorkSince.{HasPlacedOn};
ghost use Rattle.pblk_engine.specs.Workers.{Made};
ghost use Rattle.pblk_engine.specs.declared.outcomes.Did.TheVariants as dids;
ghost use Rattle.pblk_engine.specs.declared.outcomes.Role.{Role as RoleOf};
ghost use Rattle.pblk_engine.specs.declared.outcomes.Role.TheVariants as roles;

use crate::arm::Programmed;
use crate::commands::Ended;
use crate::engine::Engine;
use crate::errors::DriveErr;
use crate::heart::Heart;
use crate::mount::Mount;
use crate::outcomes::Did;
use crate::shared::Shared;
use crate::worker::Worker;
use chronicle::Note;
use crossbeam_utils::Backoff;
use std::sync::{MutexGuard, Wait};
use unit_port::Unit;

impl<M: Mount, U: Unit> Shared<M, U> {
    // Places the stripe that the core names, and fills the worker's with it. Tells how many stops
    // of its unit's programs the engine had noted.
    pub(crate) fn place_stripe(&self, heart: &mut Heart<M>, worker: &mut Worker<M>) -> (Note, u64)
        requires named { heart.old.work ≡ works.Program }
        requires known { worker.old.known ≡ heart.old.author.known }
        ensures note { IsNoteOf M.chronicle M.past result.0 }
        ensures told { ArePrefixes worker.new.known result.0.known }
        ensures worked { HasPlacedOn worker.new.stripe.stripe.unit worker.old.known
            result.0.known }
        ensures placed { IsPlacedAs (logs_of result.0.known 0) worker.new.stripe }
        ensures inside { worker.new.stripe.stripe.unit < units M.past.image.shape }
        ensures stops { result.1
            ≤ stop_count (logs_of result.0.known 0) worker.new.stripe.stripe.unit }
        ensures worker { let old = worker.old in worker.new
            ≡ record old { stripe = worker.new.stripe } }
        ensures same_pass { heart.new.intake.pass ≡ heart.old.intake.pass }
        ensures same_taken { heart.new.intake.intake.taken ≡ heart.old.intake.intake.taken }
    {
        let stops = heart.place(&self.chronicle, &self.ring, &mut worker.stripe);
        (heart.note(&self.chronicle), stops)
    }

    // Has the worker's stripe programmed, unless it has to wait.
    pub(crate) fn try_program<R: Wait>(
        &self,
        rt: &R,
        note: Note,
        worker: &mut Worker<M>,
        stops: u64,
    ) -> (Note, Programmed)
        requires note { IsNoteOf M.chronicle M.past note }
        requires told { ArePrefixes worker.old.known note.known }
        requires inside { worker.old.stripe.stripe.unit < units M.past.image.shape }
        requires placed { IsPlacedAs (logs_of note.known 0) worker.old.stripe }
        requires stops { stops ≤ stop_count (logs_of note.known 0) worker.old.stripe.stripe.unit }
        ensures note { IsNoteOf M.chronicle M.past result.0 }
        ensures learns { ArePrefixes note.known result.0.known }
        ensures tried { HasTried M.handed worker.old worker.new result.0.known stops result.1 }
    {
        let (held, mut arm) = self.arms.lock(rt, worker.stripe().unit());
        let (note, how) = arm.program(&self.chronicle, note, worker);
        self.arms.unlock(held, arm);
        (note, how)
    }

    // Has the worker's stripe programmed at its turn. Tells how that ended, and the number of the
    // event in the unit's log, from 1.
    pub(crate) fn program_stripe<R: Wait>(
        &self,
        rt: &R,
        note: Note,
        worker: &mut Worker<M>,
        stops: u64,
    ) -> (Note, Ended, u64)
        requires note { IsNoteOf M.chronicle M.past note }
        requires told { ArePrefixes worker.old.known note.known }
        requires inside { worker.old.stripe.stripe.unit < units M.past.image.shape }
        requires placed { IsPlacedAs (logs_of note.known 0) worker.old.stripe }
        requires stops { stops ≤ stop_count (logs_of note.known 0) worker.old.stripe.stripe.unit }
        ensures note { IsNoteOf M.chronicle M.past result.0 }
        ensures learns { ArePrefixes note.known result.0.known }
        ensures last { IsLastProgram result.0.known worker.old.stripe result.1 stops }
        ensures made { HasMade M.handed worker.old worker.new result.1 result.2 }
    {
        let mut note = note;
        let backoff = Backoff::new();
        for _ in rt.forever() {
            let (told, how) = self.try_program(rt, note, worker, stops);
            match how {
                Programmed::Made { how, event } => return (told, how, event),
                // stripes of the unit that were placed before it haven't ended yet
                Programmed::Waits => {
                    note = told;
                    backoff.snooze();
                }
            }
        }
        unreachable!()
    }

    // Tells the heart how the program of the worker's stripe ended. The worker knows all that the
    // heart does then.
    pub(crate) fn answer_stripe(
        &self,
        heart: &mut Heart<M>,
        note: Note,
        worker: &mut Worker<M>,
        how: Ended,
        stops: u64,
    )
        requires note { IsNoteOf M.chronicle M.past note }
        requires last { IsLastProgram note.known worker.old.stripe how stops }
        ensures worker { let old = worker.old in worker.new
            ≡ record old { known = worker.new.known } }
        ensures keeps { ArePrefixes worker.old.known worker.new.known }
        ensures learns { ArePrefixes note.known worker.new.known }
        ensures knows { worker.new.known ≡ heart.new.author.known }
        ensures same_pass { heart.new.intake.pass ≡ heart.old.intake.pass }
        ensures same_taken { heart.new.intake.intake.taken ≡ heart.old.intake.intake.taken }
    {
        heart.answer(
            &self.chronicle,
            &self.ring,
            note,
            worker.stripe(),
            how,
            stops,
        );
        self.tell(heart, worker);
    }
}

impl<M: Mount, U: Unit> Engine<M, U> {
    // Tells the engine how the program of the worker's stripe ended. The worker knows all that the
    // heart does then.
    fn answer_program<R: Wait>(
        &self,
        rt: &R,
        note: Note,
        worker: &mut Worker<M>,
        how: Ended,
        stops: u64,
    )
        requires note { IsNoteOf M.chronicle M.past note }
        requires last { IsLastProgram note.known worker.old.stripe how stops }
        ensures worker { let old = worker.old in worker.new
            ≡ record old { known = worker.new.known } }
        ensures keeps { ArePrefixes worker.old.known worker.new.known }
        ensures learns { ArePrefixes note.known worker.new.known }
    {
        let mut heart = self.hold(rt);
        self.shared
            .answer_stripe(&mut heart, note, worker, how, stops);
        self.release(heart);
    }

    // Places the stripe that the core names, has its unit program it, and tells the engine how that
    // ended. The engine's lock is free while the unit works.
    pub(crate) fn program<R: Wait>(
        &self,
        rt: &R,
        mut heart: MutexGuard<'_, Heart<M>>,
        worker: &mut Worker<M>,
    ) -> Result<Did, DriveErr>
        requires named { (mutex_guard_value heart).work ≡ works.Program }
        requires known { worker.old.known ≡ (mutex_guard_value heart).author.known }
        ensures pumped { (role : RoleOf)
            → HasPumped M.past.image M.handed role worker.old worker.new result }
        ensures made { (more : List Made) → worker.new.made ≡ worker.old.made ++ more
            → AreOfRole roles.Lane more }
        ensures worked { IfOk result IsOfWorker }
        ensures some { (why : WhyOf) → result ≢ Ok (dids.Nothing why) }
    {
        let (note, stops) = self.shared.place_stripe(&mut heart, worker);
        self.release(heart);
        let (note, how, event) = self.shared.program_stripe(rt, note, worker, stops);
        self.answer_program(rt, note, worker, how, stops);
        let unit = worker.stripe().unit();
        match how {
            Ended::Done => Ok(Did::Programmed),
            Ended::Failed { kept: _ } => Ok(Did::Lost(unit)),
            Ended::Stopped => Err(DriveErr { unit, event }),
        }
    }
}
