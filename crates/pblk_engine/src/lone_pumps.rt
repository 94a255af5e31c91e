//! Pieces of work that a worker does which has the heart to itself, and their end.
ghost use Rattle.std.specs.Prelude.{◌≡◌, ◌≢◌, ◌⊎◌, IfOk, Ok, length};
ghost use Rattle.chronicle.specs.Prefixes.{logs_of};
ghost use Rattle.pblk_core.specs.declared.work.Why.{Why as WhyOf};
ghost use Rattle.pblk_core.specs.declared.work.Work.TheVariants as works;
ghost use Rattle.write_ring.specs.Handles.{AreAllClaims, pass_view};
ghost use Rattle.pblk_engine.specs.Alone.{CanBeDone, IsLonePump, TakesOneCopy, WasFull, at_look};
ghost use Rattle.pblk_engine.specs.Endings.{IsPassIn};
ghost use Rattle.pblk_engine.specs.Pumps.{HasPumped, IsWork};
ghost use Rattle.pblk_engine.specs.declared.outcomes.Did.TheVariants as dids;
ghost use Rattle.pblk_engine.specs.declared.outcomes.Role.TheVariants as roles;

use crate::commands::Ended;
use crate::errors::DriveErr;
use crate::heart::Heart;
use crate::mount::Mount;
use crate::outcomes::Did;
use crate::shared::Shared;
use crate::worker::Worker;
use pblk_core::Work;
use std::sync::Wait;
use unit_port::Unit;
use write_ring::Pass;

impl<M: Mount, U: Unit> Shared<M, U> {
    // Places the stripe that the core names, has its unit program it, and tells the heart how that
    // ended.
    fn program_alone<R: Wait>(
        &self,
        rt: &R,
        heart: &mut Heart<M>,
        worker: &mut Worker<M>,
    ) -> Result<Did, DriveErr>
        requires named { heart.old.work ≡ works.Program }
        requires known { worker.old.known ≡ heart.old.author.known }
        ensures pumped { HasPumped M.past.image M.handed roles.All worker.old worker.new result }
        ensures worked { IfOk result IsWork }
        ensures copied { result ≢ Ok dids.Copied }
        ensures same_pass { heart.new.intake.pass ≡ heart.old.intake.pass }
        ensures same_taken { heart.new.intake.intake.taken ≡ heart.old.intake.intake.taken }
    {
        let (note, stops) = self.place_stripe(heart, worker);
        let (note, how, event) = self.program_stripe(rt, note, worker, stops);
        self.answer_stripe(heart, note, worker, how, stops);
        let unit = worker.stripe().unit();
        match how {
            Ended::Done => Ok(Did::Programmed),
            Ended::Failed { kept: _ } => Ok(Did::Lost(unit)),
            Ended::Stopped => Err(DriveErr { unit, event }),
        }
    }

    // Does the work that the core names.
    fn work_alone<R: Wait>(
        &self,
        rt: &R,
        heart: &mut Heart<M>,
        work: Work,
        worker: &mut Worker<M>,
        pass: &mut Pass,
    ) -> Result<Did, DriveErr>
        requires pass_of { IsPassIn M.ring M.key pass.old }
        requires shares { (pass_view pass.old).pass.shares ≡ 127 }
        requires named { work ≡ heart.old.work }
        requires known { worker.old.known ≡ heart.old.author.known }
        requires claims { AreAllClaims M.key.first heart.old.intake.intake.taken
            (pass_view pass.old).pass heart.old.intake.pass }
        requires can { CanBeDone M.past.image worker.old.known work }
        ensures pass_of { IsPassIn M.ring M.key pass.new }
        ensures same_pass { (pass_view pass.new).pass ≡ (pass_view pass.old).pass }
        ensures pumped { HasPumped M.past.image M.handed roles.All worker.old worker.new result }
        ensures claims { AreAllClaims M.key.first heart.new.intake.intake.taken
            (pass_view pass.old).pass heart.new.intake.pass }
        ensures one { result ≡ Ok dids.Copied → TakesOneCopy M.past.image
            (length (logs_of heart.old.author.known 0)) (logs_of heart.new.author.known) }
        ensures none { result ≢ Ok dids.Copied
            → heart.new.intake.intake.taken ≡ heart.old.intake.intake.taken }
        ensures works { IfOk result (λ did. IsWork did
            ⊎ WasFull M.past.image (at_look heart.old.author.known)) }
        ensures some { (why : WhyOf) → result ≢ Ok (dids.Nothing why) }
    {
        heart.stands();
        match work {
            Work::Copy => Ok(self.copy_alone(rt, heart, worker, pass)?),
            Work::Program => self.program_alone(rt, heart, worker),
            Work::Open => Ok(self.open_line(heart, worker)),
            Work::Reset { line, unit } => self.reset(rt, heart, worker, line, unit),
            Work::Nothing(why) => Ok(Did::Nothing(why)),
        }
    }

    /// Does the work that the core names, as a pump of a worker that has the heart to itself. What
    /// it doesn't do nobody else does meanwhile. So it did something, or the ring has no room for
    /// a copy. `Err` names the command that was lost.
    ///
    /// The worker knows what the heart does, before and after. All that was claimed is taken then.
    pub(crate) fn pump_alone<R: Wait>(
        &self,
        rt: &R,
        heart: &mut Heart<M>,
        work: Work,
        worker: &mut Worker<M>,
        pass: &mut Pass,
    ) -> Result<Did, DriveErr>
        requires pass_of { IsPassIn M.ring M.key pass.old }
        requires shares { (pass_view pass.old).pass.shares ≡ 127 }
        requires named { work ≡ heart.old.work }
        requires known { worker.old.known ≡ heart.old.author.known }
        requires claims { AreAllClaims M.key.first heart.old.intake.intake.taken
            (pass_view pass.old).pass heart.old.intake.pass }
        requires can { CanBeDone M.past.image worker.old.known work }
        ensures pass_of { IsPassIn M.ring M.key pass.new }
        ensures same_pass { (pass_view pass.new).pass ≡ (pass_view pass.old).pass }
        ensures claims { AreAllClaims M.key.first heart.new.intake.intake.taken
            (pass_view pass.old).pass heart.new.intake.pass }
        ensures knows { worker.new.known ≡ heart.new.author.known }
        ensures pumped { IsLonePump M.past.image M.handed (record {
          before = worker.old;
          after = worker.new;
          answer = result;
        }) }
    {
        worker.stands();
        heart.stands();
        let answer = self.work_alone(rt, heart, work, worker, pass);
        heart.stands();
        self.tell(heart, worker);
        heart.stands();
        answer
    }
}
