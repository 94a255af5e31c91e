//! A chunk of a line that was given up is reset, and the engine notes that, in one hold of both
//! locks.
ghost use Rattle.std.specs.Prelude.{◌≡◌, ◌<◌, ◌++◌, List, IfOk};
ghost use Rattle.pblk_model.specs.Shape.{units};
ghost use Rattle.pblk_core.specs.declared.work.Work.TheVariants as works;
ghost use Rattle.pblk_engine.specs.Pumps.{AreOfRole, HasPumped};
ghost use Rattle.pblk_engine.specs.Workers.{Made};
ghost use Rattle.pblk_engine.specs.declared.outcomes.Did.TheVariants as dids;
ghost use Rattle.pblk_engine.specs.declared.outcomes.Role.{Role as RoleOf};
ghost use Rattle.pblk_engine.specs.declared.outcomes.Role.TheVariants as roles;

use crate::errors::DriveErr;
use crate::heart::Heart;
use crate::mount::Mount;
use crate::outcomes::Did;
use crate::reset_chunks::reset_chunk;
use crate::shared::Shared;
use crate::worker::Worker;
use std::sync::Wait;
use unit_port::Unit;

impl<M: Mount, U: Unit> Shared<M, U> {
    // Has the unit reset its chunk of the line that the core names. The engine notes that, unless
    // the reset was stopped.
    pub(crate) fn reset<R: Wait>(
        &self,
        rt: &R,
        heart: &mut Heart<M>,
        worker: &mut Worker<M>,
        line: u32,
        unit: u32,
    ) -> Result<Did, DriveErr>
        requires named { heart.old.work ≡ works.Reset line unit }
        requires known { worker.old.known ≡ heart.old.author.known }
        requires unit { unit < units M.past.image.shape }
        ensures pumped { (role : RoleOf)
            → HasPumped M.past.image M.handed role worker.old worker.new result }
        ensures made { (more : List Made) → worker.new.made ≡ worker.old.made ++ more
            → AreOfRole roles.Lane more }
        ensures reset { IfOk result (λ did. did ≡ dids.Reset) }
        ensures same_pass { heart.new.intake.pass ≡ heart.old.intake.pass }
        ensures same_taken { heart.new.intake.intake.taken ≡ heart.old.intake.intake.taken }
    {
        let (held, arm) = self.arms.lock(rt, unit);
        let (arm, answer) = reset_chunk(
            &self.chronicle,
            &self.ring,
            heart,
            arm,
            worker,
            unit,
            line,
        );
        self.arms.unlock(held, arm);
        match answer {
            Ok(()) => Ok(Did::Reset),
            Err(event) => Err(DriveErr { unit, event }),
        }
    }
}
