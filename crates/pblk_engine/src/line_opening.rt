//! A line is opened.
ghost use Rattle.std.specs.Prelude.{◌≡◌, ◌++◌, List, Ok};
ghost use Rattle.pblk_core.specs.declared.work.Work.TheVariants as works;
ghost use Rattle.pblk_engine.specs.Pumps.{AreOfRole, HasPumped};
ghost use Rattle.pblk_engine.specs.Workers.{Made};
ghost use Rattle.pblk_engine.specs.declared.outcomes.Did.TheVariants as dids;
ghost use Rattle.pblk_engine.specs.declared.outcomes.Role.{Role as RoleOf};

use crate::heart::Heart;
use crate::mount::Mount;
use crate::outcomes::Did;
use crate::shared::Shared;
use crate::worker::Worker;
use unit_port::Unit;

impl<M: Mount, U: Unit> Shared<M, U> {
    // Opens the line that the core names. The worker knows what the heart does.
    pub(crate) fn open_line(&self, heart: &mut Heart<M>, worker: &mut Worker<M>) -> Did
        requires named { heart.old.work ≡ works.Open }
        requires known { worker.old.known ≡ heart.old.author.known }
        ensures pumped { (role : RoleOf)
            → HasPumped M.past.image M.handed role worker.old worker.new (Ok result) }
        ensures opened { result ≡ dids.Opened }
        ensures made { (role : RoleOf) (more : List Made)
            → worker.new.made ≡ worker.old.made ++ more → AreOfRole role more }
        ensures same_pass { heart.new.intake.pass ≡ heart.old.intake.pass }
        ensures same_taken { heart.new.intake.intake.taken ≡ heart.old.intake.intake.taken }
    {
        heart.open_line(&self.chronicle, &self.ring);
        self.tell(heart, worker);
        Did::Opened
    }
}
