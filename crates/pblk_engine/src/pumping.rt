//! One piece of an engine's work.
ghost use Rattle.std.specs.Prelude.{◌≡◌, ◌<◌, ◌++◌, ℕ, List, IfOk, Ok};
ghost use Rattle.std.specs.Sync.Mutex.{mutex_guard_value};
ghost use Rattle.pblk_model.specs.Shape.{units};
ghost use Rattle.pblk_world.specs.Orders.{AreReset};
ghost use Rattle.chronicle.specs.Prefixes.{logs_of};
ghost use Rattle.pblk_core.specs.declared.work.Why.{Why as WhyOf};
ghost use Rattle.pblk_core.specs.declared.work.Work.TheVariants as works;
ghost use Rattle.pblk_engine.specs.Pumps.{AreOfRole, HasComeOn, HasPumped, IsNothing, IsOfRole, IsWork};
ghost use Rattle.pblk_engine.specs.Workers.{Made};
ghost use Rattle.pblk_engine.specs.declared.outcomes.Did.TheVariants as dids;
ghost use Rattle.pblk_engine.specs.declared.outcomes.Role.TheVariants as roles;

use crate::engine::Engine;
use crate::errors::DriveErr;
use crate::heart::Heart;
use crate::mount::Mount;
use crate::outcomes::{Did, Role};
use crate::worker::Worker;
use pblk_core::Work;
use std::sync::{MutexGuard, Wait};
use unit_port::Unit;

impl<M: Mount, U: Unit> Engine<M, U> {
    /// Takes what is filled, and does one piece of work, if there is one for this role. It tells
    /// what that was, by the commands that the worker made in this call. `Lost` comes exactly where
    /// it had a stripe programmed and the program failed. `Nothing` comes where there was nothing
    /// to do at its look. It is `Busy` where something was in flight then, and nothing else can be
    /// done meanwhile by the logs that the worker knows. Where nothing was in flight, the engine's
    /// log is at rest at the length that the worker knows.
    ///
    /// Where it answers that it did something, it came on. Then the engine's log, as the worker
    /// knows it, got a piece of work in this call: an entry that was taken, an opened line, a
    /// placed stripe, or a reset. Only a stripe that had been stopped isn't placed anew when it is
    /// programmed again.
    ///
    /// `NotCopied` is no such answer. It comes where a sector was to be copied, and no copy of it
    /// was taken. The ring had no room for it, or another claim came first. Or the copy was put
    /// into the ring, and is taken later, since an entry before it isn't filled yet.
    ///
    /// In the role All a copy is begun only where no reset is left to be made.
    ///
    /// `Err` comes where the command that it gave a unit was stopped, or where it fetched a block
    /// to copy it and the fetch failed. It names that event. Whatever the answer, the worker made
    /// commands of this role alone.
    pub fn pump<R: Wait>(&self, rt: &R, worker: &mut Worker<M>, role: Role) -> Result<Did, DriveErr>
        ensures pumped { HasPumped M.past.image M.handed role worker.old worker.new result }
        ensures role { IfOk result (IsOfRole role) }
        ensures made { (more : List Made) → worker.new.made ≡ worker.old.made ++ more
            → AreOfRole role more }
        ensures progress { IfOk result (λ did. IsWork did → HasComeOn worker.old worker.new) }
    {
        let mut heart = self.hold(rt);
        let beating = &mut *heart;
        beating.take_filled(&self.shared.chronicle, &self.shared.ring);
        self.tell(beating, worker);
        let work = beating.next_work();
        self.pump_held(rt, heart, work, worker, role)
    }

    // Does the work that the core names, in this hold of the engine's lock, which ends with it. The
    // worker knows what the heart does.
    pub(crate) fn pump_held<R: Wait>(
        &self,
        rt: &R,
        mut heart: MutexGuard<'_, Heart<M>>,
        work: Work,
        worker: &mut Worker<M>,
        role: Role,
    ) -> Result<Did, DriveErr>
        requires named { work ≡ (mutex_guard_value heart).work }
        requires known { worker.old.known ≡ (mutex_guard_value heart).author.known }
        requires reset { (line unit : ℕ) → work ≡ works.Reset line unit
            → unit < units M.past.image.shape }
        requires reset_first { work ≡ works.Copy
            → AreReset M.past.image (logs_of worker.old.known) }
        requires rest { (why : WhyOf) → work ≡ works.Nothing why
            → IsNothing M.past.image worker.old.known why }
        ensures pumped { HasPumped M.past.image M.handed role worker.old worker.new result }
        ensures role { IfOk result (IsOfRole role) }
        ensures made { (more : List Made) → worker.new.made ≡ worker.old.made ++ more
            → AreOfRole role more }
        ensures nothing { (why : WhyOf) → result ≡ Ok (dids.Nothing why)
            → work ≡ works.Nothing why }
        ensures other { role ≡ roles.Lane → result ≡ Ok dids.Other → work ≡ works.Copy }
    {
        match (role, work) {
            (_, Work::Nothing(why)) => Ok(Did::Nothing(why)),
            (Role::Collector, _) | (Role::All, Work::Copy) => Ok(self.copy(
                rt, &mut heart, work, worker,
            )?),
            (Role::Lane, Work::Copy) => Ok(Did::Other),
            (_, Work::Program) => self.program(rt, heart, worker),
            (_, Work::Open) => Ok(self.shared.open_line(&mut heart, worker)),
            (_, Work::Reset { line, unit }) => {
                self.shared.reset(rt, &mut heart, worker, line, unit)
            }
        }
    }
}
