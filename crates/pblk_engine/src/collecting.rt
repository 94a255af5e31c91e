//! A sector of the victim at work is copied, in one hold of the engine's lock.
ghost use Rattle.std.specs.Prelude.{◌≡◌, ◌≢◌, ◌⊎◌, ◌<◌, ◌≤◌, ◌++◌, List, Ok, Some, IfOk, IsOk};
ghost use Rattle.std.specs.Sync.Mutex.{mutex_guard_value};
ghost use Rattle.pblk_model.specs.Shape.{units};
ghost use Rattle.pblk_world.specs.AtRest.{IsCopyDue};
ghost use Rattle.pblk_core.specs.declared.work.Why.{Why as WhyOf};
ghost use Rattle.pblk_core.specs.declared.work.Work.TheVariants as works;
ghost use Rattle.pblk_world.specs.Orders.{AreReset};
ghost use Rattle.chronicle.specs.Prefixes.{ArePrefixes, logs_of};
ghost use Rattle.pblk_engine.specs.Copying.{IsFetched};
ghost use Rattle.pblk_engine.specs.Pumps.{AreOfRole, HasCollected, HasCollectedRun, HasFetched, IsOfRole};
ghost use Rattle.pblk_engine.specs.Workers.{Made};
ghost use Rattle.pblk_engine.specs.declared.outcomes.Did.TheVariants as dids;
ghost use Rattle.pblk_engine.specs.declared.outcomes.Role.{Role as RoleOf};
ghost use Rattle.pblk_engine.specs.declared.outcomes.Role.TheVariants as roles;

use crate::copying::{CopyPlace, NextCopy};
use crate::engine::Engine;
use crate::errors::FetchErr;
use crate::heart::Heart;
use crate::mount::Mount;
use crate::outcomes::Did;
use crate::shared::Shared;
use crate::worker::Worker;
use pblk_core::Work;
use std::sync::{MutexGuard, Wait};
use unit_port::Unit;

// How many sectors are copied in one hold of the engine's lock, at most. A hold is longer the more
// they are, and to hand the lock on takes longer than to copy one.
const RUN: u32 = 16;

impl<M: Mount, U: Unit> Shared<M, U> {
    // Has the block of a sector fetched, which is copied next, into the heart's buffer.
    pub(crate) fn fetch_copy<R: Wait>(
        &self,
        rt: &R,
        heart: &mut Heart<M>,
        worker: &mut Worker<M>,
        of: &CopyPlace,
    ) -> Result<(), FetchErr>
        requires copy { heart.old.copy ≡ Some of.now }
        requires unit { of.now.unit < units M.past.image.shape }
        requires known { worker.old.known ≡ heart.old.author.known }
        ensures met { let old = heart.old in heart.new ≡ record old {
          author = record old.author { known = heart.new.author.known };
          sector = heart.new.sector;
        } }
        ensures keeps { ArePrefixes heart.old.author.known heart.new.author.known }
        ensures fetched { IsOk result → IsFetched M.past.image (logs_of heart.new.author.known)
            of.now heart.new.sector }
        ensures made { HasFetched M.handed of.now.unit worker.old worker.new result }
    {
        let (held, mut arm) = self.arms.lock(rt, of.unit);
        let fetched = heart.fetch_copy(&self.chronicle, &mut arm, worker, of);
        self.arms.unlock(held, arm);
        fetched
    }
}

impl<M: Mount, U: Unit> Engine<M, U> {
    // Has the block of a sector fetched, puts its copy into the ring, and takes all that is filled
    // there. `Copied` comes exactly where the copy was taken: else its claim was refused, or an
    // entry before it isn't filled yet.
    fn copy_sector<R: Wait>(
        &self,
        rt: &R,
        heart: &mut Heart<M>,
        worker: &mut Worker<M>,
        of: &CopyPlace,
    ) -> Result<Did, FetchErr>
        requires copy { heart.old.copy ≡ Some of.now }
        requires unit { of.now.unit < units M.past.image.shape }
        requires known { worker.old.known ≡ heart.old.author.known }
        requires reached { heart.old.intake.intake.taken ≤ heart.old.intake.found.claimed }
        requires due { IsCopyDue M.past.image (logs_of worker.old.known) }
        ensures collected { (role : RoleOf)
            → (role ≡ roles.All → AreReset M.past.image (logs_of worker.old.known))
            → HasCollected M.past.image M.handed role worker.old worker.new result }
        ensures copied { IfOk result (λ did. (did ≡ dids.Copied) ⊎ (did ≡ dids.NotCopied)) }
        ensures knows { result ≡ Ok dids.Copied → worker.new.known ≡ heart.new.author.known }
    {
        self.shared.fetch_copy(rt, heart, worker, of)?;
        let Some(at) = heart.put_copy(&self.shared.ring, of) else {
            return Ok(Did::NotCopied);
        };
        heart.take_filled(&self.shared.chronicle, &self.shared.ring);
        self.tell(heart, worker);
        if at < heart.front().position {
            Ok(Did::Copied)
        } else {
            Ok(Did::NotCopied)
        }
    }

    // Copies the sector that the core names next. It answers `Other` where it names none. The
    // worker knows what the heart does.
    pub(crate) fn copy<R: Wait>(
        &self,
        rt: &R,
        heart: &mut Heart<M>,
        work: Work,
        worker: &mut Worker<M>,
    ) -> Result<Did, FetchErr>
        requires named { work ≡ heart.old.work }
        requires known { worker.old.known ≡ heart.old.author.known }
        ensures collected { (role : RoleOf)
            → (role ≡ roles.All → AreReset M.past.image (logs_of worker.old.known))
            → HasCollected M.past.image M.handed role worker.old worker.new result }
        ensures made { (more : List Made) → worker.new.made ≡ worker.old.made ++ more
            → AreOfRole roles.Collector more }
        ensures copied { IfOk result (IsOfRole roles.Collector) }
        ensures named { work ≡ works.Copy → IfOk result (λ did. did ≢ dids.Other) }
        ensures some { (why : WhyOf) → result ≢ Ok (dids.Nothing why) }
        ensures knows { result ≡ Ok dids.Copied → worker.new.known ≡ heart.new.author.known }
    {
        match heart.next_copy(&self.shared.ring) {
            NextCopy::At(of) => self.copy_sector(rt, heart, worker, &of),
            NextCopy::Full => Ok(Did::NotCopied),
            NextCopy::Nothing => Ok(Did::Other),
        }
    }

    // Copies the sector that is to be copied next.
    fn collect_next<R: Wait>(
        &self,
        rt: &R,
        heart: &mut Heart<M>,
        worker: &mut Worker<M>,
    ) -> Result<Did, FetchErr>
        requires known { worker.old.known ≡ heart.old.author.known }
        ensures collected { HasCollected M.past.image M.handed roles.Collector worker.old
            worker.new result }
        ensures role { IfOk result (IsOfRole roles.Collector) }
        ensures knows { result ≡ Ok dids.Copied → worker.new.known ≡ heart.new.author.known }
    {
        let work = heart.next_work();
        self.copy(rt, heart, work, worker)
    }

    // Takes what is filled, and copies the sectors that are to be copied next, one after another.
    // Each copy takes what is filled then.
    fn collect_run<R: Wait>(
        &self,
        rt: &R,
        heart: &mut Heart<M>,
        worker: &mut Worker<M>,
    ) -> Result<Did, FetchErr>
        ensures collected { HasCollectedRun M.handed worker.old worker.new result }
    {
        heart.take_filled(&self.shared.chronicle, &self.shared.ring);
        self.tell(heart, worker);
        for copied in 0..RUN {
            match self.collect_next(rt, heart, worker)? {
                Did::Copied => {}
                _ if copied > 0 => return Ok(Did::Copied),
                did => return Ok(did),
            }
        }
        Ok(Did::Copied)
    }

    /// Copies the sectors that are to be copied next, one after another, in one hold of the
    /// engine's lock. It ends where no copy can be made, and after 16 copies. Before each it takes
    /// what is filled, and at the end, too. `Copied` comes exactly where it made a copy that it
    /// took. Else the answer is that of a pump in the role Collector.
    ///
    /// `Err` comes where the fetch of a sector's block failed or was stopped, and tells which. Then
    /// that sector is still to be copied. The copies before it were made.
    pub fn collect<R: Wait>(&self, rt: &R, worker: &mut Worker<M>) -> Result<Did, FetchErr>
        ensures collected { HasCollectedRun M.handed worker.old worker.new result }
    {
        let mut heart = self.hold(rt);
        let answer = self.collect_run(rt, &mut heart, worker);
        self.release(heart);
        answer
    }
}
