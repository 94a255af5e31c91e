//! A sector of the victim at work is copied by a worker that has the heart to itself.
ghost use Rattle.std.specs.Prelude.{◌≡◌, ◌≢◌, ◌⊎◌, ◌+◌, ◌≤◌, ℕ, IfOk, None, Ok, Some, length};
ghost use Rattle.chronicle.specs.Prefixes.{ArePrefixes, logs_of};
ghost use Rattle.pblk_core.specs.declared.work.Work.TheVariants as works;
ghost use Rattle.pblk_world.specs.Orders.{AreReset};
ghost use Rattle.write_ring.specs.Handles.{AreAllClaims, pass_view};
ghost use Rattle.pblk_engine.specs.Alone.{IsCopyAlone, TakesOneCopy, at_look};
ghost use Rattle.pblk_engine.specs.Copying.{HasPutAt, IsFetched};
ghost use Rattle.pblk_engine.specs.Endings.{IsPassIn};
ghost use Rattle.pblk_engine.specs.Pumps.{HasCollected};
ghost use Rattle.pblk_engine.specs.Takes.{TakesClaims};
ghost use Rattle.pblk_engine.specs.declared.outcomes.Did.TheVariants as dids;
ghost use Rattle.pblk_engine.specs.declared.outcomes.Role.TheVariants as roles;

use crate::copying::{CopyPlace, NextCopy};
use crate::errors::FetchErr;
use crate::heart::Heart;
use crate::mount::Mount;
use crate::outcomes::Did;
use crate::shared::Shared;
use crate::worker::Worker;
use std::sync::Wait;
use unit_port::Unit;
use write_ring::Pass;

impl<M: Mount, U: Unit> Shared<M, U> {
    /// Takes all that was claimed, and waits for what isn't filled yet. The pass has all shares of
    /// the ring but the intake's. So nobody else claims, and what was taken then was all claimed
    /// by the two.
    pub(crate) fn take_claimed<R: Wait>(&self, rt: &R, heart: &mut Heart<M>, pass: &mut Pass) -> u64
        requires pass_of { IsPassIn M.ring M.key pass.old }
        requires shares { (pass_view pass.old).pass.shares ≡ 127 }
        ensures pass_of { IsPassIn M.ring M.key pass.new }
        ensures same_pass { (pass_view pass.new).pass ≡ (pass_view pass.old).pass }
        ensures front { result ≡ heart.new.intake.intake.taken }
        ensures all { AreAllClaims M.key.first heart.new.intake.intake.taken
            (pass_view pass.old).pass heart.new.intake.pass }
        ensures takes { TakesClaims heart.old heart.new }
    {
        for _ in rt.forever() {
            heart.take_filled(&self.chronicle, &self.ring);
            let claimed = heart.all_claimed(&self.ring, pass);
            if heart.front().position == claimed {
                return claimed;
            }
        }
        unreachable!()
    }

    // Puts the copy of a sector into the ring, whose block is in the heart's buffer. None comes
    // where the ring has no room for it. A try that another claim came between is made again.
    fn put_alone<R: Wait>(&self, rt: &R, heart: &mut Heart<M>, of: &CopyPlace) -> Option<u64>
        requires copy { heart.old.copy ≡ Some of.now }
        requires reached { heart.old.intake.intake.taken ≤ heart.old.intake.found.claimed }
        requires fetched { IsFetched M.past.image (logs_of heart.old.author.known) of.now
            heart.old.sector }
        ensures author { heart.new.author ≡ heart.old.author }
        ensures same_desk { heart.new.intake.intake ≡ heart.old.intake.intake }
        ensures claimed { (at : ℕ) → result ≡ Some at
            → HasPutAt of.now.job at heart.old.sector heart.old.intake heart.new.intake }
        ensures full { result ≡ None
            → heart.old.intake.intake.freed + M.key.size ≤ heart.new.intake.found.claimed }
        ensures same_pass { result ≡ None → heart.new.intake.pass ≡ heart.old.intake.pass }
    {
        for _ in rt.forever() {
            if let Some(at) = heart.put_copy(&self.ring, of) {
                return Some(at);
            }
            if heart.is_full(&self.ring) {
                return None;
            }
        }
        unreachable!()
    }

    /// Copies the sector that the core names next, which is the only work that there is. `Copied`
    /// comes where the copy was taken. It is the one entry that was taken. `NotCopied` comes
    /// where the ring has no room for it: then nothing was taken.
    ///
    /// `Err` comes where the fetch of its block failed or was stopped.
    pub(crate) fn copy_alone<R: Wait>(
        &self,
        rt: &R,
        heart: &mut Heart<M>,
        worker: &mut Worker<M>,
        pass: &mut Pass,
    ) -> Result<Did, FetchErr>
        requires pass_of { IsPassIn M.ring M.key pass.old }
        requires shares { (pass_view pass.old).pass.shares ≡ 127 }
        requires named { heart.old.work ≡ works.Copy }
        requires known { worker.old.known ≡ heart.old.author.known }
        requires claims { AreAllClaims M.key.first heart.old.intake.intake.taken
            (pass_view pass.old).pass heart.old.intake.pass }
        requires reset { AreReset M.past.image (logs_of worker.old.known) }
        requires alone { IsCopyAlone M.past.image (at_look heart.old.author.known) }
        ensures pass_of { IsPassIn M.ring M.key pass.new }
        ensures same_pass { (pass_view pass.new).pass ≡ (pass_view pass.old).pass }
        ensures collected { HasCollected M.past.image M.handed roles.All worker.old worker.new
            result }
        ensures copied { IfOk result (λ did. (did ≡ dids.Copied) ⊎ (did ≡ dids.NotCopied)) }
        ensures keeps { ArePrefixes heart.old.author.known heart.new.author.known }
        ensures claims { AreAllClaims M.key.first heart.new.intake.intake.taken
            (pass_view pass.old).pass heart.new.intake.pass }
        ensures one { result ≡ Ok dids.Copied → TakesOneCopy M.past.image
            (length (logs_of heart.old.author.known 0)) (logs_of heart.new.author.known) }
        ensures none { result ≢ Ok dids.Copied
            → heart.new.intake.intake.taken ≡ heart.old.intake.intake.taken }
        ensures full { result ≡ Ok dids.NotCopied
            → heart.old.intake.intake.freed + M.key.size ≤ heart.old.intake.intake.taken }
    {
        heart.stands();
        let NextCopy::At(of) = heart.next_copy(&self.ring) else {
            self.take_claimed(rt, heart, pass);
            return Ok(Did::NotCopied);
        };
        self.fetch_copy(rt, heart, worker, &of)?;
        let put = self.put_alone(rt, heart, &of);
        self.take_claimed(rt, heart, pass);
        self.tell(heart, worker);
        heart.stands();
        match put {
            Some(_) => Ok(Did::Copied),
            None => Ok(Did::NotCopied),
        }
    }
}
