//! Copies of the sectors of the victim at work: which is the next, its block, and its claim.

ghost use Rattle.std.specs.Prelude.{◌≡◌, ◌≢◌, ◌⊎◌, ◌↔◌, ◌+◌, ◌-◌, ◌<◌, ◌≤◌, ◌^◌, ℕ, suc, true, false, length, min, None, Some, IsOk, IsSome, IsTrue};
ghost use Rattle.pblk_model.specs.ChunkStep.{Read};
ghost use Rattle.pblk_model.specs.Shape.{units};
ghost use Rattle.pblk_world.specs.AtRest.{IsCopyDue};
ghost use Rattle.chronicle.specs.Prefixes.{ArePrefixes, logs_of, longer_of};
ghost use Rattle.write_window.specs.Window.{IsHeld};
ghost use Rattle.pblk_core.specs.declared.work.Work.TheVariants as works;
ghost use Rattle.pblk_engine.specs.Arms.{number_told};
ghost use Rattle.pblk_engine.specs.Copying.{HasClaimed, IsBegunNow, IsFetched, WasRefused};
ghost use Rattle.pblk_engine.specs.Deeds.{HasDone};
ghost use Rattle.pblk_engine.specs.Fetches.{TellsFetch};
ghost use Rattle.pblk_engine.specs.Hearts.{IsRingOf};
ghost use Rattle.pblk_engine.specs.declared.copying.NextCopy.TheVariants as answer;

use crate::arm::Arm;
use crate::errors::FetchErr;
use crate::heart::Heart;
use crate::mount::Mount;
use crate::worker::Worker;
use chronicle::Chronicle;
use pblk_core::{CopyJob, Core};
use sector_pool::Source;
use unit_port::Unit;
use write_ring::Ring;

/// A sector that is to be copied, and where its block is: the unit, and the block in the unit's
/// chunk of the line.
#[derive(Clone, Copy, Debug, PartialEq, Eq)]
pub(crate) struct CopyPlace {
    pub(crate) job: CopyJob,
    pub(crate) unit: u32,
    pub(crate) block: u32,
}

/// What is to be copied next.
#[derive(Clone, Copy, Debug, PartialEq, Eq)]
pub(crate) enum NextCopy {
    /// This sector, and the ring has room for it.
    At(CopyPlace),
    /// A sector that the ring has no room for: its claim would be refused.
    Full,
    /// No copy may be begun.
    Nothing,
}

// Whether the window still holds the entry of which the next position would get the slot: the one
// so many positions before it.
fn is_slot_held(core: &Core, slots: u64, next: u64) -> bool
    ensures { IsTrue result ↔ ((slots ≤ next) × IsHeld core.now.window (next - slots)) }
{
    slots <= next && core.bytes(next - slots).is_some()
}

impl<M: Mount> Heart<M> {
    /// The sector that the core copies next, where the ring has room for one entry more.
    ///
    /// `Nothing` comes exactly where a copy is under way or none is due. `Full` comes exactly where
    /// `claimed`, as it is loaded now, is at the end of the ring's room. How far the search for the
    /// sector came is kept also then, so the next call needn't search again.
    pub(crate) fn next_copy(&mut self, ring: &Ring) -> NextCopy
        requires ring { IsRingOf M.ring M.key ring.now }
        ensures same { self.new ≡ record self.old {
          intake = record self.old.intake { found = self.new.intake.found };
          copy = self.new.copy;
        } }
        ensures named { (of : _) → result ≡ answer.At of → self.new.copy ≡ Some of }
        ensures unit { (of : _) → result ≡ answer.At of → of.unit < units M.past.image.shape }
        ensures due { result ≢ answer.Nothing → (self.old.copying ≡ false)
            × IsCopyDue M.past.image (logs_of self.old.author.known) }
        ensures nothing { result ≡ answer.Nothing → (self.old.copying ≡ true)
            ⊎ (¬ IsCopyDue M.past.image (logs_of self.old.author.known)) }
        ensures work { self.old.work ≡ works.Copy → result ≢ answer.Nothing }
        ensures room { (of : _) → result ≡ answer.At of → self.new.intake.found.claimed
            < min (self.old.intake.intake.freed + M.key.size) (2 ^ 62) }
        ensures full { result ≡ answer.Full → self.old.intake.intake.freed + M.key.size
            ≤ self.new.intake.found.claimed }
        ensures reached { result ≢ answer.Nothing
            → self.old.intake.intake.taken ≤ self.new.intake.found.claimed }
        ensures claimed_rises { self.old.intake.found.claimed ≤ self.new.intake.found.claimed }
        ensures begun { (of : _) → result ≡ answer.At of
            → IsBegunNow M.past.image (logs_of self.old.author.known) of.job }
    {
        let Some(job) = self.core.copy_ready() else {
            return NextCopy::Nothing;
        };
        self.core.copy_found(&job);
        let claimed = ring.reached(&mut self.intake);
        if is_slot_held(&self.core, self.slots, claimed) {
            return NextCopy::Full;
        }
        let (unit, block) = self.core.address(job.line, job.at);
        NextCopy::At(CopyPlace { job, unit, block })
    }

    /// Whether the ring has no room for one entry more: whether `claimed`, as it is loaded now, is
    /// at the end of the ring's room.
    pub(crate) fn is_full(&mut self, ring: &Ring) -> bool
        requires ring { IsRingOf M.ring M.key ring.now }
        ensures full { IsTrue result → self.old.intake.intake.freed + M.key.size
            ≤ self.new.intake.found.claimed }
        ensures same { self.new ≡ record self.old {
          intake = record self.old.intake { found = self.new.intake.found };
        } }
        ensures reached { self.old.intake.intake.taken ≤ self.new.intake.found.claimed }
        ensures claimed_rises { self.old.intake.found.claimed ≤ self.new.intake.found.claimed }
    {
        let claimed = ring.reached(&mut self.intake);
        is_slot_held(&self.core, self.slots, claimed)
    }

    /// Fetches the block of the sector that is copied next into the heart's buffer. It needs both
    /// locks: the heart and the arm take in what the other knows first. The heart knows all that
    /// the worker knows. `Err` comes where the fetch failed or was stopped, and tells which. The
    /// fetch is noted with its maker.
    pub(crate) fn fetch_copy<U: Unit>(
        &mut self,
        chronicle: &Chronicle,
        arm: &mut Arm<M, U>,
        worker: &mut Worker<M>,
        of: &CopyPlace,
    ) -> Result<(), FetchErr>
        requires of { chronicle.now ≡ M.chronicle }
        requires copy { self.old.copy ≡ Some of.now }
        requires unit { arm.old.number ≡ of.now.unit }
        requires told { ArePrefixes worker.old.known self.old.author.known }
        ensures met { let old = self.old in self.new ≡ record old {
          author = record old.author { known = longer_of old.author.known arm.old.known };
          sector = self.new.sector;
        } }
        ensures number { arm.new.number ≡ arm.old.number }
        ensures done { let before = longer_of arm.old.known self.new.author.known in
            let unit = arm.old.number in
            let event = number_told M.handed unit (length (logs_of before (suc unit))) in
            HasDone arm.old arm.new worker.old worker.new before of.now.job.line
            (Read of.now.block) (TellsFetch unit event result) }
        ensures fetched { IsOk result → IsFetched M.past.image (logs_of self.new.author.known)
            of.now self.new.sector }
        ensures keeps { ArePrefixes self.old.author.known self.new.author.known }
        ensures arm_keeps { ArePrefixes arm.old.known arm.new.known }
        ensures learns { ArePrefixes self.new.author.known arm.new.known }
    {
        let note = arm.note(chronicle);
        self.meet(chronicle, note);
        let note = self.note(chronicle);
        let sector = self.sector.as_mut_slice();
        arm.fetch_readable(chronicle, note, worker, of.job.line, of.block, sector)
    }

    /// Claims a position for the copy whose block is in the heart's buffer, and puts it there. It
    /// needs the engine's lock alone, which was held since `next_copy` named the copy. It answers
    /// that position. Then the copy is under way until its entry is taken. None comes where the
    /// claim was refused: another claim came between, or there was no room. Then nothing changes.
    pub(crate) fn put_copy(&mut self, ring: &Ring, of: &CopyPlace) -> Option<u64>
        requires ring { IsRingOf M.ring M.key ring.now }
        requires copy { self.old.copy ≡ Some of.now }
        requires reached { self.old.intake.intake.taken ≤ self.old.intake.found.claimed }
        requires fetched { IsFetched M.past.image (logs_of self.old.author.known) of.now
            self.old.sector }
        ensures same { self.new ≡ record self.old {
          intake = record self.old.intake {
            found = self.new.intake.found;
            pass = self.new.intake.pass;
          };
          work = self.new.work;
          copying = self.new.copying;
          copy = self.new.copy;
        } }
        ensures claimed { (at : ℕ) → result ≡ Some at
            → (is : HasClaimed of.now.job self.old.sector self.old.intake self.new.intake)
            × (is.first ≡ at) }
        ensures copying { IsSome result → self.new.copying ≡ true }
        ensures refused { result ≡ None → self.new ≡ record self.old {
          intake = record self.old.intake { found = self.new.intake.found };
        } }
        ensures claimed_rises { self.old.intake.found.claimed ≤ self.new.intake.found.claimed }
        ensures why { result ≡ None → WasRefused M.key self.old.intake self.new.intake }
    {
        let source = Source {
            line: of.job.line,
            at: of.job.at,
            position: of.job.position,
        };
        self.batch
            .fill(of.job.lba, Some(source), self.sector.as_slice());
        match ring.try_copy(&mut self.intake, &mut self.batch) {
            Ok(place) => {
                self.core.copy_claimed(&of.job);
                Some(place.first)
            }
            Err(_) => {
                self.batch.clear();
                None
            }
        }
    }
}
