//! How an engine is worked off, before it is closed.
ghost use Rattle.std.specs.Prelude.{◌≡◌, ◌≢◌, ◌<◌, ◌≤◌, ◌⊎◌, [], Err, ℕ, length, true};
ghost use Rattle.pblk_world.specs.AtRest.{IsAtRest};
ghost use Rattle.chronicle.specs.Prefixes.{logs_of};
ghost use Rattle.pblk_core.specs.declared.work.Why.{Why as WhyOf};
ghost use Rattle.pblk_core.specs.declared.work.Why.TheVariants as whys;
ghost use Rattle.pblk_core.specs.declared.work.Work.{Work as WorkOf};
ghost use Rattle.pblk_core.specs.declared.work.Work.TheVariants as works;
ghost use Rattle.write_ring.specs.Handles.{AreAllClaims, pass_view};
ghost use Rattle.pblk_engine.specs.Alone.{CanBeDone, HasSettledAlone};
ghost use Rattle.pblk_engine.specs.Closed.{HasWorkedOff};
ghost use Rattle.pblk_engine.specs.Endings.{IsPassIn};
ghost use Rattle.pblk_engine.specs.Settlings.{HasSettled, HasWorked, IsWorkedOff, IsWornAt};
ghost use Rattle.pblk_engine.specs.Settlings.{TellsSettled};
ghost use Rattle.pblk_engine.specs.Hearts.{IsRingOf};
ghost use Rattle.pblk_world.specs.Fronts.{synced, taken};
ghost use Rattle.pblk_world.specs.Space.{is_due};
ghost use Rattle.numbered_locks.specs.Handles.{places};
ghost use Rattle.pblk_model.specs.Shape.{units as units_of};
ghost use Rattle.pblk_engine.specs.declared.winding_down.Look.TheVariants as looks;
ghost use Rattle.pblk_engine.specs.declared.winding_down.Settlement.TheVariants as settlements;

use crate::arm::Arm;
use crate::engine::Engine;
use crate::errors::SettleErr;
use crate::heart::Heart;
use crate::mount::Mount;
use crate::places::ArmPlaces;
use crate::shared::Shared;
use crate::steps::Steps;
use crate::waiting::is_stuck;
use crate::worker::Worker;
use chronicle::Chronicle;
use crossbeam_utils::Backoff;
use numbered_locks::NumberedLocks;
use pblk_core::Work;
use std::sync::ledger::{Blank, Ledger};
use std::sync::{Mutex, Wait};
use unit_port::Unit;
use write_ring::{Pass, Ring};

// How far an engine is that is to be worked off.
#[derive(Clone, Copy, Debug, PartialEq, Eq)]
enum Settlement {
    // All that was claimed is on the drive, and collection isn't due or the engine is at rest.
    Settled,
    // The engine is at rest, and positions from this one on aren't on the drive.
    Worn { have: u64 },
    // There is more to do, or something is in flight.
    Behind,
}

// What a look of a settling finds.
#[derive(Clone, Copy, Debug, PartialEq, Eq)]
enum Look {
    // All that was claimed is on the drive, and collection isn't due or the engine is at rest.
    Settled,
    // The engine is at rest, and the positions from `have` to `wanted` aren't on the drive.
    Worn { wanted: u64, have: u64 },
    // Nothing can be done yet, as where a stripe is under way: it is to look again.
    Waits,
    // This can be done.
    Work(Work),
}

impl<M: Mount> Heart<M> {
    // How far the engine is at a look that finds this work, where so much was claimed.
    fn settlement(&self, work: Work, claimed: u64) -> Settlement
        requires rest { (why : WhyOf) → work ≡ works.Nothing why → why ≢ whys.Busy
            → (asked : ℕ) → asked ≤ self.now.pad
            → IsAtRest M.past.image (logs_of self.now.author.known) asked
            (length (logs_of self.now.author.known 0)) }
        ensures settled { result ≡ settlements.Settled
            → IsWorkedOff M.past.image (logs_of self.now.author.known) claimed }
        ensures worn { (have : ℕ) → result ≡ settlements.Worn have
            → IsWornAt M.past.image (logs_of self.now.author.known) claimed have }
        ensures behind { result ≡ settlements.Behind
            → (claimed ≢ taken (logs_of self.now.author.known 0))
            ⊎ (synced M.past.image.shape (logs_of self.now.author.known 0) ≢ claimed)
            ⊎ (is_due M.past.image (logs_of self.now.author.known) ≡ true) }
    {
        if self.front().position != claimed {
            return Settlement::Behind;
        }
        let have = self.synced().position;
        if have == claimed {
            if !self.is_due() || is_stuck(work) {
                return Settlement::Settled;
            }
            return Settlement::Behind;
        }
        if have < claimed && claimed <= self.pad_target() && is_stuck(work) {
            return Settlement::Worn { have };
        }
        Settlement::Behind
    }
    // What a look finds, where so much was claimed.
    fn found(&self, claimed: u64) -> Look
        ensures settled { result ≡ looks.Settled
            → IsWorkedOff M.past.image (logs_of self.now.author.known) claimed }
        ensures worn { (wanted have : ℕ) → result ≡ looks.Worn wanted have → (wanted ≡ claimed)
            × IsWornAt M.past.image (logs_of self.now.author.known) claimed have }
        ensures work { (work : WorkOf) → result ≡ looks.Work work → (work ≡ self.now.work)
            × CanBeDone M.past.image self.now.author.known work }
    {
        let work = self.next_work();
        match self.settlement(work, claimed) {
            Settlement::Settled => Look::Settled,
            Settlement::Worn { have } => Look::Worn {
                wanted: claimed,
                have,
            },
            Settlement::Behind => match work {
                Work::Nothing(_) => Look::Waits,
                Work::Copy => {
                    if self.has_stripe_under_way() {
                        Look::Waits
                    } else {
                        Look::Work(work)
                    }
                }
                _ => Look::Work(work),
            },
        }
    }
}

impl<M: Mount, U: Unit> Shared<M, U> {
    // Takes all that was claimed, and asks for pads up to there, unless a sector is to be copied
    // first. Tells how far the engine is then, or what is to be done next.
    fn look_alone<R: Wait>(
        &self,
        rt: &R,
        heart: &mut Heart<M>,
        worker: &mut Worker<M>,
        pass: &mut Pass,
    ) -> Look
        requires pass_of { IsPassIn M.ring M.key pass.old }
        requires shares { (pass_view pass.old).pass.shares ≡ 127 }
        ensures pass_of { IsPassIn M.ring M.key pass.new }
        ensures same_pass { (pass_view pass.new).pass ≡ (pass_view pass.old).pass }
        ensures worked { HasWorked worker.old worker.new [] }
        ensures knows { worker.new.known ≡ heart.new.author.known }
        ensures claims { AreAllClaims M.key.first heart.new.intake.intake.taken
            (pass_view pass.old).pass heart.new.intake.pass }
        ensures log { AreAllClaims M.key.first heart.old.intake.intake.taken
            (pass_view pass.old).pass heart.old.intake.pass
            → logs_of heart.new.author.known 0 ≡ logs_of heart.old.author.known 0 }
        ensures settled { result ≡ looks.Settled → TellsSettled M.past.image M.key M.handed
            (pass_view pass.old).pass worker.new.known [] (Ok tt) }
        ensures worn { (wanted have : ℕ) → result ≡ looks.Worn wanted have
            → TellsSettled M.past.image M.key M.handed (pass_view pass.old).pass worker.new.known
            [] (Err (SettleErr.Worn wanted have)) }
        ensures work { (work : WorkOf) → result ≡ looks.Work work → (work ≡ heart.new.work)
            × CanBeDone M.past.image worker.new.known work }
    {
        heart.stands();
        let claimed = self.take_claimed(rt, heart, pass);
        self.tell(heart, worker);
        heart.stands();
        heart.ask_pad(worker, claimed);
        heart.found(claimed)
    }

    /// Works by a worker that has the heart to itself, until all that was claimed is on the drive,
    /// and collection isn't due or the engine is at rest. See [`Engine::settle`].
    pub(crate) fn settle<R: Wait, L: Ledger>(
        &self,
        rt: &R,
        heart: &mut Heart<M>,
        worker: &mut Worker<M>,
        pass: &mut Pass,
        steps: &mut Steps<L>,
    ) -> Result<(), SettleErr>
        requires pass_of { IsPassIn M.ring M.key pass.old }
        requires shares { (pass_view pass.old).pass.shares ≡ 127 }
        ensures pass_of { IsPassIn M.ring M.key pass.new }
        ensures same_pass { (pass_view pass.new).pass ≡ (pass_view pass.old).pass }
        ensures settled { HasSettled M.past.image M.key M.handed (pass_view pass.old).pass
            worker.old worker.new result }
        ensures ticks { HasSettledAlone M.past.image M.handed worker.old worker.new
            steps.old steps.new }
        ensures knows { worker.new.known ≡ heart.new.author.known }
        ensures claims { AreAllClaims M.key.first heart.new.intake.intake.taken
            (pass_view pass.old).pass heart.new.intake.pass }
    {
        let backoff = Backoff::new();
        for _ in rt.forever() {
            match self.look_alone(rt, heart, worker, pass) {
                Look::Settled => return Ok(()),
                Look::Worn { wanted, have } => return Err(SettleErr::Worn { wanted, have }),
                Look::Waits => backoff.snooze(),
                Look::Work(work) => {
                    steps.tick();
                    self.pump_alone(rt, heart, work, worker, pass)?;
                    backoff.reset();
                }
            }
        }
        unreachable!()
    }
}

// An engine that was taken apart.
pub(crate) struct Apart<M: Mount, U: Unit> {
    pub(crate) ring: Ring,
    pub(crate) chronicle: Chronicle,
    pub(crate) heart: Heart<M>,
    pub(crate) arms: NumberedLocks<Arm<M, U>, ArmPlaces<M, U>>,
}

impl<M: Mount, U: Unit> Engine<M, U> {
    /// Works until all that was claimed is on the drive, and collection isn't due or the engine is
    /// at rest, and gives the engine back. Nobody else goes on meanwhile. The pass has all shares
    /// of the ring but the intake's, so nobody else claims any more, and no lock is held. It asks
    /// for pads up to what is claimed, unless a sector is to be copied first.
    ///
    /// `Worn` comes instead where all that was claimed is taken and asked for, not all of it is on
    /// the drive, and there is nothing to do and nothing in flight: then the engine's log is at
    /// rest at the length that the worker knows. `Drive` names the command that was lost.
    ///
    /// It counts one step for each pump that it makes. Each pump does a piece of work, unless the
    /// ring has no room for a copy, or a command was lost: that pump is the last. It makes none at
    /// a look that finds nothing to do, or a copy while a stripe is under way: then it looks again.
    /// Before each look it waits until all that was claimed is filled.
    pub fn settle<R: Wait, L: Ledger>(
        self,
        rt: &R,
        worker: &mut Worker<M>,
        pass: &mut Pass,
        steps: &mut Steps<L>,
    ) -> (Engine<M, U>, Result<(), SettleErr>)
        requires pass_of { IsPassIn M.ring M.key pass.old }
        requires shares { (pass_view pass.old).pass.shares ≡ 127 }
        ensures pass_of { IsPassIn M.ring M.key pass.new }
        ensures same_pass { (pass_view pass.new).pass ≡ (pass_view pass.old).pass }
        ensures settled { HasSettled M.past.image M.key M.handed (pass_view pass.old).pass
            worker.old worker.new result.1 }
        ensures ticks { HasSettledAlone M.past.image M.handed worker.old worker.new
            steps.old steps.new }
    {
        let Engine {
            shared,
            heart,
            queue,
        } = self;
        let mut heart = heart.into_inner();
        let settled = shared.settle(rt, &mut heart, worker, pass, steps);
        let engine = Engine {
            shared,
            heart: Mutex::new(heart),
            queue,
        };
        (engine, settled)
    }

    // Settles it, and takes it apart.
    pub(crate) fn work_off<R: Wait, L: Ledger>(
        self,
        rt: &R,
        worker: &mut Worker<M>,
        pass: &mut Pass,
        blank: Blank,
    ) -> (Apart<M, U>, Result<(), SettleErr>)
        requires name { blank.name ≡ L.name }
        requires parts { blank.parts ≡ L.parts }
        requires some { 0 < L.parts }
        requires pass_of { IsPassIn M.ring M.key pass.old }
        requires shares { (pass_view pass.old).pass.shares ≡ 127 }
        ensures chronicle { result.0.chronicle ≡ M.chronicle }
        ensures ring { IsRingOf M.ring M.key result.0.ring }
        ensures places { places result.0.arms ≡ units_of M.past.image.shape }
        ensures pass_of { IsPassIn M.ring M.key pass.new }
        ensures same_pass { (pass_view pass.new).pass ≡ (pass_view pass.old).pass }
        ensures all { AreAllClaims M.key.first (taken (logs_of result.0.heart.author.known 0))
            (pass_view pass.old).pass result.0.heart.intake.pass }
        ensures worked { HasWorkedOff M.past.image M.handed worker.old worker.new
            (logs_of result.0.heart.author.known) result.1 }
        ensures ticks { (count : ℕ)
            × HasSettledAlone M.past.image M.handed worker.old worker.new 0 count }
        ensures knows { worker.new.known ≡ result.0.heart.author.known }
    {
        let Engine {
            shared,
            heart,
            queue: _,
        } = self;
        let mut heart = heart.into_inner();
        let mut steps = Steps::<L>::new(blank);
        let settled = shared.settle(rt, &mut heart, worker, pass, &mut steps);
        heart.stands();
        let Shared {
            ring,
            chronicle,
            arms,
        } = shared;
        let apart = Apart {
            ring,
            chronicle,
            heart,
            arms,
        };
        (apart, settled)
    }
}
