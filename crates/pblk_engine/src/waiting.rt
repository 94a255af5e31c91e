//! What a session waits for: that its entries are on the drive, and room to claim.
ghost use Rattle.std.specs.Prelude.{ℕ, ◌≡◌, ◌≢◌, ◌↔◌, ◌≤◌, ◌^◌, Err, IsTrue, max};
ghost use Rattle.chronicle.specs.Prefixes.{logs_of};
ghost use Rattle.pblk_core.specs.declared.work.Why.{Why as WhyOf};
ghost use Rattle.pblk_core.specs.declared.work.Why.TheVariants as whys;
ghost use Rattle.pblk_core.specs.declared.work.Work.TheVariants as works;
ghost use Rattle.pblk_world.specs.Fronts.{taken};
ghost use Rattle.write_ring.specs.Handles.{pass_view};
ghost use Rattle.pblk_engine.specs.Endings.{IsPassIn};
ghost use Rattle.pblk_engine.specs.Waits.{AsksUpTo, HasFlushed, HasRoomed};
ghost use Rattle.pblk_engine.specs.declared.taking.Filled.TheVariants as fills;

use crate::engine::Engine;
use crate::errors::SettleErr;
use crate::mount::Mount;
use crate::outcomes::{Flushed, Role, Roomed};
use crate::taking::Filled;
use crate::worker::Worker;
use pblk_core::{Why, Work};
use std::sync::Wait;
use unit_port::Unit;
use write_ring::Pass;

// Whether there is nothing to do, and nothing is in flight.
pub(crate) fn is_stuck(work: Work) -> bool
    ensures { IsTrue result ↔ ((why : WhyOf) × (work ≡ works.Nothing why) × (why ≢ whys.Busy)) }
{
    matches!(work, Work::Nothing(Why::NoLine | Why::Rest))
}

impl<M: Mount, U: Unit> Engine<M, U> {
    /// Looks once whether all positions below that one are on the drive. It asks for pads up to
    /// there, if all below was taken and no sector is to be copied.
    ///
    /// `Synced` comes exactly where they are, with the synced front. Else it does one piece of
    /// work, of any kind, and `Pumped` tells what that was; `Drive` names the command of it that
    /// was lost. `Worn` comes instead where all that was claimed is taken, the position is at most
    /// that and at most the pad target, and there is nothing to do and nothing in flight: then the
    /// engine's log is at rest at the length that the worker knows, and pads were asked for up to
    /// the position.
    pub fn flush<R: Wait>(
        &self,
        rt: &R,
        worker: &mut Worker<M>,
        position: u64,
    ) -> Result<Flushed, SettleErr>
        ensures flushed { HasFlushed M.past.image M.handed position worker.old worker.new result }
        ensures asked { AsksUpTo position worker.old worker.new }
        ensures worn_asked { (wanted have : ℕ) → result ≡ Err (SettleErr.Worn wanted have)
            → worker.new.asked ≡ max worker.old.asked position }
    {
        let mut heart = self.hold(rt);
        let beating = &mut *heart;
        let filled = beating.take_filled(&self.shared.chronicle, &self.shared.ring);
        self.tell(beating, worker);
        beating.ask_pad(worker, position);
        let synced = beating.synced();
        if position <= synced.position {
            return Ok(Flushed::Synced(synced));
        }
        let work = beating.next_work();
        let pads = beating.pad_target();
        if is_all_taken(filled, position) && position <= pads && is_stuck(work) {
            return Err(SettleErr::Worn {
                wanted: position,
                have: synced.position,
            });
        }
        let did = self.pump_held(rt, heart, work, worker, Role::All)?;
        Ok(Flushed::Pumped(did))
    }

    /// Looks once whether all positions below `wanted` are granted, for a command of so many
    /// sectors.
    ///
    /// `There` comes exactly where they are. Else it does one piece of work, of any kind, and
    /// `Pumped` tells what that was; `Drive` names the command of it that was lost. `Worn` comes
    /// instead where all that was claimed is taken, no more is wanted than the command's count
    /// beyond that, and there is nothing to do and nothing in flight: then the engine's log is at
    /// rest at the length that the worker knows.
    pub fn room<R: Wait>(
        &self,
        rt: &R,
        worker: &mut Worker<M>,
        wanted: u64,
        count: u32,
    ) -> Result<Roomed, SettleErr>
        ensures roomed { HasRoomed M.past.image M.handed wanted count worker.old worker.new
            result }
    {
        let mut heart = self.hold(rt);
        let beating = &mut *heart;
        let filled = beating.take_filled(&self.shared.chronicle, &self.shared.ring);
        self.tell(beating, worker);
        let granted = beating.granted(&self.shared.ring);
        if wanted <= granted {
            return Ok(Roomed::There);
        }
        let work = beating.next_work();
        if is_all_taken(filled, wanted.saturating_sub(u64::from(count))) && is_stuck(work) {
            return Err(SettleErr::Worn {
                wanted,
                have: granted,
            });
        }
        let did = self.pump_held(rt, heart, work, worker, Role::All)?;
        Ok(Roomed::Pumped(did))
    }

    /// How far positions are claimed, as loaded under the engine's lock for the pass too: all that
    /// the worker knows as taken was claimed by then. It does no work.
    pub fn claimed<R: Wait>(&self, rt: &R, worker: &mut Worker<M>, pass: &mut Pass) -> u64
        requires pass_of { IsPassIn M.ring M.key pass.old }
        ensures pass_of { IsPassIn M.ring M.key pass.new }
        ensures same_pass { (pass_view pass.new).pass ≡ (pass_view pass.old).pass }
        ensures found { (pass_view pass.new).found.claimed ≡ result }
        ensures rises { (pass_view pass.old).found.claimed ≤ result }
        ensures most { result ≤ 2 ^ 62 }
        ensures taken { taken (logs_of worker.old.known 0) ≤ result }
        ensures same_worker { worker.new ≡ worker.old }
    {
        let mut heart = self.hold(rt);
        let known = worker.note(&self.shared.chronicle);
        heart.meet(&self.shared.chronicle, known);
        heart.all_claimed(&self.shared.ring, pass)
    }
}

// Whether all that was claimed is taken, and that are at least so many positions.
fn is_all_taken(filled: Filled, least: u64) -> bool
    ensures { IsTrue result
        ↔ ((claimed : ℕ) × (filled ≡ fills.All claimed) × (least ≤ claimed)) }
{
    match filled {
        Filled::All { claimed } => least <= claimed,
        Filled::Gap { at: _ } => false,
    }
}
