//! How an engine ends: its ring, its chronicle, its heart and its arms.

ghost use Rattle.std.specs.Prelude.{◌≡◌, ◌<◌, ◌≤◌, ◌+◌, ◌++◌, ◌^◌, [], ◌∷◌, ℕ, length, map, Some, vec_capacity};
ghost use Rattle.pblk_model.specs.Frames.{count_out};
ghost use Rattle.pblk_model.specs.Shape.{units as units_of};
ghost use Rattle.pblk_world.specs.AtRest.{AreResetsNoted};
ghost use Rattle.chronicle.specs.Handles.{note_of};
ghost use Rattle.chronicle.specs.Prefixes.{AreLegalLogs, ArePrefixes, logs_of};
ghost use Rattle.write_ring.specs.Handles.{AreAllClaims, IsPassOf, IsSamePart, pass_view};
ghost use Rattle.pblk_world.specs.Fronts.{taken};
ghost use Rattle.pblk_engine.specs.Closed.{HasClosed};
ghost use Rattle.pblk_engine.specs.Endings.{AreArmsInOrder, IsHeartEnd, HasEndedOf, HasJoined, HasTakenOver, IsPassIn};
ghost use Rattle.pblk_engine.specs.Hearts.{IsEngine, IsRingOf};
ghost use Rattle.pblk_engine.specs.Mounts.{IsMounted};
ghost use Rattle.pblk_engine.specs.Notes.{IsNoteOf};

use crate::arm::Arm;
use crate::engine::Engine;
use crate::errors::SettleErr;
use crate::heart::Heart;
use crate::mount::Mount;
use crate::winding_down::Apart;
use crate::worker::Worker;
use chronicle::{Author, Chronicle, Token};
use pblk_core::Core;
use sector_pool::Pool;
use std::marker::Brand;
use std::sync::Wait;
use std::sync::ledger::Blank;
use unit_port::Unit;
use write_ring::{Batch, Intake, Pass, Ring};

impl<M: Mount> Heart<M> {
    /// Ends the heart. The author, the intake, the core and the batch are as they were.
    pub(crate) fn end(self) -> (Core, Author, Intake, Batch)
        ensures { IsHeartEnd M.chronicle M.ring M.past M.key self result.0 result.1
            result.2.seat.table_id result.2.seat.me.0 result.3 }
    {
        let Heart {
            core,
            author,
            intake,
            batch,
            sector: _,
            slots: _,
            asked: _,
            of: _,
        } = self;
        (core, author.end(), intake, batch)
    }

    /// Loads `claimed` once, for the heart and the pass together: all that the heart has taken was
    /// claimed. Where the pass has all shares of the ring but the intake's, what users claimed, the
    /// pass claimed. Where the answer is how far the heart has taken, no entry is left to be taken
    /// then, and only the two can claim more.
    pub(crate) fn all_claimed(&mut self, ring: &Ring, pass: &mut Pass) -> u64
        requires ring { IsRingOf M.ring M.key ring.now }
        requires pass_ring { IsPassOf ring.now pass.old }
        ensures all { (pass_view pass.old).pass.shares ≡ 127 → AreAllClaims M.key.first result
            (pass_view pass.new).pass self.new.intake.pass }
        ensures taken { self.old.intake.intake.taken ≤ result }
        ensures log { taken (logs_of self.old.author.known 0) ≤ result }
        ensures found { (pass_view pass.new).found.claimed ≡ result }
        ensures rises { (pass_view pass.old).found.claimed ≤ result }
        ensures heart_found { self.new.intake.found.claimed ≡ result }
        ensures heart_rises { self.old.intake.found.claimed ≤ result }
        ensures most { result ≤ 2 ^ 62 }
        ensures same { self.new ≡ record self.old { intake = self.new.intake } }
        ensures same_desk { self.new.intake.intake ≡ self.old.intake.intake }
        ensures same_copies { IsSamePart self.old.intake.pass self.new.intake.pass }
        ensures pass_ring { IsPassOf ring.now pass.new }
        ensures same_pass { (pass_view pass.new).pass ≡ (pass_view pass.old).pass }
    {
        ring.all_claimed(&mut self.intake, pass)
    }
}

// The engine's author learns what the workers know, and takes over the right to number their
// commands, and that to name workers.
fn take_over<M: Mount>(
    chronicle: &Chronicle,
    author: &mut Author,
    workers: Vec<Worker<M>>,
    names: Token,
)
    requires of { chronicle.now ≡ M.chronicle }
    requires author_of { author.old.chronicle ≡ M.chronicle }
    requires past { author.old.past ≡ M.past }
    requires engine { IsEngine author.old }
    requires legal { AreLegalLogs M.past.image author.old.known }
    requires begun { ArePrefixes M.past.logs author.old.known }
    requires noted { AreResetsNoted (logs_of author.old.known) }
    requires names { IsNoteOf M.chronicle M.past (note_of names) }
    ensures taken_over { HasTakenOver M.past author.old workers.items author.new }
    ensures spare { (n : ℕ) → names.spare ≡ Some n → author.new.spare ≡ Some n }
{
    for worker in workers {
        let (mut token, _, _) = worker.end();
        let lent = token.lend(chronicle);
        author.take_over(chronicle, lent);
    }
    let mut names = names;
    let lent = names.lend(chronicle);
    author.take_over(chronicle, lent);
}

// The engine's author joins those of all arms. Their units go into the vector, which has room for
// them.
fn join_arms<M: Mount, U: Unit>(
    chronicle: &Chronicle,
    author: &mut Author,
    arms: Vec<Arm<M, U>>,
    units: &mut Vec<U>,
)
    requires of { chronicle.now ≡ M.chronicle }
    requires author_of { author.old.chronicle ≡ M.chronicle }
    requires past { author.old.past ≡ M.past }
    requires engine { IsEngine author.old }
    requires legal { AreLegalLogs M.past.image author.old.known }
    requires begun { ArePrefixes M.past.logs author.old.known }
    requires noted { AreResetsNoted (logs_of author.old.known) }
    requires arms { AreArmsInOrder arms.items }
    requires empty { units.old.items ≡ [] }
    requires room { length arms.items ≤ vec_capacity units.old }
    ensures { HasJoined M.chronicle M.past M.handed M.wear author.old arms.items author.new
        (map U.model units.new.items) (map U.wear units.new.items) }
{
    let mut arms = arms;
    arms.reverse();
    while let Some(arm) = arms.pop() {
        let (unit, other) = arm.end();
        author.join(chronicle, other);
        put(units, unit);
    }
    arms.destroy_empty();
}

// Puts a unit behind the others.
fn put<U>(units: &mut Vec<U>, unit: U)
    requires room { length units.old.items < vec_capacity units.old }
    ensures items { units.new.items ≡ units.old.items ++ unit ∷ [] }
    ensures capacity { vec_capacity units.old ≤ vec_capacity units.new }
{
    units.push(unit).unwrap();
}

/// Ends the engine of a mount. The pass has all shares of the ring but the intake's. All frames of
/// the pool that are out are the ring's and the heart's. The units are put into `units`, which has
/// room for them and is empty, in the order of their numbers.
pub(crate) fn close<M: Mount, U: Unit>(
    ring: Ring,
    chronicle: Chronicle,
    heart: Heart<M>,
    arms: Vec<Arm<M, U>>,
    workers: Vec<Worker<M>>,
    names: Token,
    pass: Pass,
    pool: Pool,
    units: Vec<U>,
) -> Vec<U>
    requires mounted { IsMounted M.past M.key M.handed M.wear }
    requires of { chronicle ≡ M.chronicle }
    requires ring { IsRingOf M.ring M.key ring }
    requires arms { AreArmsInOrder arms.items }
    requires count { length arms.items ≡ units_of M.past.image.shape }
    requires names { IsNoteOf M.chronicle M.past (note_of names) }
    requires pass_ring { IsPassOf ring pass }
    requires shares { (pass_view pass).pass.shares ≡ 127 }
    requires region { pool.region ≡ M.key.origin.region }
    requires out { count_out pool.left ≡ M.key.size + 1 }
    requires empty { units.items ≡ [] }
    requires room { length arms.items ≤ vec_capacity units }
    requires all { AreAllClaims M.key.first (taken (logs_of heart.author.known 0))
        (pass_view pass).pass heart.intake.pass }
    ensures { HasEndedOf heart M.past M.key M.handed M.wear workers.items names.spare
        (pass_view pass).pass (map U.model result.items) (map U.wear result.items) }
{
    let (core, mut author, intake, batch) = heart.end();
    take_over(&chronicle, &mut author, workers, names);
    let mut units = units;
    join_arms(&chronicle, &mut author, arms, &mut units);
    chronicle.close(author);
    let mut pool = pool;
    ring.close(intake, pass, &mut pool);
    core.close(&mut pool);
    batch.close(&mut pool);
    end_pool(pool);
    units
}

// Ends a pool that has all its frames back.
fn end_pool(pool: Pool)
    requires { count_out pool.left ≡ 0 }
{
    match pool.close() {
        Ok(()) => (),
        Err(_pool) => unreachable!(),
    }
}

impl<M: Mount, U: Unit> Engine<M, U> {
    /// Works the engine off by the first worker, as `settle` does, and ends it. Nobody else goes on
    /// meanwhile, and nobody does after that. So at its end all that was claimed is on the drive,
    /// and collection isn't due or the engine is at rest, or the answer tells why not. `Worn` comes
    /// where the engine is at rest and can't bring all of it to the drive. `Drive` names the
    /// command that the first worker lost. The pumps that it makes are as those of `settle`, and
    /// the engine's log ends as they left it.
    ///
    /// The workers, with the first one, are all that the mount had but those that made no command,
    /// and `names` is the token that named them. The workers' vector has room for one more. The
    /// pass has all shares of the ring but the intake's. All frames of the pool that are out are
    /// the ring's and the engine's. The units are put into `units`, which has room for them and is
    /// empty, in the order of their numbers.
    ///
    /// No lock is held then, since each guard borrows the engine.
    pub fn close<R: Wait>(
        self,
        rt: &R,
        first: Worker<M>,
        workers: Vec<Worker<M>>,
        names: Token,
        pass: Pass,
        pool: Pool,
        units: Vec<U>,
    ) -> (Vec<U>, Result<(), SettleErr>)
        requires mounted { IsMounted M.past M.key M.handed M.wear }
        requires names { IsNoteOf M.chronicle M.past (note_of names) }
        requires pass_of { IsPassIn M.ring M.key pass }
        requires shares { (pass_view pass).pass.shares ≡ 127 }
        requires region { pool.region ≡ M.key.origin.region }
        requires out { count_out pool.left ≡ M.key.size + 1 }
        requires empty { units.items ≡ [] }
        requires room { units_of M.past.image.shape ≤ vec_capacity units }
        requires workers_room { length workers.items < vec_capacity workers }
        ensures { HasClosed M.past M.key M.handed M.wear first workers.items names.spare
            (pass_view pass).pass result.1
            (map U.model result.0.items) (map U.wear result.0.items) }
    {
        let mut first = first;
        let mut pass = pass;
        let (apart, settled) = self.work_off::<R, Brand>(rt, &mut first, &mut pass, Blank::new(1));
        let Apart {
            ring,
            chronicle,
            heart,
            arms,
        } = apart;
        let mut workers = workers;
        put(&mut workers, first);
        let arms = arms.close(rt);
        let units = close(
            ring, chronicle, heart, arms, workers, names, pass, pool, units,
        );
        (units, settled)
    }
}
