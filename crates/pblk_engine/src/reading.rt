//! Reads of sectors: most blocks are fetched under their unit's lock alone.
ghost use Rattle.std.specs.Prelude.{◌≡◌, ◌<◌, ◌≤◌, true, false, length, Ok, IsOk};
ghost use Rattle.chronicle.specs.Prefixes.{AreLegalLogs, ArePrefixes, Prefixes, logs_of};
ghost use Rattle.pblk_model.specs.Shape.{units};
ghost use Rattle.pblk_world.specs.Fronts.{taken};
ghost use Rattle.pblk_engine.specs.Reads.{AreLatest, HasFetchedPlace, HasFetchedRun, HasLooked};
ghost use Rattle.pblk_engine.specs.Reads.{HasRead, IsLatest, IsPlaceOf, IsRun, IsRunLook};

use crate::engine::Engine;
use crate::errors::DriveErr;
use crate::heart::Heart;
use crate::mount::Mount;
use crate::sector_looks::{RunLook, SectorPlace};
use crate::worker::Worker;
use crossbeam_utils::Backoff;
use pblk_model::Front;
use std::sync::Wait;
use unit_port::Unit;

impl<M: Mount, U: Unit> Engine<M, U> {
    // Looks at a run of sectors, unless not all that was seen is taken. Tells whether it did.
    fn try_look<R: Wait>(
        &self,
        rt: &R,
        worker: &mut Worker<M>,
        seen: u64,
        lba: u64,
        out: &mut [u8],
        look: &mut RunLook,
    ) -> bool
        requires run { IsRun M.past.image.shape lba (length out.old) }
        ensures looked { result ≡ true → HasLooked M.past worker.old worker.new seen lba out.new
            look.new }
        ensures same { result ≡ false → worker.new ≡ worker.old }
        ensures size { length out.new ≡ length out.old }
    {
        let mut heart = self.hold(rt);
        let beating = &mut *heart;
        beating.take_filled(&self.shared.chronicle, &self.shared.ring);
        if beating.front().position < seen {
            return false;
        }
        self.tell(beating, worker);
        beating.look_all(lba, out, look);
        true
    }

    // Looks at a run of sectors once all that was seen is taken.
    fn look<R: Wait>(
        &self,
        rt: &R,
        worker: &mut Worker<M>,
        seen: u64,
        lba: u64,
        out: &mut [u8],
        look: &mut RunLook,
    )
        requires run { IsRun M.past.image.shape lba (length out.old) }
        ensures looked { HasLooked M.past worker.old worker.new seen lba out.new look.new }
        ensures size { length out.new ≡ length out.old }
    {
        let backoff = Backoff::new();
        for _ in rt.forever() {
            if self.try_look(rt, worker, seen, lba, out, look) {
                return;
            }
            // an entry below is claimed and not filled yet
            backoff.snooze();
        }
        unreachable!()
    }

    // Fetches the block of a sector at its place, under the unit's lock alone. Tells whether it is
    // still the sector's block. If so, `out` has what the sector held when it was looked up.
    fn fetch_place<R: Wait>(
        &self,
        rt: &R,
        worker: &mut Worker<M>,
        place: SectorPlace,
        out: &mut [u8],
    ) -> Result<bool, DriveErr>
        requires size { length out.old ≡ M.past.image.shape.sector }
        requires unit { place.unit < units M.past.image.shape }
        requires line { place.sought.line < M.past.image.shape.chunks }
        requires block { place.sought.block < M.past.image.shape.clba }
        requires lba { place.sought.lba < M.past.image.shape.capacity }
        ensures fetched { HasFetchedPlace M.handed place worker.old worker.new result }
        ensures accepted { result ≡ Ok true → (looked : Prefixes)
            → AreLegalLogs M.past.image looked → ArePrefixes M.past.logs looked
            → ArePrefixes looked worker.old.known
            → IsPlaceOf M.past.image (logs_of looked) place.sought.lba place
            → IsLatest M.past.image (logs_of looked) place.sought.lba out.new }
        ensures size { length out.new ≡ length out.old }
    {
        let (held, mut arm) = self.shared.arms.lock(rt, place.unit);
        let fetched = arm.fetch_marked(&self.shared.chronicle, worker, place.sought, out);
        self.shared.arms.unlock(held, arm);
        match fetched {
            Ok(is_it) => Ok(is_it),
            Err(event) => Err(DriveErr {
                unit: place.unit,
                event,
            }),
        }
    }

    // Fetches the sectors of a run that are on the drive, by a look that the worker knows. Tells
    // whether each block was still that of its sector. If so, all sectors of `out` have what they
    // held at the look.
    fn fetch_run<R: Wait>(
        &self,
        rt: &R,
        worker: &mut Worker<M>,
        look: &RunLook,
        lba: u64,
        out: &mut [u8],
    ) -> Result<bool, DriveErr>
        requires looked { IsRunLook M.past.image (logs_of worker.old.known) lba out.old look.now }
        requires legal { AreLegalLogs M.past.image worker.old.known }
        requires begun { ArePrefixes M.past.logs worker.old.known }
        ensures fetched { HasFetchedRun M.past M.handed worker.old worker.new
            worker.old.known lba look.now (λ is_it. is_it ≡ true → AreLatest M.past.image
            (logs_of worker.old.known) look.now.size lba look.now.count out.new) result }
        ensures size { length out.new ≡ length out.old }
    {
        for index in 0..look.count {
            let Some(place) = look.places[index as usize] else {
                continue;
            };
            let at = index as usize * look.size;
            let part = &mut out[at..at + look.size];
            if !self.fetch_place(rt, worker, place, part)? {
                return Ok(false);
            }
        }
        Ok(true)
    }

    // Fetches the block of a sector at its place, under both locks, where the sector was looked up
    // in this hold of the engine's lock.
    fn fetch_held<R: Wait>(
        &self,
        rt: &R,
        heart: &mut Heart<M>,
        worker: &mut Worker<M>,
        place: SectorPlace,
        out: &mut [u8],
    ) -> Result<(), DriveErr>
        requires size { length out.old ≡ M.past.image.shape.sector }
        requires legal { AreLegalLogs M.past.image heart.old.author.known }
        requires place { IsPlaceOf M.past.image (logs_of heart.old.author.known) place.sought.lba
            place }
        ensures met { let old = heart.old in heart.new ≡ record old {
          author = record old.author { known = heart.new.author.known };
        } }
        ensures own { logs_of heart.new.author.known 0 ≡ logs_of heart.old.author.known 0 }
        ensures keeps { ArePrefixes heart.old.author.known heart.new.author.known }
        ensures legal { AreLegalLogs M.past.image heart.new.author.known }
        ensures fetched { HasFetchedPlace M.handed place worker.old worker.new result }
        ensures latest { IsOk result → IsLatest M.past.image (logs_of heart.old.author.known)
            place.sought.lba out.new }
        ensures size { length out.new ≡ length out.old }
    {
        let (held, mut arm) = self.shared.arms.lock(rt, place.unit);
        let fetched = heart.fetch_looked(&self.shared.chronicle, &mut arm, worker, place, out);
        self.shared.arms.unlock(held, arm);
        Ok(fetched?)
    }

    // Fetches the sectors of a run that are on the drive, where they were looked up in this hold of
    // the engine's lock.
    fn fetch_run_held<R: Wait>(
        &self,
        rt: &R,
        heart: &mut Heart<M>,
        worker: &mut Worker<M>,
        look: &RunLook,
        lba: u64,
        out: &mut [u8],
    ) -> Result<(), DriveErr>
        requires looked { IsRunLook M.past.image (logs_of heart.old.author.known) lba out.old
            look.now }
        requires legal { AreLegalLogs M.past.image heart.old.author.known }
        ensures fetched { HasFetchedRun M.past M.handed worker.old worker.new
            heart.old.author.known lba look.now (λ _. AreLatest M.past.image
            (logs_of heart.old.author.known) look.now.size lba look.now.count out.new) result }
        ensures size { length out.new ≡ length out.old }
    {
        for index in 0..look.count {
            let Some(place) = look.places[index as usize] else {
                continue;
            };
            let at = index as usize * look.size;
            let part = &mut out[at..at + look.size];
            self.fetch_held(rt, heart, worker, place, part)?;
        }
        Ok(())
    }

    // Looks at a run of sectors again, and fetches those that are on the drive in the same hold of
    // the engine's lock. Meanwhile no line is freed, so each block is the sector's.
    fn read_held<R: Wait>(
        &self,
        rt: &R,
        worker: &mut Worker<M>,
        seen: u64,
        lba: u64,
        out: &mut [u8],
    ) -> Result<Front, DriveErr>
        requires run { IsRun M.past.image.shape lba (length out.old) }
        requires seen { seen ≤ taken (logs_of worker.old.known 0) }
        ensures read { HasRead M.past M.handed worker.old worker.new seen lba out.new result }
        ensures size { length out.new ≡ length out.old }
    {
        let mut heart = self.hold(rt);
        let beating = &mut *heart;
        beating.take_filled(&self.shared.chronicle, &self.shared.ring);
        self.tell(beating, worker);
        let mut look = RunLook::empty();
        beating.look_all(lba, out, &mut look);
        self.fetch_run_held(rt, beating, worker, &look, lba, out)?;
        Ok(look.front)
    }

    /// Reads 1 to 16 sectors. It waits until all positions below `seen` are taken, and then looks
    /// at all sectors at one moment. It answers the front taken of that moment, and `out` has what
    /// the sectors held then.
    ///
    /// A block on the drive is fetched without the engine's lock, and its mark says whether it is
    /// still the sector's block. Where one isn't, all sectors are looked up again, and their blocks
    /// are fetched under the engine's lock. The answer tells of the second look then.
    ///
    /// `Err` comes where a fetch failed or was stopped. It names that event, and the block is one
    /// to which a look led for one of the sectors. Then `out` may have any bytes.
    pub fn read<R: Wait>(
        &self,
        rt: &R,
        worker: &mut Worker<M>,
        seen: u64,
        lba: u64,
        out: &mut [u8],
    ) -> Result<Front, DriveErr>
        requires run { IsRun M.past.image.shape lba (length out.old) }
        ensures read { HasRead M.past M.handed worker.old worker.new seen lba out.new result }
        ensures size { length out.new ≡ length out.old }
    {
        let mut look = RunLook::empty();
        self.look(rt, worker, seen, lba, out, &mut look);
        if self.fetch_run(rt, worker, &look, lba, out)? {
            return Ok(look.front);
        }
        self.read_held(rt, worker, seen, lba, out)
    }
}
