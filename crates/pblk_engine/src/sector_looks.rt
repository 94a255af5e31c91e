//! Looks at a run of sectors, and fetches under both locks.
ghost use Rattle.std.specs.Prelude.{◌≡◌, ◌<◌, ◌≤◌, ◌*◌, ℕ, suc, length, slice_get, IsOk, Some};
ghost use Rattle.pblk_model.specs.Accepted.{IsAccepted};
ghost use Rattle.pblk_model.specs.ChunkStep.{Read};
ghost use Rattle.chronicle.specs.Prefixes.{AreLegalLogs, ArePrefixes, logs_of, longer_of};
ghost use Rattle.core_laws.specs.SlotOf.{slot_of};
ghost use Rattle.l2p_map.specs.declared.slot.Slot.TheVariants as slots;
ghost use Rattle.step_laws.specs.SlotBlocks.{IsBlockOfSlot};
ghost use Rattle.pblk_engine.specs.Arms.{number_told};
ghost use Rattle.pblk_engine.specs.Deeds.{HasDone};
ghost use Rattle.pblk_engine.specs.Fetches.{TellsFetch};
ghost use Rattle.pblk_engine.specs.Looks.{latest_by};
ghost use Rattle.pblk_engine.specs.Notes.{IsNoteOf};
ghost use Rattle.pblk_engine.specs.Reads.{IsLatest, IsLookedFor, IsPlaceOf, IsRun, IsRunLook};

use crate::arm::Arm;
use crate::errors::FetchErr;
use crate::fetching::Sought;
use crate::heart::Heart;
use crate::mount::Mount;
use crate::worker::Worker;
use chronicle::{Chronicle, Note};
use l2p_map::Slot;
use pblk_model::Front;
use unit_port::Unit;

/// Where a sector is on the drive: the unit, and what is sought there.
#[derive(Clone, Copy, Debug, PartialEq, Eq)]
pub(crate) struct SectorPlace {
    pub(crate) unit: u32,
    pub(crate) sought: Sought,
}

/// A look at a run of sectors at one moment.
#[derive(Clone, Copy, Debug, PartialEq, Eq)]
pub(crate) struct RunLook {
    /// The front taken.
    pub(crate) front: Front,
    /// How many bytes a sector has.
    pub(crate) size: usize,
    /// How many sectors the run has.
    pub(crate) count: u32,
    /// Of each sector that is on the drive, its place.
    pub(crate) places: [Option<SectorPlace>; 16],
}

impl RunLook {
    /// A look at nothing, for `look_all` to fill.
    pub(crate) fn empty() -> RunLook {
        RunLook {
            front: Front {
                position: 0,
                users: 0,
            },
            size: 0,
            count: 0,
            places: [None; 16],
        }
    }
}

// How many sectors of this size so many bytes are.
fn count_of(bytes: usize, size: usize) -> u32
    requires some { 1 ≤ size }
    requires run { (count : ℕ) × (count ≤ 16) × (bytes ≡ count * size) }
    ensures whole { bytes ≡ result * size }
    ensures few { result ≤ 16 }
{
    (bytes / size) as u32
}

impl<M: Mount> Heart<M> {
    // Looks where the latest content of a sector is. Where it is on the drive, the answer is its
    // place, and `out` is as it was. Else `out` has the content.
    fn look_sector(&self, lba: u64, out: &mut [u8]) -> Option<SectorPlace>
        requires lba { lba < M.past.image.shape.capacity }
        requires size { length out.old ≡ M.past.image.shape.sector }
        ensures looked { IsLookedFor M.past.image (logs_of self.now.author.known) lba result
            out.new }
        ensures size { length out.new ≡ length out.old }
    {
        match self.look(lba) {
            Slot::Unwritten => out.fill(0),
            Slot::Cached(position) => match self.bytes(position) {
                Some(sector) => out.copy_from_slice(sector),
                None => unreachable!(),
            },
            Slot::Media { line, at, position } => {
                let (unit, block) = self.place_of(line, at);
                return Some(SectorPlace {
                    unit,
                    sought: Sought {
                        line,
                        block,
                        lba,
                        position,
                    },
                });
            }
        }
        None
    }

    // How many bytes a sector has.
    fn sector_size(&self) -> usize
        ensures size { result ≡ M.past.image.shape.sector }
        ensures some { 1 ≤ result }
        ensures accepted { IsAccepted M.past.image.shape }
        ensures legal { AreLegalLogs M.past.image self.now.author.known }
        ensures begun { ArePrefixes M.past.logs self.now.author.known }
    {
        self.sector.len()
    }

    /// Looks at all sectors of a run. Those that aren't on the drive have their latest content in
    /// `out` then. The caller has the look already, so that none is copied in the hold of the lock.
    pub(crate) fn look_all(&self, lba: u64, out: &mut [u8], look: &mut RunLook)
        requires run { IsRun M.past.image.shape lba (length out.old) }
        ensures looked { IsRunLook M.past.image (logs_of self.now.author.known) lba out.new
            look.new }
        ensures legal { AreLegalLogs M.past.image self.now.author.known }
        ensures begun { ArePrefixes M.past.logs self.now.author.known }
        ensures size { length out.new ≡ length out.old }
    {
        let size = self.sector_size();
        let count = count_of(out.len(), size);
        for index in 0..count {
            let at = index as usize * size;
            let part = &mut out[at..at + size];
            look.places[index as usize] = self.look_sector(lba + u64::from(index), part);
        }
        look.front = self.front();
        look.size = size;
        look.count = count;
    }

    // A note of all that it knows. By that, a slot on the drive leads to a block that can be read.
    fn note_readable(&mut self, chronicle: &Chronicle) -> Note
        requires of { chronicle.now ≡ M.chronicle }
        ensures same { self.new ≡ self.old }
        ensures note { IsNoteOf M.chronicle M.past result }
        ensures known { result.known ≡ self.old.author.known }
        ensures on_drive { (lba line at position : ℕ) → lba < M.past.image.shape.capacity
            → slot_of M.past.image (logs_of result.known) lba ≡ slots.Media line at position
            → (is : IsBlockOfSlot M.past.image (logs_of result.known) lba line at position)
            × (slice_get (latest_by M.past.image (logs_of result.known)) lba
            ≡ Some is.block.sector) }
    {
        self.author.note(chronicle)
    }

    /// Fetches the block of a sector that was looked up in this hold of the engine's lock. It needs
    /// both locks: the heart takes in what the arm and the worker know first. `Ok` comes with the
    /// sector's latest content in `out`. `Err` comes where the fetch failed or was stopped, and
    /// tells which. The fetch is noted with its maker.
    pub(crate) fn fetch_looked<U: Unit>(
        &mut self,
        chronicle: &Chronicle,
        arm: &mut Arm<M, U>,
        worker: &mut Worker<M>,
        place: SectorPlace,
        out: &mut [u8],
    ) -> Result<(), FetchErr>
        requires of { chronicle.now ≡ M.chronicle }
        requires unit { arm.old.number ≡ place.unit }
        requires legal { AreLegalLogs M.past.image self.old.author.known }
        requires place { IsPlaceOf M.past.image (logs_of self.old.author.known) place.sought.lba
            place }
        requires size { length out.old ≡ M.past.image.shape.sector }
        ensures met { let old = self.old in self.new ≡ record old {
          author = record old.author { known = self.new.author.known };
        } }
        ensures own { logs_of self.new.author.known 0 ≡ logs_of self.old.author.known 0 }
        ensures keeps { ArePrefixes self.old.author.known self.new.author.known }
        ensures legal { AreLegalLogs M.past.image self.new.author.known }
        ensures number { arm.new.number ≡ arm.old.number }
        ensures done { let before = longer_of arm.old.known self.new.author.known in
            let unit = arm.old.number in
            let event = number_told M.handed unit (length (logs_of before (suc unit))) in
            HasDone arm.old arm.new worker.old worker.new before place.sought.line
            (Read place.sought.block) (TellsFetch unit event result) }
        ensures latest { IsOk result → IsLatest M.past.image (logs_of self.old.author.known)
            place.sought.lba out.new }
        ensures size { length out.new ≡ length out.old }
    {
        let told = worker.note(chronicle);
        self.meet(chronicle, told);
        let told = arm.note(chronicle);
        self.meet(chronicle, told);
        let note = self.note_readable(chronicle);
        arm.fetch_readable(
            chronicle,
            note,
            worker,
            place.sought.line,
            place.sought.block,
            out,
        )
    }
}
