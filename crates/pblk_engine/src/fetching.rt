//! Fetches of blocks, as an arm makes them.
ghost use Rattle.std.specs.Prelude.{◌≡◌, ◌<◌, ◌↔◌, ℕ, suc, true, length, slice_get, IsOk, IsTrue};
ghost use Rattle.std.specs.Prelude.{Ok, Some};
ghost use Rattle.pblk_model.specs.Chunk.{Chunk};
ghost use Rattle.pblk_model.specs.ChunkStep.{Read};
ghost use Rattle.pblk_model.specs.declared.chunk.ChunkState.TheVariants as states;
ghost use Rattle.chronicle.specs.Prefixes.{AreLegalLogs, ArePrefixes, Prefixes, logs_of, longer_of};
ghost use Rattle.step_laws.specs.LookedUp.{IsLookedUp};
ghost use Rattle.unit_port.specs.Unit.{Takes, TellsBlock};
ghost use Rattle.pblk_engine.specs.Arms.{number_told};
ghost use Rattle.pblk_engine.specs.Deeds.{HasDone};
ghost use Rattle.pblk_engine.specs.Fetches.{HasSought, IsReadableAt, TellsFetch, TellsMarked};
ghost use Rattle.pblk_engine.specs.Looks.{latest_by};
ghost use Rattle.pblk_engine.specs.Notes.{IsNoteOf};

use crate::arm::{Arm, note_command};
use crate::commands;
use crate::errors::FetchErr;
use crate::mount::Mount;
use crate::worker::Worker;
use chronicle::{Chronicle, Note};
use pblk_model::{ChunkState, Got, Mark};
use unit_port::{Unit, UnitErr};

/// What a look said of a sector that is on the drive: its block in the line's chunk, and the
/// position of the sector's latest entry.
#[derive(Clone, Copy, Debug, PartialEq, Eq)]
pub(crate) struct Sought {
    pub(crate) line: u32,
    pub(crate) block: u32,
    pub(crate) lba: u64,
    pub(crate) position: u64,
}

// Whether a mark names this sector, which is below the capacity, and bears this position.
fn is_of(mark: Mark, lba: u64, position: u64) -> bool
    ensures { IsTrue result ↔ ((mark.lba ≡ lba) × (mark.position ≡ position)) }
{
    mark.lba == lba && mark.position == position
}

impl<M: Mount, U: Unit> Arm<M, U> {
    // Whether the unit's chunk of a line is Offline.
    fn is_offline(&self, line: u32) -> bool
        requires line { line < M.past.image.shape.chunks }
        ensures { (c : Chunk) × (slice_get self.now.unit.media line ≡ Some c)
            × (IsTrue result ↔ (c.state ≡ states.Offline)) }
    {
        let (state, _) = self.unit.state(line);
        state == ChunkState::Offline
    }

    /// The number of the unit's last event in its log, from 1, or 2^64 - 1 where that is less.
    pub(crate) fn events(&self) -> u64
        ensures told { (number : ℕ)
            → suc number ≡ length (logs_of self.now.known (suc self.now.number))
            → result ≡ number_told M.handed self.now.number number }
    {
        self.unit.events()
    }

    /// Fetches the block to which a sector's slot led when the sector was looked up. It needs the
    /// unit's lock alone. Meanwhile the line may have been freed, reset and opened again, so the
    /// block's mark decides: the call answers whether it names the sector and bears the position.
    /// If so, `out` has what the sector held when it was looked up, by whatever logs this was that
    /// the worker knows. Else `out` may have any sector.
    ///
    /// The arm takes in what the worker knows first. From a chunk that is Offline nothing is
    /// fetched, and the answer is false. Each fetch is noted with its maker. `Err` comes where it
    /// failed or was stopped, with its number in the unit's log, from 1.
    pub(crate) fn fetch_marked(
        &mut self,
        chronicle: &Chronicle,
        worker: &mut Worker<M>,
        sought: Sought,
        out: &mut [u8],
    ) -> Result<bool, u64>
        requires of { chronicle.now ≡ M.chronicle }
        requires size { length out.old ≡ M.past.image.shape.sector }
        requires line { sought.line < M.past.image.shape.chunks }
        requires block { sought.block < M.past.image.shape.clba }
        requires lba { sought.lba < M.past.image.shape.capacity }
        ensures number { self.new.number ≡ self.old.number }
        ensures done { let before = longer_of self.old.known worker.old.known in
            let unit = self.old.number in
            let event = number_told M.handed unit (length (logs_of before (suc unit))) in
            HasSought self.old self.new worker.old worker.new before sought.line sought.block
            (TellsMarked M.past.image.shape sought.lba sought.position event out.new result)
            result }
        ensures accepted { result ≡ Ok true → (looked : Prefixes) (at : ℕ)
            → AreLegalLogs M.past.image looked → ArePrefixes M.past.logs looked
            → ArePrefixes looked worker.old.known
            → IsLookedUp M.past.image (logs_of looked) sought.lba sought.line at
            sought.position self.old.number sought.block
            → slice_get (latest_by M.past.image (logs_of looked)) sought.lba ≡ Some out.new }
        ensures size { length out.new ≡ length out.old }
        ensures keeps { ArePrefixes self.old.known self.new.known }
        ensures learns { ArePrefixes worker.old.known self.new.known }
        ensures worker_keeps { ArePrefixes worker.old.known worker.new.known }
    {
        let note = worker.note(chronicle);
        self.meet(chronicle, note);
        if self.is_offline(sought.line) {
            return Ok(false);
        }
        match self.fetch_block(chronicle, worker, sought.line, sought.block, out) {
            Ok(Got::Sector(mark)) => Ok(is_of(mark, sought.lba, sought.position)),
            Ok(Got::Empty) => Ok(false),
            Err(_) => Err(self.events()),
        }
    }

    /// Fetches a block that can be read. It needs both locks: the note is the engine's, which met
    /// the arm's note and the worker's before. `Ok` comes with the block's sector in `out`. `Err`
    /// comes where the fetch failed or was stopped, and tells which. It is noted with its maker.
    pub(crate) fn fetch_readable(
        &mut self,
        chronicle: &Chronicle,
        note: Note,
        worker: &mut Worker<M>,
        line: u32,
        block: u32,
        out: &mut [u8],
    ) -> Result<(), FetchErr>
        requires of { chronicle.now ≡ M.chronicle }
        requires note { IsNoteOf M.chronicle M.past note }
        requires told { ArePrefixes worker.old.known note.known }
        requires size { length out.old ≡ M.past.image.shape.sector }
        requires readable { IsReadableAt M.past.image
            (logs_of (longer_of self.old.known note.known)) self.old.number line block }
        ensures number { self.new.number ≡ self.old.number }
        ensures done { let before = longer_of self.old.known note.known in
            let unit = self.old.number in
            let event = number_told M.handed unit (length (logs_of before (suc unit))) in
            HasDone self.old self.new worker.old worker.new before line (Read block)
            (TellsFetch unit event result) }
        ensures sector { IsOk result → (there : IsReadableAt M.past.image
            (logs_of (longer_of self.old.known note.known)) self.old.number line block)
            → out.new ≡ there.block.sector }
        ensures size { length out.new ≡ length out.old }
        ensures keeps { ArePrefixes self.old.known self.new.known }
        ensures learns { ArePrefixes note.known self.new.known }
    {
        self.meet(chronicle, note);
        match self.fetch_block(chronicle, worker, line, block, out) {
            Ok(Got::Sector(_)) => Ok(()),
            Ok(Got::Empty) => unreachable!(),
            Err(cause) => Err(FetchErr {
                unit: self.number,
                event: self.events(),
                cause,
            }),
        }
    }

    // Has the unit fetch a block of a chunk, which it takes, and notes that with its maker.
    fn fetch_block(
        &mut self,
        chronicle: &Chronicle,
        worker: &mut Worker<M>,
        chunk: u32,
        block: u32,
        out: &mut [u8],
    ) -> Result<Got, UnitErr>
        requires of { chronicle.now ≡ M.chronicle }
        requires told { ArePrefixes worker.old.known self.old.known }
        requires size { length out.old ≡ M.past.image.shape.sector }
        requires taken { Takes self.old.unit chunk (Read block) }
        ensures number { self.new.number ≡ self.old.number }
        ensures done { HasDone self.old self.new worker.old worker.new self.old.known chunk
            (Read block) (TellsBlock out.old out.new result) }
        ensures keeps { ArePrefixes self.old.known self.new.known }
    {
        let got = commands::fetch(&mut self.unit, chunk, block, out);
        note_command(chronicle, &mut self.author, &self.unit, self.number, worker);
        got
    }
}
