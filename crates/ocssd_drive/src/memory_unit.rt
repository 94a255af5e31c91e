//! A parallel unit in memory.
ghost use Rattle.std.specs.Prelude.{◌≡◌, ◌*◌, ◌%◌, ◌/◌, ◌-◌, ◌^◌, ◌<◌, ◌+◌, ◌≤◌, ◌↔◌, IsTrue, IsNone, IfSome, length, min, replicate, slice_get, slice_set, IfOk, IsOk, Some, None, [], ◌≢◌, Err};
ghost use Rattle.pblk_model.specs.Accepted.{IsAccepted};
ghost use Rattle.pblk_model.specs.Blocks.{blocks_of};
ghost use Rattle.pblk_model.specs.Chunk.{IsChunk, PointerFits, free_chunk, pointer};
ghost use Rattle.pblk_model.specs.ChunkStep.{Write, Read, Reset};
ghost use Rattle.unit_port.specs.Armed.{IsUnarmed};
ghost use Rattle.unit_port.specs.Unit.{IsChunkOf, IsFitUnit, IsReady, Takes, TellsBlock, TellsDone, DidProgram, DidFetch, DidReset};
ghost use Rattle.ocssd_drive.specs.Outcomes.{GoesByArms};
ghost use Rattle.ocssd_drive.specs.Planned.{IsPlanned};
ghost use Rattle.ocssd_drive.specs.Units.{WornUnit, new_unit, with_arms, with_chunk, with_stored, worn_chunk, disarmed, IsChunkIn, IsUnitOf, IsWrite, TakesUnder, MeetsFault};
ghost use Rattle.ocssd_drive.specs.Shown.{outcome_of, fetch_outcome};
ghost use Rattle.ocssd_drive.specs.Journal.{FitsArming, IsCalm, SeatTells, word_of};
ghost use Rattle.ocssd_drive.specs.Faults.{fuse_is_at};
ghost use Rattle.ocssd_drive.specs.Tally.{IsTally};
ghost use Rattle.unit_port.specs.declared.armed.CommandKind.TheVariants as kinds;
ghost use Rattle.ocssd_drive.specs.Spelled.{RestoresUnit};

use crate::fault::Fault;
use crate::journal::{Arming, Journal};
use crate::shown::{Fetched, Landed, Programmed, WasReset};
use crate::stop_word::StopSeat;
use bytes::Bytes;
use ocssd_chunks::{Chunk, are_blocks, has_sectors};
use pblk_model::{ChunkState, Got, Mark, Shape};
use std::alloc::{AllocError, Global};
use std::fmt::{self, Debug, Formatter};
use std::marker::Model;
use unit_port::{CommandKind, FaultPlan, Fuse, Unit, UnitErr};

/// A parallel unit in memory: its chunks with their wear indices, its log, and what it is armed
/// with (Open-Channel SSD Specification 2.0, Parallel units, Chunk descriptor).
///
/// Where the unit isn't armed no command fails and none is stopped.
#[derive(Drop)]
pub struct MemoryUnit {
    shape: Shape,
    chunks: Vec<Chunk>,
    wear: Vec<u8>,
    journal: Journal,
}

// Contracts see the unit, the wear index of each chunk, and the unit's seat at the stop word.
impl Model for MemoryUnit {
    ghost use Rattle.ocssd_drive.specs.Units.{WornUnit};

    ghost Value = { WornUnit };

    ghost use Rattle.ocssd_drive.specs.UnitFields.{worn_unit, IsSound};

    ghost view = { worn_unit };

    ghost invariant = { IsSound };
}

// Its numbers, and how much it has done.
impl Debug for MemoryUnit {
    fn fmt<W: fmt::Write>(&self, f: &mut Formatter<W>) -> fmt::Result {
        f.debug_struct("MemoryUnit")
            .field("shape", &self.shape)
            .field("events", &self.journal.events())
            .finish_non_exhaustive()
    }
}

impl MemoryUnit {
    /// A unit of a drive of this shape: its chunks are Free and their wear indices 0, its log is
    /// empty, and it isn't armed.
    ///
    /// Takes memory for all blocks of all chunks, their marks and the logs' words, and fails only
    /// where there isn't as much.
    pub fn new(alloc: Global, shape: &Shape) -> Result<MemoryUnit, AllocError>
        requires { IsAccepted shape.now }
        ensures new { IfOk result (λ u. u ≡ new_unit shape.now) }
        ensures fits { IfOk result (IsUnitOf shape.now) }
    {
        let mut chunks = Vec::with_capacity(alloc, shape.chunks as usize)?;
        let mut wear = Vec::with_capacity(alloc, shape.chunks as usize)?;
        for _chunk in 0..shape.chunks {
            chunks.push(Chunk::new(alloc, shape)?)?;
            wear.push(0)?;
        }
        let journal = Journal::new(alloc)?;
        Ok(MemoryUnit {
            shape: *shape,
            chunks,
            wear,
            journal,
        })
    }

    /// The numbers of the unit's drive, which say how many chunks the unit has.
    pub fn shape(&self) -> Shape
        ensures shape { result ≡ self.now.unit.shape }
        ensures chunks { result.chunks ≡ length self.now.unit.media }
        ensures accepted { IsAccepted result }
        ensures fits { IsUnitOf result self.now }
    {
        self.shape
    }

    /// A chunk of the unit; there are as many as the shape says, numbered from 0.
    pub fn chunk(&self, chunk: u32) -> &Chunk
        requires { chunk < length self.now.unit.media }
        ensures chunk { IsChunkOf self.now.unit chunk result.now.chunk }
        ensures shape { result.now.shape ≡ self.now.unit.shape }
        ensures fits { IsFitUnit self.now.unit }
    {
        &self.chunks[chunk as usize]
    }

    /// The wear index of a chunk of the unit, from 0 to 255 (Open-Channel SSD Specification 2.0,
    /// Chunk descriptor).
    pub fn wear(&self, chunk: u32) -> u8
        requires { chunk < length self.now.unit.media }
        ensures { slice_get self.now.wear chunk ≡ Some result }
    {
        self.wear[chunk as usize]
    }

    /// Whether the unit may be given this program: it has the chunk, `bytes` has a sector for each
    /// of `marks`, and the chunk doesn't refuse the write.
    pub fn takes_program(&self, chunk: u32, at: u32, bytes: &[u8], marks: &[Mark]) -> bool
        ensures exact { let blocks = blocks_of self.now.unit.shape.sector bytes.now marks.now
            in IsTrue result ↔ ((length bytes.now ≡ length marks.now * self.now.unit.shape.sector)
            × IsReady self.now.unit chunk (Write at blocks)) }

        // What `program` asks for.
        ensures whole { IsTrue result
            → length bytes.now ≡ length marks.now * self.now.unit.shape.sector }
        ensures taken { let blocks = blocks_of self.now.unit.shape.sector bytes.now marks.now
            in IsTrue result → Takes self.now.unit chunk (Write at blocks) }
    {
        match self.find(chunk) {
            Some(found) => {
                has_sectors(&self.shape, bytes, marks)
                    && found.write_refusal(at, bytes, marks).is_none()
            }
            None => false,
        }
    }

    /// Whether the unit may be given this fetch: it has the chunk, `out` has the length of a
    /// sector, and the chunk, which isn't Offline, has the block.
    pub fn takes_fetch(&self, chunk: u32, block: u32, out: &[u8]) -> bool
        ensures exact { IsTrue result ↔ ((length out.now ≡ self.now.unit.shape.sector)
            × IsReady self.now.unit chunk (Read block)) }

        // What `fetch` asks for.
        ensures whole { IsTrue result → length out.now ≡ self.now.unit.shape.sector }
        ensures taken { IsTrue result → Takes self.now.unit chunk (Read block) }
    {
        match self.find(chunk) {
            Some(found) => {
                out.len() == self.shape.sector as usize && found.read_refusal(block).is_none()
            }
            None => false,
        }
    }

    /// Whether the unit may be given this reset: it has the chunk, which is neither Free nor
    /// Offline.
    pub fn takes_reset(&self, chunk: u32) -> bool
        ensures exact { IsTrue result ↔ IsReady self.now.unit chunk Reset }

        // What `reset` asks for.
        ensures taken { IsTrue result → Takes self.now.unit chunk Reset }
    {
        match self.find(chunk) {
            Some(found) => found.reset_refusal().is_none(),
            None => false,
        }
    }

    // The chunk of this number, if there is one.
    fn find(&self, chunk: u32) -> Option<&Chunk>
        ensures found { IfSome result (λ c. IsChunkOf self.now.unit chunk c.now.chunk
            × (c.now.shape ≡ self.now.unit.shape)) }
        ensures none { IsNone result → slice_get self.now.unit.media chunk ≡ None }
    {
        self.chunks.get(chunk as usize)
    }

    /// Gives a chunk of the unit this wear index, this state, and the blocks of these bytes and
    /// marks, in place of what it had. It isn't logged.
    ///
    /// `bytes` has a sector for each of `marks`, of which there are a multiple of WS_MIN: none for
    /// Free and Offline, from 1 to below CLBA for Open, up to CLBA for Closed.
    pub fn restore(&mut self, chunk: u32, wear: u8, state: ChunkState, bytes: &[u8], marks: &[Mark])
        requires chunk { chunk < length self.old.unit.media }
        requires whole { length bytes.now ≡ length marks.now * self.old.unit.shape.sector }
        requires place { PointerFits state self.old.unit.shape.clba (length marks.now) }
        requires multiple { length marks.now % self.old.unit.shape.ws_min ≡ 0 }
        ensures restored { let blocks = blocks_of self.old.unit.shape.sector bytes.now marks.now
            in self.new ≡ with_stored chunk (worn_chunk state blocks wear) self.old }
        ensures fits { IsUnitOf self.new.unit.shape self.new }
    {
        self.wear[chunk as usize] = wear;
        let found = &mut self.chunks[chunk as usize];
        found.restore(state, bytes, marks);
    }

    /// As `restore`, with `count` blocks that stay where they are: in these bytes each block is its
    /// sector and then its mark, two numbers of eight little-endian bytes. Nothing is copied, and
    /// the bytes live until the chunk is reset or given others.
    pub fn adopt(&mut self, chunk: u32, wear: u8, state: ChunkState, count: u32, kept: Bytes)
        requires chunk { chunk < length self.old.unit.media }
        requires whole { length kept ≡ count * (self.old.unit.shape.sector + 16) }
        requires place { PointerFits state self.old.unit.shape.clba count }
        requires multiple { count % self.old.unit.shape.ws_min ≡ 0 }
        ensures restored { RestoresUnit chunk wear state count kept self.old self.new }
        ensures fits { IsUnitOf self.new.unit.shape self.new }
    {
        let place = chunk as usize;
        self.wear[place] = wear;
        let found = &mut self.chunks[place];
        found.adopt(state, count, kept);
    }

    /// Puts a chunk of a drive of the unit's shape in the place of one of the unit's chunks, whose
    /// wear index stays. It isn't logged (Open-Channel SSD Specification 2.0, Chunk states and
    /// write pointer).
    pub fn replace_chunk(&mut self, chunk: u32, with: Chunk)
        requires chunk { chunk < length self.old.unit.media }
        requires with { IsChunkIn self.old.unit.shape with }
        ensures replaced { self.new ≡ with_chunk chunk with.chunk self.old }
        ensures fits { IsUnitOf self.new.unit.shape self.new }
    {
        self.chunks[chunk as usize] = with;
    }

    /// Arms the unit, which has this number in its drive, with what was made of these plans and
    /// this fuse.
    pub(crate) fn arm(&mut self, arming: Arming, unit: u32, plans: &[FaultPlan], fuse: Option<Fuse>)
        requires programs { IsTally plans.now unit kinds.Program 0 arming.programs }
        requires fetches { IsTally plans.now unit kinds.Fetch 0 arming.fetches }
        requires resets { IsTally plans.now unit kinds.Reset 0 arming.resets }
        requires stop { FitsArming unit fuse arming.stop }
        ensures { self.new ≡ with_arms (record {
          unit = unit;
          plans = plans.now;
          fuse = fuse;
          word = word_of arming.stop;
          since = length self.old.unit.log;
        }) arming.stop self.old }
    {
        self.journal.arm(arming, unit, plans, fuse);
    }

    /// Whether the fuse that the unit is armed with falls at its own commands.
    pub(crate) fn has_fuse(&self) -> bool
        ensures { result ≡ fuse_is_at self.now.unit.armed }
    {
        self.journal.has_fuse()
    }

    /// Takes plans and fuse away, and gives the seat at the stop word.
    pub(crate) fn disarm(&mut self) -> Option<StopSeat>
        ensures unit { self.new ≡ disarmed self.old }
        ensures by_arms { GoesByArms self.old }
        ensures seat { SeatTells self.old.unit.armed self.old.unit.log result }
    {
        self.journal.disarm()
    }
}

impl Unit for MemoryUnit {
    ghost model = { λ u. u.unit };

    ghost wear = { λ u. u.wear };

    fn program(&mut self, chunk: u32, at: u32, bytes: &[u8], marks: &[Mark]) -> Result<(), UnitErr>
        requires whole { length bytes.now ≡ length marks.now * self.old.unit.shape.sector }
        requires taken { let blocks = blocks_of self.old.unit.shape.sector bytes.now marks.now
            in Takes self.old.unit chunk (Write at blocks) }
        ensures planned { let blocks = blocks_of self.old.unit.shape.sector bytes.now marks.now
            in IsPlanned self.old chunk (Write at blocks) self.new }
        ensures calm { IsCalm self.new.unit.armed self.new.unit.log }

        // What each `Unit` ensures.
        ensures event { DidProgram self.old.unit chunk at bytes.now marks.now result self.new.unit }
        ensures fits { IsFitUnit self.new.unit }
        ensures wear { self.new.wear ≡ self.old.wear }
        ensures quiet { IsUnarmed self.old.unit.armed → IsOk result }
        ensures unfailing { self.old.unit.armed.plans ≡ [] → result ≢ Err UnitErr.Failed }
    {
        are_blocks(&self.shape, bytes, marks);
        let fault = self.journal.fault(CommandKind::Program);
        let found = &mut self.chunks[chunk as usize];
        let landed = write_chunk(found, fault, &self.shape, at, bytes, marks);
        let shown = Programmed {
            chunk,
            at,
            size: self.shape.sector,
            bytes,
            marks,
            landed,
        };
        self.journal.note(CommandKind::Program, fault, &shown);
        result_of(landed)
    }

    fn fetch(&mut self, chunk: u32, block: u32, out: &mut [u8]) -> Result<Got, UnitErr>
        requires whole { length out.old ≡ self.old.unit.shape.sector }
        requires taken { Takes self.old.unit chunk (Read block) }
        ensures planned { IsPlanned self.old chunk (Read block) self.new }
        ensures media { self.new.unit.media ≡ self.old.unit.media }
        ensures calm { IsCalm self.new.unit.armed self.new.unit.log }

        // What each `Unit` ensures.
        ensures event { DidFetch self.old.unit chunk block out.old out.new result self.new.unit }
        ensures fits { IsFitUnit self.new.unit }
        ensures wear { self.new.wear ≡ self.old.wear }
        ensures quiet { IsUnarmed self.old.unit.armed → IsOk result }
        ensures unfailing { self.old.unit.armed.plans ≡ [] → result ≢ Err UnitErr.Failed }
    {
        let fault = self.journal.fault(CommandKind::Fetch);
        let found = &self.chunks[chunk as usize];
        let got = read_chunk(found, fault, block, out);
        let shown = Fetched {
            chunk,
            block,
            out,
            got,
        };
        self.journal.note(CommandKind::Fetch, fault, &shown);
        got
    }

    fn reset(&mut self, chunk: u32) -> Result<(), UnitErr>
        requires { Takes self.old.unit chunk Reset }
        ensures planned { IsPlanned self.old chunk Reset self.new }
        ensures calm { IsCalm self.new.unit.armed self.new.unit.log }

        // What each `Unit` ensures.
        ensures event { DidReset self.old.unit chunk result self.new.unit }
        ensures fits { IsFitUnit self.new.unit }
        ensures wear { self.new.wear ≡ self.old.wear }
        ensures quiet { IsUnarmed self.old.unit.armed → IsOk result }
        ensures unfailing { self.old.unit.armed.plans ≡ [] → result ≢ Err UnitErr.Failed }
    {
        let fault = self.journal.fault(CommandKind::Reset);
        let found = &mut self.chunks[chunk as usize];
        let landed = reset_chunk(found, fault);
        let shown = WasReset { chunk, landed };
        self.journal.note(CommandKind::Reset, fault, &shown);
        result_of(landed)
    }

    fn state(&self, chunk: u32) -> (ChunkState, u32)
        requires { chunk < length self.now.unit.media }
        ensures { (found : _) × IsChunkOf self.now.unit chunk found × (result.0 ≡ found.state)
            × (result.1 ≡ pointer found) }
    {
        let found = &self.chunks[chunk as usize];
        found.state()
    }

    fn events(&self) -> u64
        ensures fits { IsFitUnit self.now.unit }

        // What each `Unit` ensures.
        ensures count { result ≡ min (length self.now.unit.log) (2 ^ 64 - 1) }
    {
        self.journal.events()
    }
}

// Programs a chunk as far as the fault lets it, and says how far.
fn write_chunk(
    chunk: &mut Chunk,
    fault: Fault,
    shape: &Shape,
    at: u32,
    bytes: &[u8],
    marks: &[Mark],
) -> Landed
    requires chunk { IsChunkIn shape.now chunk.old }
    requires whole { length bytes.now ≡ length marks.now * shape.now.sector }
    requires taken { let blocks = blocks_of shape.now.sector bytes.now marks.now
        in TakesUnder shape.now chunk.old.chunk (Write at blocks) fault }
    ensures { let blocks = blocks_of shape.now.sector bytes.now marks.now
        in MeetsFault shape.now chunk.old (Write at blocks) fault (outcome_of result) chunk.new }
{
    match fault {
        Fault::Nothing => {
            let Ok(()) = chunk.write(at, bytes, marks) else {
                unreachable!()
            };
            Landed::Done
        }
        Fault::Fails(cut) => {
            let landed = cut.min(multiples_of(shape, marks) - 1);
            chunk.fail_write(at, bytes, marks, landed);
            Landed::Failed(landed)
        }
        Fault::Stops(cut) => {
            let landed = cut.min(multiples_of(shape, marks));
            chunk.cut_write(at, bytes, marks, landed);
            Landed::Stopped(landed)
        }
        Fault::Stopped => Landed::Stopped(0),
    }
}

// How many multiples of WS_MIN a program has.
fn multiples_of(shape: &Shape, marks: &[Mark]) -> u32
    requires { IsWrite shape.now (length marks.now) }
    ensures some { 0 < result }
    ensures quotient { result ≡ length marks.now / shape.now.ws_min }
    ensures whole { result * shape.now.ws_min ≡ length marks.now }
{
    prove!(marks.len() <= shape.clba as usize);
    (marks.len() / shape.ws_min as usize) as u32
}

// Reads a block of a chunk, unless the fault keeps it from being read.
fn read_chunk(chunk: &Chunk, fault: Fault, block: u32, out: &mut [u8]) -> Result<Got, UnitErr>
    requires chunk { IsChunk chunk.now.shape chunk.now.chunk }
    requires whole { length out.old ≡ chunk.now.shape.sector }
    requires taken { TakesUnder chunk.now.shape chunk.now.chunk (Read block) fault }
    ensures met { MeetsFault chunk.now.shape chunk.now (Read block) fault
        (fetch_outcome out.new result) chunk.now }
    ensures tells { TellsBlock out.old out.new result (fetch_outcome out.new result) }
{
    match fault {
        Fault::Nothing => {
            let Ok(got) = chunk.read(block, out) else {
                unreachable!()
            };
            Ok(got)
        }
        Fault::Fails(_) => Err(UnitErr::Failed),
        Fault::Stops(_) | Fault::Stopped => Err(UnitErr::Stopped),
    }
}

// Resets a chunk as far as the fault lets it, and says how far.
fn reset_chunk(chunk: &mut Chunk, fault: Fault) -> Landed
    requires chunk { IsChunk chunk.old.shape chunk.old.chunk }
    requires taken { TakesUnder chunk.old.shape chunk.old.chunk Reset fault }
    ensures { MeetsFault chunk.old.shape chunk.old Reset fault (outcome_of result) chunk.new }
{
    match fault {
        Fault::Nothing => {
            let Ok(()) = chunk.reset() else {
                unreachable!()
            };
            Landed::Done
        }
        Fault::Fails(_) => {
            chunk.fail_reset();
            Landed::Failed(0)
        }
        Fault::Stops(cut) => {
            chunk.cut_reset(cut != 0);
            Landed::Stopped(cut)
        }
        Fault::Stopped => Landed::Stopped(0),
    }
}

// What a command answers that landed so far.
fn result_of(landed: Landed) -> Result<(), UnitErr>
    ensures { TellsDone result (outcome_of landed) }
{
    match landed {
        Landed::Done => Ok(()),
        Landed::Failed(_) => Err(UnitErr::Failed),
        Landed::Stopped(_) => Err(UnitErr::Stopped),
    }
}
