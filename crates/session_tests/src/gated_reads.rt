//! A fetch is held while another sector of its read is written again, and the old line is freed.
ghost use Rattle.std.specs.Prelude.{◌≡◌, ◌<◌, ◌≤◌, ◌++◌, ◌∷◌, [], length, map, IfOk, IfSome};
ghost use Rattle.ocssd_drive.specs.Drive.{shape_of};
ghost use Rattle.pblk_model.specs.Shape.{units as units_of};

use crate::deeds::{MOST, SECTOR, fill, words_of};
use crate::drives::{MORE_CHUNKS, blank};
use crate::gate::{Gate, GatedUnit, Part};
use block_target::{Front, Port, Session};
use ocssd_drive::{Drive, MemoryUnit};
use pblk_engine::Mount;
use pblk_model::{ChunkState, Shape};
use std::alloc::{AllocError, Global};
use std::sync::Wait;
use std::sync::atomic::{AtomicBool, Ordering};
use std::test::Fail;
use std::thread::{self, Threads};
use target_crew::{Work, armed, serve};
use unit_port::{CommandKind, FaultPlan, Unit};

// On the drive all lines but the first have one unit. The first has both, and is filled with
// sectors 0 to 39: 7 is on the first unit, and 8 on the other. Then 8 is written again, with
// others, to the second line.
const READ: u64 = 7;

const AGAIN: u64 = 8;

// How often the others are written again at most.
const MOST_TURNS: u64 = 1000;

// What a session is to do.
#[derive(Clone, Copy)]
enum Task {
    // Fills the first line and the second one, and reads.
    Read,
    // Once the read is held, writes until the second line was used again, or was to be reset.
    Write,
}

// What the one who reads was told.
#[derive(Clone, Copy)]
struct Found {
    words: [u64; 2],
    front: Front,
}

#[derive(Drop)]
struct Party<'g> {
    task: Task,
    gate: &'g Gate,
    // whether the read was answered
    done: &'g AtomicBool,
    // how often the chunk is to be programmed again
    programs: u64,
    // the next word
    word: u64,
    // the word of the sector that is written again, and how many sectors were written
    last: u64,
    written: u64,
    found: Option<Found>,
}

impl Party<'_> {
    // Writes so many sectors.
    fn write<M: Mount, U: Unit, R: Wait>(
        &mut self,
        rt: &R,
        session: &mut Session<'_, M, U>,
        lba: u64,
        count: usize,
    )
        requires sector { M.past.image.shape.sector ≡ 512 }
        requires some { 1 ≤ count }
        requires few { count ≤ 16 }
        ensures { session.new.worker.number ≡ session.old.worker.number }
    {
        let mut bytes = [0; MOST * SECTOR];
        fill(&mut bytes, count, self.word);
        if session.write(rt, lba, &bytes[..count * SECTOR]).is_ok() {
            if lba == AGAIN {
                self.last = self.word;
            }
            self.written = self.written.wrapping_add(count as u64);
        }
        self.word = self.word.wrapping_add(count as u64);
    }

    fn flush<M: Mount, U: Unit, R: Wait>(&mut self, rt: &R, session: &mut Session<'_, M, U>)
        ensures { session.new.worker.number ≡ session.old.worker.number }
    {
        let _ = session.flush(rt);
    }

    // Fills the two lines, and reads.
    fn read<M: Mount, U: Unit, R: Wait>(&mut self, rt: &R, session: &mut Session<'_, M, U>)
        requires sector { M.past.image.shape.sector ≡ 512 }
        ensures { session.new.worker.number ≡ session.old.worker.number }
    {
        self.write(rt, session, 0, 16);
        self.write(rt, session, 16, 16);
        self.write(rt, session, 32, 8);
        self.flush(rt, session);
        self.write(rt, session, AGAIN, 1);
        self.write(rt, session, 40, 15);
        self.flush(rt, session);
        self.write(rt, session, 40, 15);
        self.flush(rt, session);
        let mut bytes = [0; 2 * SECTOR];
        self.gate.shut();
        if let Ok(front) = session.read(rt, READ, &mut bytes) {
            let words = words_of(&bytes, 2);
            self.found = Some(Found {
                words: [words[0], words[1]],
                front,
            });
        }
        self.done.store(true, Ordering::SeqCst);
    }

    // Waits until the read is held.
    fn wait<R: Wait>(&self, rt: &R) {
        for _ in rt.forever() {
            if self.gate.has_held() || self.done.load(Ordering::SeqCst) {
                return;
            }
            thread::yield_now();
        }
        unreachable!()
    }

    // Writes until the chunk was to be reset, and to be programmed so often.
    fn write_all<M: Mount, U: Unit, R: Wait>(&mut self, rt: &R, session: &mut Session<'_, M, U>)
        requires sector { M.past.image.shape.sector ≡ 512 }
        ensures { session.new.worker.number ≡ session.old.worker.number }
    {
        self.wait(rt);
        for _turn in 0..MOST_TURNS {
            if self.gate.resets() > 0 && self.gate.programs() >= self.programs {
                break;
            }
            self.write(rt, session, AGAIN, 1);
            self.write(rt, session, 40, 15);
            self.flush(rt, session);
        }
        self.gate.open();
    }
}

impl<U: Unit> Work<U> for Party<'_> {
    fn work<M: Mount, R: Wait>(&mut self, rt: &R, session: &mut Session<'_, M, U>)
        ensures { session.new.worker.number ≡ session.old.worker.number }
    {
        if session.sector() as usize != SECTOR {
            return;
        }
        match self.task {
            Task::Read => self.read(rt, session),
            Task::Write => self.write_all(rt, session),
        }
    }
}

// Takes all chunks of the first unit but its first one offline.
fn take_offline(drive: &mut Drive, shape: &Shape)
    requires shape { shape.now ≡ shape_of drive.old }
    requires some { 0 < units_of shape.now }
{
    for chunk in 1..shape.chunks {
        drive.restore(0, chunk, 0, ChunkState::Offline, &[], &[]);
    }
}

// A drive on which all lines but the first have one unit.
fn narrow(alloc: Global) -> Result<Drive, Fail> {
    let mut drive = blank(alloc, &MORE_CHUNKS)?;
    let shape = drive.shape();
    if shape.units() == 0 {
        return Err(Fail::new("no unit"));
    }
    take_offline(&mut drive, &shape);
    Ok(drive)
}

// Takes the last of some units.
fn take_last(units: &mut Vec<MemoryUnit>) -> MemoryUnit
    requires { 0 < length units.old.items }
    ensures { units.old.items ≡ units.new.items ++ result ∷ [] }
{
    units.pop().unwrap()
}

// The units, if there are two.
fn both(units: Vec<MemoryUnit>) -> Option<(MemoryUnit, MemoryUnit)>
    ensures { IfSome result (λ p. units.items ≡ p.0 ∷ p.1 ∷ []) }
{
    if units.len() != 2 {
        return None;
    }
    let mut units = units;
    let second = take_last(&mut units);
    let first = take_last(&mut units);
    Some((first, second))
}

// The units with the gate, if there are two: fetches of the first go through it, and the other
// counts what is done with its second chunk.
fn gated<'g>(
    alloc: Global,
    gate: &'g Gate,
    units: Vec<MemoryUnit>,
) -> Result<Vec<GatedUnit<'g>>, AllocError>
    ensures { IfOk result (λ gs. map (λ g. g.unit.unit) gs.items
        ≡ map (λ u. u.unit) units.items) }
{
    let Some((first, second)) = both(units) else {
        return Err(AllocError);
    };
    let mut made = Vec::new(alloc);
    made.push(GatedUnit {
        unit: first,
        gate,
        part: Part::Gated,
    })?;
    made.push(GatedUnit {
        unit: second,
        gate,
        part: Part::Counts(1),
    })?;
    Ok(made)
}

// A session that shares the gate.
fn make_party<'g>(
    task: Task,
    gate: &'g Gate,
    done: &'g AtomicBool,
    programs: u64,
    word: u64,
) -> Party<'g> {
    Party {
        task,
        gate,
        done,
        programs,
        word,
        last: 0,
        written: 0,
        found: None,
    }
}

// Both sessions.
fn parties<'g>(
    alloc: Global,
    gate: &'g Gate,
    done: &'g AtomicBool,
    programs: u64,
) -> Result<Vec<Party<'g>>, AllocError>
    ensures { IfOk result (λ ps. length ps.items ≡ 2) }
{
    let mut parties = Vec::new(alloc);
    parties.push(make_party(Task::Read, gate, done, programs, 100))?;
    parties.push(make_party(Task::Write, gate, done, programs, 1_000_000))?;
    Ok(parties)
}

// The state of the second unit's second chunk.
fn state_of(units: &[GatedUnit<'_>]) -> Option<ChunkState> {
    match units {
        [_, unit] if unit.unit.shape().chunks > 1 => Some(unit.unit.chunk(1).state().0),
        _ => None,
    }
}

// What is wrong with what both did, if anything is.
fn wrong(parties: &[Party<'_>]) -> &'static str {
    let [reader, writer] = parties else {
        return "other sessions";
    };
    let Some(found) = reader.found else {
        return "the read was refused";
    };
    if found.words != [100 + READ, writer.last] {
        return "other words";
    }
    if found.front.users != reader.written.wrapping_add(writer.written) {
        return "another front";
    }
    "nothing"
}

// Has both sessions do their tasks on a drive with these plans. Tells what is wrong, and the state
// of the chunk in the end.
fn run<R: Threads + Wait + Sync>(
    rt: &R,
    alloc: Global,
    plans: &[FaultPlan],
    programs: u64,
) -> Result<(&'static str, Option<ChunkState>), Fail> {
    let gate = Gate::new();
    let done = AtomicBool::new(false);
    let drive = narrow(alloc)?;
    let (shape, units) = armed(alloc, drive, plans, None)?;
    let units = gated(alloc, &gate, units)?;
    let parties = parties(alloc, &gate, &done, programs)?;
    let closed = serve(rt, alloc, units, &shape, parties)?;
    closed.settled?;
    if !gate.has_held() {
        return Err(Fail::new("no fetch was held"));
    }
    if gate.resets() == 0 || gate.programs() < programs {
        return Err(Fail::new("the line wasn't used again"));
    }
    Ok((
        wrong(closed.works.as_slice()),
        state_of(closed.units.as_slice()),
    ))
}

// The fetch of the other sector comes too late: its block is another sector's. Both are looked up
// again.
#[test]
fn a_line_is_used_again_while_a_fetch_is_held(rt: HostRuntime) -> Result<(), Fail> {
    let (wrong, _) = run(&rt, rt.alloc(), &[], 6)?;
    assert_eq!(rt; wrong, "nothing");
    Ok(())
}

#[test]
fn a_chunk_goes_offline_while_a_fetch_is_held(rt: HostRuntime) -> Result<(), Fail> {
    let plan = FaultPlan {
        unit: 1,
        kind: CommandKind::Reset,
        nth: 1,
        cut: 0,
    };
    let (wrong, state) = run(&rt, rt.alloc(), &[plan], 0)?;
    assert_eq!(rt; (wrong, state), ("nothing", Some(ChunkState::Offline)));
    Ok(())
}
