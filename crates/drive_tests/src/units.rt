//! Units of a small drive, armed with plans and a fuse.

use ocssd_drive::{
    ChunkState, CommandKind, Drive, FaultPlan, Fuse, Geometry, Got, Mark, MemoryUnit, Unit, UnitErr,
};
use pblk_model::{Shows, UnitEvent};
use std::alloc::{AllocError, Global};
use std::process::Abort;
use std::test::Fail;
use std::thread;
use unit_port::{Armed, Log};

static MARKS: [Mark; 4] = [Mark {
    lba: 3,
    position: 9,
}; 4];

// What is asked of a unit, chunk by chunk: a program of four blocks from a block on, a fetch of a block, a
// reset, a chunk's state, and how many events the log has.
#[derive(Clone, Copy)]
enum Asked {
    Program(u32, u32),
    Fetch(u32, u32),
    Reset(u32),
    State(u32),
    Events,
}

// What it told. A fetch tells the first byte of the buffer, which is 99 before the fetch.
#[derive(Clone, Copy, PartialEq, Eq)]
enum Told {
    Refused,
    Done,
    Sector(u8),
    Empty,
    Failed,
    Stopped,
    Is(ChunkState, u32),
    Count(u64),
}

fn ask(unit: &mut MemoryUnit, asked: &Asked) -> Told {
    match asked {
        Asked::Program(chunk, at) => program(unit, *chunk, *at),
        Asked::Fetch(chunk, block) => fetch(unit, *chunk, *block),
        Asked::Reset(chunk) => reset(unit, *chunk),
        Asked::State(chunk) => state(unit, *chunk),
        Asked::Events => Told::Count(unit.events()),
    }
}

fn program(unit: &mut MemoryUnit, chunk: u32, at: u32) -> Told {
    let sectors = [7u8; 2048];
    if !unit.takes_program(chunk, at, &sectors, &MARKS) {
        return Told::Refused;
    }
    answered(unit.program(chunk, at, &sectors, &MARKS))
}

fn reset(unit: &mut MemoryUnit, chunk: u32) -> Told {
    if !unit.takes_reset(chunk) {
        return Told::Refused;
    }
    answered(unit.reset(chunk))
}

fn answered(answer: Result<(), UnitErr>) -> Told {
    match answer {
        Ok(()) => Told::Done,
        Err(UnitErr::Failed) => Told::Failed,
        Err(UnitErr::Stopped) => Told::Stopped,
    }
}

fn fetch(unit: &mut MemoryUnit, chunk: u32, block: u32) -> Told {
    let mut out = [99u8; 512];
    if !unit.takes_fetch(chunk, block, &out) {
        return Told::Refused;
    }
    match unit.fetch(chunk, block, &mut out) {
        Ok(Got::Sector(_)) => Told::Sector(out[0]),
        Ok(Got::Empty) if out[0] == 99 => Told::Empty,
        Err(UnitErr::Failed) if out[0] == 99 => Told::Failed,
        Err(UnitErr::Stopped) if out[0] == 99 => Told::Stopped,
        _ => Told::Refused,
    }
}

fn state(unit: &MemoryUnit, chunk: u32) -> Told {
    if chunk >= unit.shape().chunks {
        return Told::Refused;
    }
    let (state, pointer) = unit.state(chunk);
    Told::Is(state, pointer)
}

// The two units of a small drive that is armed as given, and then disarmed or not.
fn armed(
    alloc: Global,
    plans: &[FaultPlan],
    fuse: (u32, u32, u32),
    still: bool,
) -> Result<Vec<MemoryUnit>, AllocError> {
    let mut drive = Drive::new(alloc, Geometry::small(), 512, 64, 64)?;
    let (unit, nth, cut) = fuse;
    drive.arm(alloc, plans, Some(Fuse { unit, nth, cut }))?;
    if !still {
        drive.disarm();
    }
    let Drive { units, .. } = drive;
    Ok(units)
}

// Asks the unit of each row, row by row.
fn walk(rt: &impl Abort, mut units: Vec<MemoryUnit>, rows: &[(usize, Asked, Told)]) {
    for (row, (at, asked, told)) in rows.iter().enumerate() {
        let same = match units.get_mut(*at) {
            Some(unit) => ask(unit, asked) == *told,
            None => false,
        };
        assert!(rt; same, "row {row}");
    }
}

// A fuse for a unit that the drive doesn't have.
const NO_FUSE: (u32, u32, u32) = (2, 1, 0);

// A fuse that falls at the first command of unit 1.
static FUSED: [(usize, Asked, Told); 7] = [
    (1, Asked::Program(0, 0), Told::Stopped),
    (1, Asked::State(0), Told::Is(ChunkState::Open, 2)),
    (1, Asked::Events, Told::Count(1)),
    (0, Asked::Fetch(0, 0), Told::Stopped),
    (0, Asked::Events, Told::Count(1)),
    (1, Asked::Reset(0), Told::Stopped),
    (1, Asked::State(0), Told::Is(ChunkState::Open, 2)),
];

// No command has the number 0, and a drive that is disarmed has no fuse.
static UNFUSED: [(usize, Asked, Told); 4] = [
    (0, Asked::Program(0, 0), Told::Done),
    (1, Asked::Program(0, 0), Told::Done),
    (1, Asked::Reset(8), Told::Refused),
    (1, Asked::Reset(1), Told::Refused),
];

#[test]
fn the_fuse_stops_the_whole_drive(rt: HostRuntime) -> Result<(), Fail> {
    let units = armed(rt.alloc(), &[], (1, 1, 1), true)?;
    walk(&rt, units, &FUSED);
    walk(&rt, armed(rt.alloc(), &[], NO_FUSE, true)?, &UNFUSED);
    walk(&rt, armed(rt.alloc(), &[], (0, 0, 0), true)?, &UNFUSED);
    walk(&rt, armed(rt.alloc(), &[], (0, 1, 0), false)?, &UNFUSED);
    Ok(())
}

// What the plans below make of the commands of unit 0. Those of unit 1 are as without plans.
static PLANNED: [(usize, Asked, Told); 14] = [
    (0, Asked::Program(0, 0), Told::Done),
    (0, Asked::Program(0, 4), Told::Failed),
    (0, Asked::State(0), Told::Is(ChunkState::Closed, 6)),
    (0, Asked::Program(1, 0), Told::Failed),
    (0, Asked::State(1), Told::Is(ChunkState::Closed, 2)),
    (0, Asked::Fetch(0, 1), Told::Sector(7)),
    (0, Asked::Fetch(0, 1), Told::Failed),
    (0, Asked::Fetch(0, 1), Told::Sector(7)),
    (0, Asked::Reset(0), Told::Failed),
    (0, Asked::State(0), Told::Is(ChunkState::Offline, 0)),
    (0, Asked::Reset(1), Told::Done),
    (0, Asked::Events, Told::Count(8)),
    (1, Asked::Program(0, 0), Told::Done),
    (1, Asked::Program(0, 4), Told::Done),
];

// A stop counts before a plan that falls on the same command.
static PLANNED_AND_FUSED: [(usize, Asked, Told); 6] = [
    (0, Asked::Program(0, 0), Told::Done),
    (0, Asked::Fetch(0, 0), Told::Empty),
    (0, Asked::Reset(0), Told::Stopped),
    (0, Asked::State(0), Told::Is(ChunkState::Free, 0)),
    (1, Asked::Program(0, 0), Told::Stopped),
    (1, Asked::State(0), Told::Is(ChunkState::Free, 0)),
];

#[test]
fn plans_fail_the_commands_that_they_name(rt: HostRuntime) -> Result<(), Fail> {
    let plans = [
        plan(CommandKind::Program, 2, 1),
        plan(CommandKind::Program, 2, 0),
        plan(CommandKind::Reset, 1, 0),
        plan(CommandKind::Fetch, 2, 0),
        plan(CommandKind::Program, 3, 9),
    ];
    walk(&rt, armed(rt.alloc(), &plans, NO_FUSE, true)?, &PLANNED);
    walk(
        &rt,
        armed(rt.alloc(), &plans, (0, 2, 1), true)?,
        &PLANNED_AND_FUSED,
    );
    Ok(())
}

fn plan(kind: CommandKind, nth: u32, cut: u32) -> FaultPlan {
    FaultPlan {
        unit: 0,
        kind,
        nth,
        cut,
    }
}

// Programs chunk after chunk, until a program is stopped.
fn program_on(unit: &mut MemoryUnit) {
    for done in 0..48 {
        if program(unit, done / 6, done % 6 * 4) == Told::Stopped {
            return;
        }
    }
}

// What two threads leave of a drive whose fuse falls at the twentieth command of unit 1.
static STOPPED: [(usize, Asked, Told); 4] = [
    (1, Asked::Events, Told::Count(20)),
    (1, Asked::State(3), Told::Is(ChunkState::Open, 8)),
    (1, Asked::Fetch(0, 0), Told::Stopped),
    (0, Asked::Fetch(0, 0), Told::Stopped),
];

#[test]
fn two_threads_find_that_the_drive_stopped(rt: HostRuntime) -> Result<(), Fail> {
    let mut units = armed(rt.alloc(), &[], (1, 20, 2), true)?;
    thread::for_each_mut(&rt, &mut units, 2, &|_, unit| program_on(unit));
    walk(&rt, units, &STOPPED);
    Ok(())
}

#[test]
fn a_chunk_is_restored_with_its_wear(rt: HostRuntime) -> Result<(), Fail> {
    let mut drive = Drive::new(rt.alloc(), Geometry::small(), 512, 64, 64)?;
    drive.restore(1, 3, 9, ChunkState::Closed, &[7u8; 2048], &MARKS);
    let unit = drive.unit(1);
    assert!(rt; state(unit, 3) == Told::Is(ChunkState::Closed, 4));
    assert!(rt; wear(unit, 3) == Some(9));
    assert!(rt; wear(unit, 2) == Some(0));
    let text = format!(in rt.alloc(); "{unit:?}")?;
    assert!(rt; text.as_str().ends_with("events: 0, .. }"));
    Ok(())
}

fn wear(unit: &MemoryUnit, chunk: u32) -> Option<u8> {
    if chunk < unit.shape().chunks {
        Some(unit.wear(chunk))
    } else {
        None
    }
}

// One row of a log.
#[derive(Drop)]
struct Row {
    number: u64,
}

impl Shows for Row {
    type Event = u64;

    ghost shown = { λ row. row.number };
}

fn with_row(mut log: Log<u64>, number: u64) -> Log<u64> {
    log.add(&Row { number });
    log
}

#[test]
fn a_log_grows_in_each_thread_that_has_it(rt: HostRuntime) -> Result<(), Fail> {
    let log = with_row(Log::new(rt.alloc())?, 1);
    let writer = thread::spawn(&rt, move || with_row(log, 2))?;
    with_row(writer.join(&rt), 3);
    Ok(())
}

// A call of it is accepted only for a type whose values may go to another thread.
fn may_cross<T: Send>() {}

#[test]
fn logs_units_and_drives_may_cross_threads() {
    may_cross::<Log<UnitEvent>>();
    may_cross::<Log<Armed>>();
    may_cross::<MemoryUnit>();
    may_cross::<&mut MemoryUnit>();
    may_cross::<Drive>();
}
