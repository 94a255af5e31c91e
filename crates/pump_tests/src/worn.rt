//! Pumps on worn drives: whatever failed, pumps end at rest, and each that did something came on.
ghost use Rattle.std.specs.Prelude.{◌≡◌, ◌≤◌, ◌∷◌, [], length, map, vec_capacity, IfOk};
ghost use Rattle.block_target.specs.Opened.{CanOpen};
ghost use Rattle.block_target.specs.Targets.{Names, first_target};

use block_target::{Opened, Port, Refused, Session, Target, Ticket, open};
use ocssd_drive::{Drive, Geometry, MemoryUnit};
use pblk_core::Why;
use pblk_engine::{Did, Engine, Mount, Role, Worker};
use pblk_model::Shape;
use std::alloc::{AllocError, Global};
use std::marker::Brand;
use std::sync::Wait;
use std::test::Fail;
use target_crew::armed;
use unit_port::{CommandKind, FaultPlan, Unit};

const SECTOR: usize = 512;

const CAPACITY: u64 = 64;

const RING: u32 = 64;

// As many pumps as a tidy drive of this size takes at most until all is on it: eight for each of
// the 48 blocks of a line, of the 64 positions that can be claimed, of the 8 lines, and 64 more.
const MOST: u32 = 8 * 48 * (64 + 8 + 64);

// What pumps answered, and what there was of the units' commands for it.
#[derive(Clone, Copy, Debug, Default, PartialEq, Eq, Drop)]
struct Tally {
    // commands that were told
    commands: u64,
    // answers that nothing was done, one after another, at most
    idle: u64,
    // those since the last piece of work
    since: u64,
    // pumps that answered an error
    lost: u64,
    // times at which pumps didn't end
    endless: u64,
    // copies that were made, and resets
    copies: u64,
    resets: u64,
}

impl Tally {
    // Counts a piece of work of so many commands.
    fn work(&mut self, commands: u64) {
        self.commands = self.commands.wrapping_add(commands);
        self.since = 0;
    }

    // Counts an answer that nothing was done.
    fn none(&mut self) {
        self.since = self.since.wrapping_add(1);
        self.idle = self.idle.max(self.since);
    }

    // Counts an answer. Tells whether the target is at rest.
    fn note(&mut self, did: Did) -> bool {
        match did {
            Did::Programmed | Did::Lost(_) => self.work(1),
            Did::Reset => {
                self.resets = self.resets.wrapping_add(1);
                self.work(1);
            }
            Did::Copied => {
                self.copies = self.copies.wrapping_add(1);
                self.work(1);
            }
            Did::Opened => self.work(0),
            Did::NotCopied | Did::Other | Did::Nothing(Why::Busy) => self.none(),
            Did::Nothing(Why::NoLine | Why::Rest) => return true,
        }
        false
    }
}

// Pumps until the target is at rest.
fn rest<M: Mount, U: Unit, R: Wait>(
    rt: &R,
    engine: &Engine<M, U>,
    worker: &mut Worker<M>,
    tally: &mut Tally,
)
    ensures { worker.new.number ≡ worker.old.number }
{
    for _pump in 0..MOST {
        match engine.pump(rt, worker, Role::All) {
            Ok(did) => {
                if tally.note(did) {
                    return;
                }
            }
            Err(_) => {
                tally.lost = tally.lost.wrapping_add(1);
            }
        }
    }
    tally.endless = tally.endless.wrapping_add(1);
}

// The numbers of a linear congruential generator are those of Knuth's MMIX.
fn next(drawn: u64) -> u64 {
    drawn
        .wrapping_mul(6_364_136_223_846_793_005)
        .wrapping_add(1_442_695_040_888_963_407)
}

// Writes sectors as far as there is room, and then pumps until the target is at rest, again and
// again.
fn turns<M: Mount, U: Unit, R: Wait>(
    rt: &R,
    engine: &Engine<M, U>,
    session: &mut Session<'_, M, U>,
    worker: &mut Worker<M>,
    count: u32,
) -> Tally
    ensures session { session.new.worker.number ≡ session.old.worker.number }
    ensures worker { worker.new.number ≡ worker.old.number }
{
    let mut tally = Tally::default();
    if session.sector() as usize != SECTOR {
        return tally;
    }
    let bytes = [7; SECTOR];
    let mut drawn = 11;
    for _turn in 0..count {
        drawn = next(drawn);
        let _ = session.try_write((drawn >> 20) % CAPACITY, &bytes);
        if drawn >> 62 == 0 {
            rest(rt, engine, worker, &mut tally);
        }
    }
    rest(rt, engine, worker, &mut tally);
    tally
}

// Closes a target that has one session and one more worker.
fn close<M: Mount, R: Wait>(
    rt: &R,
    target: Target<M, MemoryUnit>,
    ticket: Ticket<M>,
    worker: Worker<M>,
    tickets: Vec<Ticket<M>>,
    workers: Vec<Worker<M>>,
) -> u64
    requires target { target ≡ first_target M.key 1 1 }
    requires number { ticket.worker.number ≡ 0 }
    requires worker { worker.number ≡ 1 }
    requires no_ticket { tickets.items ≡ [] }
    requires no_worker { workers.items ≡ [] }
    requires room { 1 ≤ vec_capacity tickets }
    requires workers_room { 1 ≤ vec_capacity workers }
{
    let mut tickets = tickets;
    tickets.push(ticket).unwrap();
    let mut workers = workers;
    workers.push(worker).unwrap();
    let (units, _) = target.close(rt, tickets, workers);
    let mut events = 0u64;
    for unit in &units {
        events = events.wrapping_add(unit.events());
    }
    events
}

// Does so many turns on an opened drive. Tells how many events its units had in the end.
fn turns_on<M: Mount, R: Wait>(
    rt: &R,
    alloc: Global,
    opened: Opened<MemoryUnit>,
    count: u32,
) -> Result<(Tally, u64), AllocError>
    requires named { Names M.chronicle M.past M.ring M.key M.handed M.wear opened }
    requires session { opened.sessions ≡ 1 }
    requires lanes { opened.lanes ≡ 0 }
{
    match opened.target::<M>(alloc) {
        Ok((target, tickets, workers)) => {
            let mut tickets = tickets;
            let ticket = tickets.pop().unwrap();
            let mut workers = workers;
            let mut worker = workers.pop().unwrap();
            let mut session = target.session(ticket);
            let tally = turns(rt, target.engine(), &mut session, &mut worker, count);
            let ticket = session.end();
            let events = close(rt, target, ticket, worker, tickets, workers);
            Ok((tally, events))
        }
        Err(Refused { units: _, cause: _ }) => Err(AllocError),
    }
}

// The shape of a small drive with these plans, and its units.
fn units(alloc: Global, plans: &[FaultPlan]) -> Result<(Shape, Vec<MemoryUnit>), Fail>
    ensures { IfOk result (λ r. CanOpen r.0 (map (λ u. u.unit) r.1.items)) }
{
    let geometry = Geometry::small();
    if geometry.refusal().is_some() {
        return Err(Fail::new("no geometry"));
    }
    if Drive::refusal(&geometry, SECTOR as u32, CAPACITY, RING).is_some() {
        return Err(Fail::new("no drive"));
    }
    let drive = Drive::new(alloc, geometry, SECTOR as u32, CAPACITY, RING)?;
    Ok(armed(alloc, drive, plans, None)?)
}

// Does so many turns on a small drive with these plans.
fn run<R: Wait>(
    rt: &R,
    alloc: Global,
    plans: &[FaultPlan],
    count: u32,
) -> Result<(Tally, u64), Fail> {
    let (shape, units) = units(alloc, plans)?;
    match open(alloc, units, &shape, 1, 0) {
        Ok(opened) => Ok(turns_on::<Brand, R>(rt, alloc, opened, count)?),
        Err(Refused { units: _, cause: _ }) => Err(Fail::new("no target")),
    }
}

// Pumps ended, each that told of a command had one made, and where nothing was done the next pump
// did something.
fn is_right(tally: &Tally, events: u64) -> bool {
    tally.endless == 0 && tally.commands <= events && tally.idle <= 1
}

fn plan(unit: u32, kind: CommandKind, nth: u32) -> FaultPlan {
    FaultPlan {
        unit,
        kind,
        nth,
        cut: 1,
    }
}

#[test]
fn pumps_end_on_a_drive_without_faults(rt: HostRuntime) -> Result<(), Fail> {
    let (tally, events) = run(&rt, rt.alloc(), &[], 3000)?;
    assert!(rt; is_right(&tally, events), "{tally:?} {events}");
    assert!(rt;
        tally.lost == 0 && tally.copies > 0 && tally.resets > 0,
        "{tally:?}"
    );
    Ok(())
}

#[test]
fn pumps_end_where_resets_failed(rt: HostRuntime) -> Result<(), Fail> {
    for first in 1..5 {
        for more in 0..4 {
            let plans = [
                plan(0, CommandKind::Reset, first),
                plan(1, CommandKind::Reset, first + more),
                plan(0, CommandKind::Reset, first + more + 1),
            ];
            let (tally, events) = run(&rt, rt.alloc(), &plans, 600)?;
            assert!(rt;
                is_right(&tally, events),
                "{first} {more} {tally:?} {events}"
            );
        }
    }
    Ok(())
}

#[test]
fn pumps_end_where_programs_failed(rt: HostRuntime) -> Result<(), Fail> {
    for first in [1, 2, 7, 13, 30, 61] {
        for more in [0, 1, 5, 12] {
            let plans = [
                plan(0, CommandKind::Program, first),
                plan(1, CommandKind::Program, first.wrapping_add(more)),
                plan(
                    0,
                    CommandKind::Program,
                    first.wrapping_add(more).wrapping_add(1),
                ),
                plan(1, CommandKind::Reset, 1),
            ];
            let (tally, events) = run(&rt, rt.alloc(), &plans, 600)?;
            assert!(rt;
                is_right(&tally, events),
                "{first} {more} {tally:?} {events}"
            );
        }
    }
    Ok(())
}

#[test]
fn pumps_end_where_fetches_failed(rt: HostRuntime) -> Result<(), Fail> {
    for first in [1, 2, 3, 9] {
        let plans = [
            plan(0, CommandKind::Fetch, first),
            plan(1, CommandKind::Fetch, first.wrapping_add(1)),
            plan(1, CommandKind::Reset, 2),
        ];
        let (tally, events) = run(&rt, rt.alloc(), &plans, 600)?;
        assert!(rt; is_right(&tally, events), "{first} {tally:?} {events}");
    }
    Ok(())
}
