//! Runs a script on a target over the units of a drive.

ghost use Rattle.std.specs.Prelude.{ℕ, List, ◌≡◌, ◌≤◌, ◌<◌, ◌+◌, ◌^◌, ◌++◌, ◌∷◌, [], length, map, take, drop, vec_capacity, Ok, Err, None, IfOk, IfErr};
ghost use Rattle.pblk_model.specs.declared.shape.Shape.{Shape as ShapeOf};
ghost use Rattle.pblk_model.specs.Script.{NeverStuck, ScriptFits};
ghost use Rattle.unit_port.specs.Unit.{ModelUnit};
ghost use Rattle.block_target.specs.Sessions.{device};
ghost use Rattle.block_target.specs.Targets.{Names, first_sessions, first_target, first_workers};
ghost use Rattle.run_threads.specs.Run.{IsEvent};
ghost use Rattle.std.specs.Thread.{IsSync};
ghost use Rattle.run_threads.specs.Threads.{HasWorked, IsPrepared};
ghost use Rattle.pblk_cli.specs.Serving.{AreBackAs, AreNumbered, CanAllWork, CanWork, HasDone, HaveAllDone, HaveGoneOn, HaveHelped, HaveRun, IsOpening, IsOver, IsServed, IsServedOn, helpers_for, sessions_for, trouble_of, with_closing};

use block_target::{
    Opened, Refused, Session, Target, Ticket, a_refused_opening_is_of_a_legal_world,
};
use pblk_collector::run_collector;
use pblk_engine::{Closing, Engine, Mount, SettleErr, Worker};
use pblk_flusher::run_lane;
use pblk_model::Script;
use run_threads::{Port, Prepared, Records, Trouble, prepare};
use std::alloc::{AllocError, Global};
use std::sync::Wait;
use std::thread::{Threads, for_each_mut};
use unit_port::Unit;

/// Makes the target of an opened drive, runs the threads of a script by its sessions, beside its
/// lanes and its collector, and closes it. It hands the units back, in their order.
///
/// The drive was opened for these lanes, and for as many sessions as the script has threads, but
/// for one at least. The script was accepted for the drive's capacity. Each thread has a thread of
/// its own where one can be made, and so has each lane and the collector. Lanes and the collector
/// work until all threads of the script have ended, or until a unit answers that it is stopped.
/// Where no thread can be made the script's threads run one after another, and then an await of a
/// post that is still to come waits for ever.
///
/// The units were armed, perhaps with nothing: plans may have commands of them fail, and a fuse may
/// stop them. A program or a reset that fails is recorded nowhere. A fetch that fails, or a command
/// that is stopped, is recorded where a session had made it, and the script goes on.
///
/// All memory is taken before the first thread starts. Without it no command is run.
pub fn serve<M: Mount + Send + Sync, U: Unit + Send, R: Threads + Wait + Sync>(
    rt: &R,
    alloc: Global,
    opened: Opened<U>,
    script: &Script,
    lanes: u32,
    collector: bool,
) -> Result<(Vec<U>, Records), (AllocError, Vec<U>)>
    requires named { Names M.chronicle M.past M.ring M.key M.handed M.wear opened }
    requires sessions { opened.sessions ≡ sessions_for (length script.now) }
    requires lanes { opened.lanes ≡ lanes }
    requires fits { ScriptFits opened.past.image.shape.capacity script.now }
    requires flows { NeverStuck script.now }
    ensures served { IfOk result (λ ran. (s : ShapeOf) (old : List ModelUnit)
        (wear : List (List ℕ)) → IsOpening s old wear opened → IsServed s script.now
        (helpers_for lanes collector) old (map U.model ran.0.items) ran.1) }
    ensures back { IfOk result (λ ran. (s : ShapeOf) (old : List ModelUnit)
        (wear : List (List ℕ)) → IsOpening s old wear opened
        → AreBackAs s old wear (map U.model ran.0.items) (map U.wear ran.0.items)) }
    ensures handed_back { IfErr result (λ refused. (s : ShapeOf) (old : List ModelUnit)
        (wear : List (List ℕ)) → IsOpening s old wear opened
        → AreBackAs s old wear (map U.model refused.1.items) (map U.wear refused.1.items)) }
{
    a_refused_opening_is_of_a_legal_world();
    match opened.target::<M>(alloc) {
        Ok((target, tickets, workers)) => {
            serve_target(
                rt, alloc, target, tickets, workers, script, lanes, collector,
            )
        }
        Err(Refused { units, cause: _ }) => Err((AllocError, units)),
    }
}

// Runs the threads of a script by the sessions of a new target, beside its lanes and its collector,
// and closes it.
fn serve_target<M: Mount + Send + Sync, U: Unit + Send, R: Threads + Wait + Sync>(
    rt: &R,
    alloc: Global,
    target: Target<M, U>,
    tickets: Vec<Ticket<M>>,
    workers: Vec<Worker<M>>,
    script: &Script,
    lanes: u32,
    collector: bool,
) -> Result<(Vec<U>, Records), (AllocError, Vec<U>)>
    requires target { target ≡ first_target M.key (sessions_for (length script.now)) (lanes + 1) }
    requires tickets { tickets.items
        ≡ first_sessions M.past M.key (sessions_for (length script.now)) }
    requires workers { workers.items
        ≡ first_workers M.past (sessions_for (length script.now)) (lanes + 1) }
    requires few { sessions_for (length script.now) ≤ 64 }
    requires few_lanes { lanes ≤ 8 }
    requires fits { ScriptFits M.past.image.shape.capacity script.now }
    requires flows { NeverStuck script.now }
    ensures served { IfOk result (λ ran. IsServedOn M.past M.key M.handed M.wear script.now lanes
        (helpers_for lanes collector) (map U.model ran.0.items) (map U.wear ran.0.items) ran.1) }
    ensures over { IfErr result (λ refused. IsOver M.past M.key M.handed M.wear
        (map U.model refused.1.items) (map U.wear refused.1.items)) }
{
    let mut tickets = tickets;
    let (workers, ran) = work(
        rt,
        alloc,
        &target,
        &mut tickets,
        workers,
        script,
        lanes,
        collector,
    );
    let (units, settled) = target.close(rt, tickets, workers);
    match ran {
        Ok(records) => Ok((units, closed_records(records, trouble_of(settled)))),
        Err(e) => Err((e, units)),
    }
}

// Runs the threads of a script by the sessions of a new target, beside its lanes and its collector.
// All tickets and workers come back.
fn work<M: Mount + Send + Sync, U: Unit + Send, R: Threads + Wait + Sync>(
    rt: &R,
    alloc: Global,
    target: &Target<M, U>,
    tickets: &mut Vec<Ticket<M>>,
    workers: Vec<Worker<M>>,
    script: &Script,
    lanes: u32,
    collector: bool,
) -> (Vec<Worker<M>>, Result<Records, AllocError>)
    requires tickets { tickets.old.items
        ≡ first_sessions M.past M.key (sessions_for (length script.now)) }
    requires workers { workers.items
        ≡ first_workers M.past (sessions_for (length script.now)) (lanes + 1) }
    requires few_lanes { lanes ≤ 8 }
    requires fits { ScriptFits M.past.image.shape.capacity script.now }
    requires flows { NeverStuck script.now }
    ensures ran { IfOk result.1 (λ records. HaveRun M.past M.key M.handed M.wear script.now records
        tickets.new.items) }
    ensures unrun { IfErr result.1 (λ _. tickets.new.items ≡ tickets.old.items) }
    ensures workers { length result.0.items ≡ lanes + 1 }
    ensures helped { HaveHelped (sessions_for (length script.now)) (helpers_for lanes collector)
        result.0.items }
{
    let threads = script.as_slice().len();
    let (room, mut ports) = match rooms(alloc, threads) {
        Ok(rooms) => rooms,
        Err(e) => return (workers, Err(e)),
    };
    seat(target, tickets, &mut ports, threads);
    match prepare(alloc, script, ports) {
        Ok(prepared) => {
            let helpers = helper_count(lanes, collector);
            let engine = target.engine();
            let (prepared, workers) = run_beside(
                rt,
                engine,
                room,
                prepared,
                workers,
                lanes as usize,
                helpers,
            );
            let (records, ports) = prepared.end();
            unseat(ports, tickets);
            (workers, Ok(records))
        }
        Err((e, ports)) => {
            room.destroy_empty();
            unseat(ports, tickets);
            (workers, Err(e))
        }
    }
}

// How many workers are at work beside the sessions.
fn helper_count(lanes: u32, collector: bool) -> usize
    requires few { lanes ≤ 8 }
    ensures { result ≡ helpers_for lanes collector }
{
    let lanes = lanes as usize;
    if collector { lanes + 1 } else { lanes }
}

// Room for two tasks, and for so many ports.
fn rooms<X, P>(alloc: Global, ports: usize) -> Result<(Vec<X>, Vec<P>), AllocError>
    ensures { IfOk result (λ r. (r.0.items ≡ []) × (2 ≤ vec_capacity r.0) × (r.1.items ≡ [])
        × (ports ≤ vec_capacity r.1)) }
{
    let room = Vec::with_capacity(alloc, 2)?;
    match Vec::with_capacity(alloc, ports) {
        Ok(ports) => Ok((room, ports)),
        Err(e) => {
            room.destroy_empty();
            Err(e)
        }
    }
}

// Seats the holders of the first tickets, so many of them.
fn seat<'t, M: Mount, U: Unit>(
    target: &'t Target<M, U>,
    tickets: &mut Vec<Ticket<M>>,
    ports: &mut Vec<Session<'t, M, U>>,
    count: usize,
)
    requires enough { count ≤ length tickets.old.items }
    requires empty { ports.old.items ≡ [] }
    requires room { count ≤ vec_capacity ports.old }
    ensures ports { ports.new.items ≡ take count tickets.old.items }
    ensures tickets { tickets.new.items ≡ drop count tickets.old.items }
    ensures room { vec_capacity tickets.new ≡ vec_capacity tickets.old }
{
    for _ in 0..count {
        put(ports, target.session(take_first(tickets)));
    }
}

// Ends sessions, in their order, and puts their tickets behind the others, for which there is room.
fn unseat<M: Mount, U: Unit>(ports: Vec<Session<'_, M, U>>, tickets: &mut Vec<Ticket<M>>)
    requires room { length tickets.old.items + length ports.items ≤ vec_capacity tickets.old }
    ensures tickets { tickets.new.items ≡ tickets.old.items ++ ports.entry.items }
{
    let mut ports = ports;
    while !ports.is_empty() {
        put(tickets, take_first(&mut ports).end());
    }
    ports.destroy_empty();
}

// Puts a value behind the others.
fn put<T>(values: &mut Vec<T>, value: T)
    requires room { length values.old.items < vec_capacity values.old }
    ensures items { values.new.items ≡ values.old.items ++ value ∷ [] }
    ensures capacity { vec_capacity values.old ≤ vec_capacity values.new }
{
    values.push(value).unwrap();
}

// Takes the first of some values.
fn take_first<T>(values: &mut Vec<T>) -> T
    requires some { 0 < length values.old.items }
    ensures items { values.old.items ≡ result ∷ values.new.items }
    ensures capacity { vec_capacity values.new ≡ vec_capacity values.old }
{
    values.remove(0)
}

// What one thread has to do: to have helpers work, or the threads of a script.
enum Task<'s, 't, M: Mount, U: Unit> {
    Helpers(Vec<Worker<M>>),
    Threads(Prepared<'s, Session<'t, M, U>>),
}

impl<M: Mount + Send + Sync, U: Unit + Send> Task<'_, '_, M, U> {
    // Does it. Once the threads of a script have ended, so do the helpers.
    fn work<R: Threads + Wait + Sync>(
        &mut self,
        rt: &R,
        engine: &Engine<M, U>,
        closing: &Closing,
        lanes: usize,
        helpers: usize,
    )
        requires ready { CanWork (device M.past M.handed M.wear) helpers self.old }
        ensures done { HasDone (device M.past M.handed M.wear) helpers self.old self.new }
    {
        match self {
            Task::Helpers(workers) => help_all(rt, engine, workers, closing, lanes, helpers),
            Task::Threads(prepared) => {
                prepared.run(rt);
                let _ = closing.set(rt);
                engine.ring().wake();
            }
        }
    }
}

// Does two tasks at once, in two threads.
fn do_both<M: Mount + Send + Sync, U: Unit + Send, R: Threads + Wait + Sync>(
    rt: &R,
    engine: &Engine<M, U>,
    tasks: &mut Vec<Task<'_, '_, M, U>>,
    lanes: usize,
    helpers: usize,
)
    requires ready { CanAllWork (device M.past M.handed M.wear) helpers tasks.old.items }
    ensures done { HaveAllDone (device M.past M.handed M.wear) helpers tasks.old.items
        tasks.new.items }
{
    let closing = Closing::new();
    // where no thread can be made the last one is done first
    for_each_mut(
        rt,
        tasks.as_mut_slice(),
        2,
        &|_, task: &mut Task<'_, '_, M, U>| -> ()
            requires { IsSync R.row × CanWork (device M.past M.handed M.wear) helpers task.now }
            ensures { HasDone (device M.past M.handed M.wear) helpers task.entry.now
                task.exit.now }
        { task.work(rt, engine, &closing, lanes, helpers) },
    );
}

// Runs the threads of a script beside so many helpers, of which the first are lanes. `room` is for
// two tasks.
fn run_beside<'s, 't, M: Mount + Send + Sync, U: Unit + Send, R: Threads + Wait + Sync>(
    rt: &R,
    engine: &Engine<M, U>,
    room: Vec<Task<'s, 't, M, U>>,
    prepared: Prepared<'s, Session<'t, M, U>>,
    workers: Vec<Worker<M>>,
    lanes: usize,
    helpers: usize,
) -> (Prepared<'s, Session<'t, M, U>>, Vec<Worker<M>>)
    requires empty { room.items ≡ [] }
    requires room { 2 ≤ vec_capacity room }
    requires ready { IsPrepared (device M.past M.handed M.wear) prepared }
    requires enough { helpers ≤ length workers.items }
    ensures ran { HasWorked (device M.past M.handed M.wear) prepared.entry result.0 }
    ensures helped { HaveGoneOn helpers workers.items result.1.items }
{
    let mut tasks = room;
    if helpers == 0 {
        let mut prepared = prepared;
        prepared.run(rt);
        tasks.destroy_empty();
        return (prepared, workers);
    }
    put(&mut tasks, Task::Helpers(workers));
    put(&mut tasks, Task::Threads(prepared));
    do_both(rt, engine, &mut tasks, lanes, helpers);
    let workers = match take_first(&mut tasks) {
        Task::Helpers(workers) => workers,
        Task::Threads(_prepared) => unreachable!(),
    };
    let prepared = match take_first(&mut tasks) {
        Task::Threads(prepared) => prepared,
        Task::Helpers(_workers) => unreachable!(),
    };
    tasks.destroy_empty();
    (prepared, workers)
}

// Has the first workers help, each in a thread of its own: so many as lanes, and then one as a
// collector, where there are more helpers than lanes.
fn help_all<M: Mount + Send + Sync, U: Unit + Send, R: Threads + Wait + Sync>(
    rt: &R,
    engine: &Engine<M, U>,
    workers: &mut Vec<Worker<M>>,
    closing: &Closing,
    lanes: usize,
    helpers: usize,
)
    requires some { 0 < helpers }
    requires enough { helpers ≤ length workers.old.items }
    ensures helped { HaveGoneOn helpers workers.old.items workers.new.items }
{
    let count = workers.len();
    for_each_mut(
        rt,
        workers.as_mut_slice(),
        count,
        &|index: usize, worker: &mut Worker<M>| -> ()
            ensures { (worker.exit.now.number ≡ worker.entry.now.number)
                × (helpers ≤ index → worker.exit.now ≡ worker.entry.now) }
        {
            if index < helpers {
                help(rt, engine, worker, closing, index < lanes);
            }
        },
    );
}

// Helps as a lane, or as a collector, until the closing is set or a unit is stopped.
fn help<M: Mount, U: Unit, R: Wait>(
    rt: &R,
    engine: &Engine<M, U>,
    worker: &mut Worker<M>,
    closing: &Closing,
    is_lane: bool,
)
    ensures { worker.new.number ≡ worker.old.number }
{
    if is_lane {
        run_lane(rt, engine, worker, closing);
    } else {
        run_collector(rt, engine, worker, closing);
    }
}

// Records with what a close met.
fn closed_records(records: Records, closing: Option<Trouble>) -> Records
    ensures { result ≡ record {
      threads = records.threads;
      opening = records.opening;
      closing = closing;
    } }
{
    let Records {
        threads,
        opening,
        ..
    } = records;
    Records {
        threads,
        opening,
        closing,
    }
}

// The trouble that a close met.
fn trouble_of(settled: Result<(), SettleErr>) -> Option<Trouble>
    ensures is { result ≡ trouble_of settled }
    ensures number { (wanted have : ℕ) → settled ≡ Err (SettleErr.Worn wanted have)
        → wanted < 2 ^ 64 }
    ensures event { (unit event : ℕ) → settled ≡ Err (SettleErr.Drive unit event)
        → IsEvent unit event }
{
    match settled {
        Ok(()) => None,
        Err(SettleErr::Worn { wanted, have }) => Some(Trouble::Worn { wanted, have }),
        Err(SettleErr::Drive { unit, event }) => Some(Trouble::Drive { unit, event }),
    }
}
