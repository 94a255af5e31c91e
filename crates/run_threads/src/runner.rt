//! Runs a script.
ghost use Rattle.std.specs.Prelude.{ℕ, List, ◌≡◌, ◌≤◌, ◌<◌, ◌++◌, ◌∷◌, [], length, map, slice_get, Some, None, IfOk, IfErr};
ghost use Rattle.std.specs.List.{AllByRecursion};
ghost use Rattle.std.specs.Vec.{vec_capacity};
ghost use Rattle.block_port.specs.Port.{ModelPort};
ghost use Rattle.pblk_model.specs.declared.script.Command.{Command};
ghost use Rattle.pblk_model.specs.Script.{ScriptFits};
ghost use Rattle.run_threads.specs.Board.{IsSeatOf, words_of};
ghost use Rattle.run_threads.specs.Run.{IsAcceptedFor, WereRun};
ghost use Rattle.run_threads.specs.declared.runner.Prepared.{Prepared as PreparedOf};
ghost use Rattle.run_threads.specs.Threads.{CanAllRun, CanRun, HasRun, HasWorked, HaveRun, IsPrepared, IsReadyStage, IsTold, WasPrepared, ports_of, row_of, script_of};

use crate::board::Board;
use crate::desk::Desk;
use crate::records::{Answers, Records, ThreadRows};
use crate::view::View;
use atomic_table::Seat;
use block_port::Port;
use pblk_model::{Commands, Script};
use std::alloc::{AllocError, Global};
use std::sync::Wait;
use std::thread::{Threads, for_each_mut};

/// All memory of a run, with the board and its seats.
#[derive(Drop)]
struct Stage {
    board: Board,
    // the runner's own seat
    seat: Seat<(), View>,
    // by thread
    desks: Vec<Desk>,
    // for what each thread was answered
    rows: Vec<Answers>,
}

/// A thread of a script.
struct Thread<P> {
    port: P,
    desk: Desk,
}

impl Stage {
    // For the threads of this script.
    fn new(alloc: Global, script: &Script) -> Result<Stage, AllocError>
        requires fits { (capacity : ℕ) × ScriptFits capacity script.now }
        ensures { IfOk result (λ stage. IsReadyStage script.now stage) }
    {
        let (board, mut seat) = Board::new(alloc, script)?;
        let mut desks = Vec::new(alloc);
        for thread in script.as_slice() {
            let commands = thread.as_slice();
            let share = board.seat_for(&mut seat, commands);
            desks.push(Desk::new(alloc, commands, share)?)?;
        }
        Ok(Stage {
            board,
            seat,
            desks,
            rows: Vec::with_capacity(alloc, script.as_slice().len())?,
        })
    }
}

impl<P: Port> Thread<P> {
    // Runs the commands of the thread, one after another.
    fn run<R: Wait>(&mut self, rt: &R, board: &Board, commands: &Commands)
        requires { CanRun P.model board.now commands.now self.old }
        ensures { HasRun P.model board.now commands.now self.old self.new }
    {
        self.desk
            .run(rt, board, commands.as_slice(), &mut self.port);
    }
}

// Puts a value behind the others.
fn put<T>(values: &mut Vec<T>, value: T)
    requires room { length values.old.items < vec_capacity values.old }
    ensures items { values.new.items ≡ values.old.items ++ value ∷ [] }
    ensures capacity { vec_capacity values.old ≤ vec_capacity values.new }
{
    values.push(value).unwrap();
}

// Takes the first of some values.
fn take_first<T>(values: &mut Vec<T>) -> T
    requires some { 0 < length values.old.items }
    ensures items { values.old.items ≡ result ∷ values.new.items }
    ensures capacity { vec_capacity values.new ≡ vec_capacity values.old }
{
    values.remove(0)
}

// Gives each desk its port.
fn seat_all<P>(desks: Vec<Desk>, ports: &mut Vec<P>, threads: &mut Vec<Thread<P>>)
    requires count { length desks.items ≡ length ports.old.items }
    requires empty { threads.old.items ≡ [] }
    requires room { length ports.old.items ≤ vec_capacity threads.old }
    ensures ports { map (λ t. t.port) threads.new.items ≡ ports.old.items }
    ensures desks { map (λ t. t.desk) threads.new.items ≡ desks.items }
    ensures left { ports.new.items ≡ [] }
    ensures capacity { vec_capacity ports.new ≡ vec_capacity ports.old }
{
    let mut desks = desks;
    while !ports.is_empty() {
        let port = take_first(ports);
        let desk = take_first(&mut desks);
        put(threads, Thread { port, desk });
    }
}

// Runs each thread, in a thread of its own.
fn run_all<R: Threads + Wait + Sync, P: Port + Send>(
    rt: &R,
    board: &Board,
    script: &[Commands],
    threads: &mut Vec<Thread<P>>,
)
    requires count { length threads.old.items ≡ length script.now }
    requires ready { CanAllRun P.model board.now script.now threads.old.items }
    ensures ran { HaveRun P.model board.now script.now threads.old.items threads.new.items }
    ensures count { length threads.new.items ≡ length threads.old.items }
{
    let count = script.len().max(1);
    for_each_mut(
        rt,
        threads.as_mut_slice(),
        count,
        &|index: usize, thread: &mut Thread<P>|
            requires { (commands : List Command) × (slice_get script.now index ≡ Some commands)
                × CanRun P.model board.now commands thread.now }
            ensures { (commands : List Command) → slice_get script.entry.now index ≡ Some commands
                → HasRun P.model board.entry.now commands thread.entry.now thread.exit.now }
        { thread.run(rt, board, &script[index]) },
    );
}

// Takes the threads apart: what each was answered, and the ports. Tells what was posted.
fn end_all<P>(
    board: &Board,
    seat: Seat<(), View>,
    threads: Vec<Thread<P>>,
    rows: &mut Vec<Answers>,
    ports: &mut Vec<P>,
)
    requires of { IsSeatOf board.now seat }
    requires words { 0 < words_of board.now }
    requires seats { AllByRecursion (λ t. IsSeatOf board.now t.desk.seat) threads.items }
    requires no_row { rows.old.items ≡ [] }
    requires no_port { ports.old.items ≡ [] }
    requires rows_room { length threads.items ≤ vec_capacity rows.old }
    requires ports_room { length threads.items ≤ vec_capacity ports.old }
    ensures rows { rows.new.items ≡ map row_of threads.items }
    ensures ports { ports.new.items ≡ map (λ t. t.port) threads.items }
    ensures told { (at : ℕ → ℕ) × AllByRecursion (IsTold at) threads.items }
{
    let mut seat = seat;
    let mut threads = threads;
    while !threads.is_empty() {
        let Thread { port, desk } = take_first(&mut threads);
        put(ports, port);
        let Desk {
            seat: other,
            answers,
            ..
        } = desk;
        put(rows, Answers::new(answers));
        board.join(&mut seat, other);
    }
    threads.destroy_empty();
    board.look(&mut seat);
}

// The records of threads that were run.
fn records(threads: ThreadRows) -> Records
    ensures { result ≡ record { threads = threads; opening = None; closing = None } }
{
    Records {
        threads,
        opening: None,
        closing: None,
    }
}

/// A script that is ready to run through ports: all memory of its run is taken.
pub struct Prepared<'s, P> {
    script: &'s Script,
    board: Board,
    // the runner's own seat
    seat: Seat<(), View>,
    threads: Vec<Thread<P>>,
    // for what each thread was answered
    rows: Vec<Answers>,
    // for the ports once they come back
    ports: Vec<P>,
}

/// Takes all memory of a run of a script through ports, one for each thread of the script. For want
/// of it the ports come back as they were.
///
/// The script was accepted for a capacity that is at most that of each port.
pub fn prepare<'s, P: Port>(
    alloc: Global,
    script: &'s Script,
    ports: Vec<P>,
) -> Result<Prepared<'s, P>, (AllocError, Vec<P>)>
    requires ports { length ports.items ≡ length script.now }
    requires accepted { IsAcceptedFor script.now (map P.model ports.items) }
    ensures script { IfOk result (λ prepared. script_of prepared ≡ script.now) }
    ensures ports { IfOk result (λ prepared. ports_of P.model prepared
        ≡ map P.model ports.items) }
    ensures prepared { IfOk result (λ prepared. IsPrepared P.model prepared) }
    ensures err { IfErr result (λ e. e.1.items ≡ ports.items) }
{
    let Ok(stage) = Stage::new(alloc, script) else {
        return Err((AllocError, ports));
    };
    let Ok(threads) = Vec::with_capacity(alloc, ports.len()) else {
        return Err((AllocError, ports));
    };
    let Stage {
        board,
        seat,
        desks,
        rows,
    } = stage;
    let mut ports = ports;
    let mut threads = threads;
    seat_all(desks, &mut ports, &mut threads);
    Ok(Prepared {
        script,
        board,
        seat,
        threads,
        rows,
        ports,
    })
}

impl<P: Port> Prepared<'_, P> {
    /// Runs each thread of the script in a thread of its own where one can be made. Takes no
    /// memory. It is for a script that was just prepared.
    ///
    /// A thread goes on after a command that wasn't made.
    ///
    /// Each command has the answer of its kind: a write its place, a read its front and the words
    /// of its sectors there, a flush its front, a post and an await `Done`; or the trouble that its
    /// port answered. A front holds all that the thread has seen, and a write stands past that. An
    /// await hears what the post of its name told, in whichever thread, and waits until it has.
    pub fn run<R: Threads + Wait + Sync>(&mut self, rt: &R)
    where
        P: Send,
        requires { IsPrepared P.model self.old }
        ensures { HasWorked P.model self.old self.new }
    {
        run_all(rt, &self.board, self.script.as_slice(), &mut self.threads);
    }

    /// Ends a script that was run: gives what each command was answered, and the ports. The opening
    /// and the close of the device are no work of this call, so their records are None.
    pub fn end(self) -> (Records, Vec<P>)
        requires { WasPrepared P.model self }
        ensures { (old : PreparedOf _) → HasWorked P.model old self.entry
            → WereRun (script_of old) result.0 (ports_of P.model old)
            (map P.model result.1.items) }
    {
        let Prepared {
            script: _,
            board,
            seat,
            threads,
            mut rows,
            mut ports,
        } = self;
        end_all(&board, seat, threads, &mut rows, &mut ports);
        (records(ThreadRows::new(rows)), ports)
    }
}

/// Runs a script through ports, as `prepare`, `Prepared::run` and `Prepared::end` do.
///
/// All memory is taken before the first command runs. For want of it the ports come back as they
/// were, and no command was run.
pub fn run<R: Threads + Wait + Sync, P: Port + Send>(
    rt: &R,
    alloc: Global,
    script: &Script,
    ports: Vec<P>,
) -> Result<(Records, Vec<P>), (AllocError, Vec<P>)>
    requires ports { length ports.items ≡ length script.now }
    requires accepted { IsAcceptedFor script.now (map P.model ports.items) }
    ensures run { IfOk result (λ ran.
        WereRun script.now ran.0 (map P.model ports.items) (map P.model ran.1.items)) }
    ensures err { IfErr result (λ e. e.1.items ≡ ports.items) }
{
    match prepare(alloc, script, ports) {
        Ok(mut prepared) => {
            prepared.run(rt);
            Ok(prepared.end())
        }
        Err(e) => Err(e),
    }
}
