//! Runs the commands of a thread.
ghost use Rattle.std.specs.Prelude.{ℕ, List, ◌∷◌, [], ◌++◌, ◌≡◌, ◌+◌, ◌≤◌, ◌<◌, length, IfOk};
ghost use Rattle.std.specs.List.{AllByRecursion};
ghost use Rattle.std.specs.Vec.{vec_len, vec_capacity};
ghost use Rattle.pblk_model.specs.Script.{CommandFits};
ghost use Rattle.run_threads.specs.Board.{IsSeatOf};
ghost use Rattle.run_threads.specs.Desk.{HasRoom, IsReady};
ghost use Rattle.run_threads.specs.Names.{told_by};
ghost use Rattle.run_threads.specs.Rooms.{HasWordRoom, HaveWordRoom};
ghost use Rattle.run_threads.specs.Rule.{AreTold};
ghost use Rattle.run_threads.specs.Run.{Runs};

use crate::board::Board;
use crate::command::run_command;
use crate::records::{Answer, Word};
use crate::view::View;
use atomic_table::Seat;
use block_port::Port;
use pblk_model::Command;
use std::alloc::{AllocError, Global};
use std::mem;
use std::sync::Wait;

/// A command has at most 16 sectors, each of at most 4096 bytes.
const MOST_BYTES: usize = 65_536;

/// What a thread has for its run besides its port: all its memory, and its seat at the board.
#[derive(Drop)]
pub(crate) struct Desk {
    /// Its seat at the board.
    pub(crate) seat: Seat<(), View>,
    // for the words of each command
    rooms: Vec<Vec<Word>>,
    // for the sectors of a command
    bytes: Vec<u8>,
    /// What it was answered so far, with room for what is still to come.
    pub(crate) answers: Vec<Answer>,
}

// Room for the words of each command.
fn rooms(alloc: Global, commands: &[Command]) -> Result<Vec<Vec<Word>>, AllocError>
    ensures { IfOk result (λ rooms. HaveWordRoom commands.now rooms.items) }
{
    let mut rooms = Vec::new(alloc);
    for command in commands {
        rooms.push(room(alloc, command)?)?;
    }
    Ok(rooms)
}

// Room for the words of a command.
fn room(alloc: Global, command: &Command) -> Result<Vec<Word>, AllocError>
    ensures { IfOk result (λ words. HasWordRoom command.now words) }
{
    match command {
        Command::Read { count, .. } => Vec::with_capacity(alloc, *count as usize),
        _ => Ok(Vec::new(alloc)),
    }
}

// So many bytes.
fn buffer(alloc: Global, count: usize) -> Result<Vec<u8>, AllocError>
    requires { count ≤ 65536 }
    ensures { IfOk result (λ bytes. length bytes.items ≡ count) }
{
    vec![in alloc; 0; count]
}

// Adds an answer to a list that has room for it.
fn append(answers: &mut Vec<Answer>, answer: Answer)
    requires { vec_len answers.old < vec_capacity answers.old }
    ensures items { answers.new.items ≡ answers.old.items ++ answer ∷ [] }
    ensures room { vec_capacity answers.old ≤ vec_capacity answers.new }
    ensures len { vec_len answers.new ≡ vec_len answers.old + 1 }
{
    answers.push(answer).unwrap();
}

impl Desk {
    /// A desk with room for these commands.
    pub(crate) fn new(
        alloc: Global,
        commands: &[Command],
        seat: Seat<(), View>,
    ) -> Result<Desk, AllocError>
        ensures room { IfOk result (λ desk. HasRoom commands.now desk) }
        ensures seat { IfOk result (λ desk. desk.seat ≡ seat) }
    {
        Ok(Desk {
            seat,
            rooms: rooms(alloc, commands)?,
            bytes: buffer(alloc, MOST_BYTES)?,
            answers: Vec::with_capacity(alloc, commands.len())?,
        })
    }

    /// Runs the commands of the thread, one after another, and adds their answers to the list.
    /// Takes no memory.
    pub(crate) fn run<R: Wait, P: Port>(
        &mut self,
        rt: &R,
        board: &Board,
        commands: &[Command],
        port: &mut P,
    )
        requires ready { IsReady board.now commands.now self.old }
        requires fits { AllByRecursion (CommandFits (P.model port.old).capacity) commands.now }
        ensures of { IsSeatOf board.now self.new.seat }
        ensures ran { (at : ℕ → ℕ) → AreTold at self.new.seat.me.0.known
            → Runs (told_by board.now.names at) (P.model port.old) commands.now
            self.new.answers.items (P.model port.new) }
    {
        for index in 0..commands.len() {
            let blank = Vec::new(*self.rooms.allocator());
            let words = mem::replace(&mut self.rooms[index], blank);
            let command = &commands[index];
            let answer = run_command(
                rt,
                board,
                command,
                port,
                words,
                &mut self.bytes,
                &mut self.seat,
            );
            append(&mut self.answers, answer);
        }
    }
}
