//! Runs a command through a port.
ghost use Rattle.std.specs.Prelude.{ℕ, List, [], ◌≡◌, ◌+◌, ◌*◌, ◌≤◌, ◌<◌, Some, length};
ghost use Rattle.std.specs.Vec.{vec_capacity};
ghost use Rattle.block_port.specs.Port.{ModelPort};
ghost use Rattle.pblk_model.specs.Script.{CommandFits, IsRange};
ghost use Rattle.pblk_model.specs.declared.script.Command.TheVariants as commands;
ghost use Rattle.run_threads.specs.Board.{IsSeatOf, MayRun, words_of};
ghost use Rattle.run_threads.specs.Names.{HasWord, told_by, word_after, word_of};
ghost use Rattle.run_threads.specs.Rooms.{HasWordRoom};
ghost use Rattle.run_threads.specs.Rule.{AreTold};
ghost use Rattle.run_threads.specs.Run.{Answers};

use crate::board::Board;
use crate::records::{Answer, Trouble, Word, Words};
use crate::sectors::{fill, put_words};
use crate::view::View;
use atomic_table::Seat;
use block_port::{FlushErr, Port, ReadErr, WriteErr};
use pblk_model::{Command, PostName};
use std::sync::Wait;

// Writes `count` sectors of a tag from `lba` on. `bytes` has room for 16 sectors.
fn write<R: Wait, P: Port>(
    rt: &R,
    port: &mut P,
    lba: u64,
    count: u32,
    tag: u64,
    bytes: &mut [u8],
) -> Answer
    requires range { IsRange (P.model port.old).capacity lba count }
    requires bytes { length bytes.old ≡ 65536 }
    ensures answer { (told : List ℕ → ℕ)
        → Answers told (P.model port.old) (commands.Write lba count tag) result (P.model port.new) }
    ensures bytes { length bytes.new ≡ 65536 }
{
    let size = port.sector() as usize;
    let sectors = &mut bytes[..count as usize * size];
    fill(sectors, size, count as usize, tag);
    match port.write(rt, lba, sectors) {
        Ok(place) => Answer::Placed(place),
        Err(WriteErr::Range) => unreachable!(),
        Err(WriteErr::Drive { unit, event }) => Answer::Refused(Trouble::Drive { unit, event }),
        Err(WriteErr::Worn { wanted, have }) => Answer::Refused(Trouble::Worn { wanted, have }),
    }
}

// Reads `count` sectors from `lba` on, and adds their words to the list, which is empty and has
// room for them.
fn read<R: Wait, P: Port>(
    rt: &R,
    port: &mut P,
    lba: u64,
    count: u32,
    words: Vec<Word>,
    bytes: &mut [u8],
) -> Answer
    requires range { IsRange (P.model port.old).capacity lba count }
    requires bytes { length bytes.old ≡ 65536 }
    requires empty { words.items ≡ [] }
    requires room { count ≤ vec_capacity words }
    ensures answer { (told : List ℕ → ℕ)
        → Answers told (P.model port.old) (commands.Read lba count) result (P.model port.new) }
    ensures bytes { length bytes.new ≡ 65536 }
{
    let mut words = words;
    let size = port.sector() as usize;
    let sectors = &mut bytes[..count as usize * size];
    match port.read(rt, lba, sectors) {
        Ok(front) => {
            put_words(&mut words, sectors, size, count as usize);
            Answer::Words {
                front,
                words: Words::new(words),
            }
        }
        Err(ReadErr::Range) => unreachable!(),
        Err(ReadErr::Drive { unit, event }) => Answer::Refused(Trouble::Drive { unit, event }),
    }
}

// Flushes.
fn flush<R: Wait, P: Port>(rt: &R, port: &mut P) -> Answer
    ensures { (told : List ℕ → ℕ)
        → Answers told (P.model port.old) commands.Flush result (P.model port.new) }
{
    match port.flush(rt) {
        Ok(front) => Answer::Synced(front),
        Err(FlushErr::Drive { unit, event }) => Answer::Refused(Trouble::Drive { unit, event }),
        Err(FlushErr::Worn { wanted, have }) => Answer::Refused(Trouble::Worn { wanted, have }),
    }
}

// Posts what the port has seen under a name.
fn post<P: Port>(board: &Board, seat: &mut Seat<(), View>, port: &P, name: &PostName) -> Answer
    requires of { IsSeatOf board.now seat.old }
    requires word { word_of board.now.names name.now ≡ Some seat.old.me.0.next }
    requires may { seat.old.me.0.next < seat.old.me.0.past }
    requires within { seat.old.me.0.past ≤ words_of board.now }
    ensures of { IsSeatOf board.now seat.new }
    ensures answer { (at : ℕ → ℕ) → AreTold at seat.new.me.0.known
        → Answers (told_by board.now.names at) (P.model port.now) (commands.Post name.now) result
        (P.model port.now) }
    ensures known { (at : ℕ → ℕ) → AreTold at seat.new.me.0.known
        → AreTold at seat.old.me.0.known }
    ensures next { seat.new.me.0.next ≡ seat.old.me.0.next + 1 }
    ensures past { seat.new.me.0.past ≡ seat.old.me.0.past }
{
    board.post(seat, name.as_str(), port.tell());
    Answer::Done
}

// Hears what is posted under a name, once it is.
fn hear<R: Wait, P: Port>(
    rt: &R,
    board: &Board,
    seat: &mut Seat<(), View>,
    port: &mut P,
    name: &PostName,
) -> Answer
    requires of { IsSeatOf board.now seat.old }
    requires word { HasWord board.now.names (words_of board.now) name.now }
    ensures of { IsSeatOf board.now seat.new }
    ensures answer { (at : ℕ → ℕ) → AreTold at seat.new.me.0.known
        → Answers (told_by board.now.names at) (P.model port.old) (commands.Await name.now) result
        (P.model port.new) }
    ensures known { (at : ℕ → ℕ) → AreTold at seat.new.me.0.known
        → AreTold at seat.old.me.0.known }
    ensures next { seat.new.me.0.next ≡ seat.old.me.0.next }
    ensures past { seat.new.me.0.past ≡ seat.old.me.0.past }
    ensures capacity { (P.model port.new).capacity ≡ (P.model port.old).capacity }
{
    let note = board.hear(rt, seat, name.as_str());
    port.hear(note);
    Answer::Done
}

/// Runs a command. `words` has room for those of a read, and `bytes` for 16 sectors. A post has the
/// seat's next word, and an await waits until its name is posted.
pub(crate) fn run_command<R: Wait, P: Port>(
    rt: &R,
    board: &Board,
    command: &Command,
    port: &mut P,
    words: Vec<Word>,
    bytes: &mut [u8],
    seat: &mut Seat<(), View>,
) -> Answer
    requires fits { CommandFits (P.model port.old).capacity command.now }
    requires room { HasWordRoom command.now words }
    requires bytes { length bytes.old ≡ 65536 }
    requires of { IsSeatOf board.now seat.old }
    requires may { MayRun board.now seat.old.me.0 command.now }
    ensures answer { (at : ℕ → ℕ) → AreTold at seat.new.me.0.known
        → Answers (told_by board.now.names at) (P.model port.old) command.now result
        (P.model port.new) }
    ensures bytes { length bytes.new ≡ 65536 }
    ensures of { IsSeatOf board.now seat.new }
    ensures known { (at : ℕ → ℕ) → AreTold at seat.new.me.0.known
        → AreTold at seat.old.me.0.known }
    ensures next { seat.new.me.0.next ≡ word_after seat.old.me.0.next command.now }
    ensures past { seat.new.me.0.past ≡ seat.old.me.0.past }
    ensures capacity { (P.model port.new).capacity ≡ (P.model port.old).capacity }
{
    match command {
        Command::Write { lba, count, tag } => write(rt, port, *lba, *count, *tag, bytes),
        Command::Read { lba, count } => read(rt, port, *lba, *count, words, bytes),
        Command::Flush => flush(rt, port),
        Command::Post(name) => post(board, seat, port, name),
        Command::Await(name) => hear(rt, board, seat, port, name),
    }
}
