//! Two sessions of a small target, one call after the other.
ghost use Rattle.std.specs.Prelude.{◌≡◌, length, IfOk};

use crate::deeds::{SECTOR, fill, word_of};
use crate::drives::{SMALL, blank};
use block_target::{Note, Port, Session, TryWriteErr};
use pblk_engine::Mount;
use std::alloc::{AllocError, Global};
use std::sync::Wait;
use std::sync::atomic::{AtomicU64, Ordering};
use std::test::Fail;
use std::thread::{self, Threads};
use target_crew::{Work, armed, serve};
use unit_port::Unit;

// What a session is asked.
#[derive(Clone, Copy)]
enum Asked {
    // Writes a sector with this word if there is room.
    TryWrite(u64, u64),
    // Writes a sector with this word.
    Write(u64, u64),
    Read(u64),
    // Writes sectors one by one if there is room, so many of them.
    TryWrites(u64),
    Tell,
    Hear(u32),
}

// What it told.
#[derive(Clone, Copy, Debug, PartialEq)]
enum Told {
    // The position.
    Placed(u64),
    // The first and the last position, which stand one behind the other.
    AllPlaced(u64, u64),
    // The word, and the front's users and position.
    Word(u64, u64, u64),
    Seen(u64),
    Done,
    Range,
    Full(u64, u64),
    Raced(u64, u64),
    Refused,
}

// A session whose turns are those of its number among all rows.
#[derive(Drop)]
struct Reader<'a> {
    number: usize,
    rows: &'a [(usize, Asked, Told)],
    // which row is next
    turn: &'a AtomicU64,
    // the first row that was told something else, and what
    wrong: Option<(usize, Told)>,
}

fn try_write<M: Mount, U: Unit>(session: &mut Session<'_, M, U>, lba: u64, word: u64) -> Told
    requires sector { M.past.image.shape.sector ≡ 512 }
    ensures { session.new.worker.number ≡ session.old.worker.number }
{
    let mut bytes = [0; SECTOR];
    fill(&mut bytes, 1, word);
    match session.try_write(lba, &bytes) {
        Ok(place) => Told::Placed(place.first),
        Err(TryWriteErr::Range) => Told::Range,
        Err(TryWriteErr::Full { claimed, limit }) => Told::Full(claimed, limit),
        Err(TryWriteErr::Raced { expected, found }) => Told::Raced(expected, found),
    }
}

fn try_writes<M: Mount, U: Unit>(session: &mut Session<'_, M, U>, count: u64) -> Told
    requires sector { M.past.image.shape.sector ≡ 512 }
    ensures { session.new.worker.number ≡ session.old.worker.number }
{
    let mut first = None;
    let mut next = 0u64;
    for _index in 0..count {
        match try_write(session, 0, 1) {
            Told::Placed(position) if first.is_none() || position == next => {
                first = first.or(Some(position));
                next = position.wrapping_add(1);
            }
            other => return other,
        }
    }
    match first {
        Some(first) => Told::AllPlaced(first, next.wrapping_sub(1)),
        None => Told::Done,
    }
}

fn write<M: Mount, U: Unit, R: Wait>(
    rt: &R,
    session: &mut Session<'_, M, U>,
    lba: u64,
    word: u64,
) -> Told
    requires sector { M.past.image.shape.sector ≡ 512 }
    ensures { session.new.worker.number ≡ session.old.worker.number }
{
    let mut bytes = [0; SECTOR];
    fill(&mut bytes, 1, word);
    match session.write(rt, lba, &bytes) {
        Ok(place) => Told::Placed(place.first),
        Err(_) => Told::Refused,
    }
}

fn read<M: Mount, U: Unit, R: Wait>(rt: &R, session: &mut Session<'_, M, U>, lba: u64) -> Told
    requires sector { M.past.image.shape.sector ≡ 512 }
    ensures { session.new.worker.number ≡ session.old.worker.number }
{
    let mut bytes = [0; SECTOR];
    match session.read(rt, lba, &mut bytes) {
        Ok(front) => Told::Word(word_of(&bytes), front.users, front.position),
        Err(_) => Told::Refused,
    }
}

fn ask<M: Mount, U: Unit, R: Wait>(rt: &R, session: &mut Session<'_, M, U>, asked: Asked) -> Told
    requires sector { M.past.image.shape.sector ≡ 512 }
    ensures { session.new.worker.number ≡ session.old.worker.number }
{
    match asked {
        Asked::TryWrite(lba, word) => try_write(session, lba, word),
        Asked::TryWrites(count) => try_writes(session, count),
        Asked::Write(lba, word) => write(rt, session, lba, word),
        Asked::Read(lba) => read(rt, session, lba),
        Asked::Tell => Told::Seen(session.tell().position),
        Asked::Hear(position) => {
            session.hear(Note {
                position: u64::from(position),
            });
            Told::Done
        }
    }
}

// Waits until it is this row's turn.
fn wait_for<R: Wait>(rt: &R, turn: &AtomicU64, row: usize) {
    for _ in rt.forever() {
        if turn.load(Ordering::SeqCst) == row as u64 {
            return;
        }
        thread::yield_now();
    }
    unreachable!()
}

impl<U: Unit> Work<U> for Reader<'_> {
    fn work<M: Mount, R: Wait>(&mut self, rt: &R, session: &mut Session<'_, M, U>)
        ensures { session.new.worker.number ≡ session.old.worker.number }
    {
        if session.sector() as usize != SECTOR {
            return;
        }
        let rows = self.rows;
        let own = self.number;
        for row in 0..rows.len() {
            let (number, asked, told) = rows[row];
            if number == own {
                wait_for(rt, self.turn, row);
                let found = ask(rt, session, asked);
                if found != told && self.wrong.is_none() {
                    self.wrong = Some((row, found));
                }
                self.turn
                    .store((row as u64).wrapping_add(1), Ordering::SeqCst);
            }
        }
    }
}

// Both sessions.
fn readers<'a>(
    alloc: Global,
    rows: &'a [(usize, Asked, Told)],
    turn: &'a AtomicU64,
) -> Result<Vec<Reader<'a>>, AllocError>
    ensures { IfOk result (λ rs. length rs.items ≡ 2) }
{
    let mut readers = Vec::new(alloc);
    readers.push(Reader {
        number: 0,
        rows,
        turn,
        wrong: None,
    })?;
    readers.push(Reader {
        number: 1,
        rows,
        turn,
        wrong: None,
    })?;
    Ok(readers)
}

// What two sessions of a blank small target are asked, one after the other. Tells the first row
// that was told something else, and what.
fn run<R: Threads + Wait + Sync>(
    rt: &R,
    alloc: Global,
    rows: &[(usize, Asked, Told)],
) -> Result<Option<(usize, Told)>, Fail> {
    let turn = AtomicU64::new(0);
    let drive = blank(alloc, &SMALL)?;
    let (shape, units) = armed(alloc, drive, &[], None)?;
    let readers = readers(alloc, rows, &turn)?;
    let closed = serve(rt, alloc, units, &shape, readers)?;
    closed.settled?;
    let mut wrong = None;
    for reader in closed.works.as_slice() {
        wrong = wrong.or(reader.wrong);
    }
    Ok(wrong)
}

// Nobody pumps: `try_write` takes no lock and never waits.
#[test]
fn two_sessions_write_up_to_the_limit(rt: HostRuntime) -> Result<(), Fail> {
    let rows = [
        (0, Asked::TryWrites(30), Told::AllPlaced(0, 29)),
        (1, Asked::TryWrite(64, 1), Told::Range),
        (1, Asked::TryWrites(25), Told::AllPlaced(30, 54)),
        (0, Asked::Tell, Told::Seen(30)),
        (1, Asked::Tell, Told::Seen(55)),
        (0, Asked::TryWrite(63, 1), Told::Placed(55)),
        (0, Asked::TryWrite(0, 1), Told::Full(56, 56)),
        (1, Asked::TryWrite(0, 1), Told::Full(56, 56)),
        (1, Asked::Tell, Told::Seen(55)),
    ];
    assert_eq!(rt; run(&rt, rt.alloc(), &rows)?, None);
    Ok(())
}

#[test]
fn a_session_hears_what_another_wrote(rt: HostRuntime) -> Result<(), Fail> {
    let rows = [
        (0, Asked::Write(3, 7), Told::Placed(0)),
        (0, Asked::Tell, Told::Seen(1)),
        (1, Asked::Tell, Told::Seen(0)),
        (1, Asked::Hear(1), Told::Done),
        (1, Asked::Tell, Told::Seen(1)),
        (1, Asked::Read(3), Told::Word(7, 1, 1)),
        (1, Asked::Tell, Told::Seen(1)),
        (1, Asked::Write(3, 8), Told::Placed(1)),
        (0, Asked::Hear(2), Told::Done),
        (0, Asked::Write(4, 9), Told::Placed(2)),
        (0, Asked::Read(3), Told::Word(8, 3, 3)),
    ];
    assert_eq!(rt; run(&rt, rt.alloc(), &rows)?, None);
    Ok(())
}
