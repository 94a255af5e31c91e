//! Measures how long sessions of a target take to write and to read, each in a thread of its own,
//! on units in memory: eight units of 16 chunks, with sectors of 4096 bytes.
//!
//! The words are the number of sessions, 1 to 4, how often each of them does a thing, and perhaps
//! `times`. A line for each thing has its name, how often it was done in all, and the nanoseconds
//! that the slowest session took. Without `times` there stands in place of the nanoseconds how
//! often it was done rightly. `write` writes 16 sectors, `cached` reads a sector that was written
//! just before, and `written` reads one that is on the drive. `cached16` and `written16` read 16
//! sectors at once so.
//!
//! Then come lines for the pieces of work of one worker, while one session writes at random. As
//! many pieces are asked for as each session did a thing. A line has the name of a kind, how many
//! pieces were of it, and the nanoseconds that all of them took. In a `look` nothing was done.
#![tactic(auto)]

ghost use Rattle.std.specs.Prelude.{◌≡◌, ◌≤◌, length, IfOk};

mod bench_drive;
mod moments;
mod phases;
mod pieces;

use crate::bench_drive::units;
use crate::phases::{Phase, Task};
use crate::pieces::Piece;
use anyhow::{Context, Result, ensure};
use pblk_outside::real_words;
use std::alloc::Global;
use std::rt::Clock;
use std::sync::Wait;
use std::sync::atomic::AtomicU64;
use std::thread::Threads;
use target_crew::serve;

/// What the words ask for.
#[derive(Clone, Copy, Debug)]
struct Asked {
    sessions: u32,
    turns: u32,
    has_times: bool,
    ghost some: { 1 ≤ sessions },
    ghost few: { sessions ≤ 4 },
}

fn number_in(word: &str) -> Result<u32> {
    Ok(word.parse::<u32>().context("a number")?)
}

fn asked_by(words: &[String]) -> Result<Asked> {
    ensure!(
        words.len() == 2 || words.len() == 3,
        "how many sessions and turns, and perhaps times"
    );
    let sessions = number_in(words[0].as_str())?;
    let turns = number_in(words[1].as_str())?;
    ensure!(1 <= sessions && sessions <= 4, "1 to 4 sessions");
    Ok(Asked {
        sessions,
        turns,
        has_times: words.len() == 3,
    })
}

// The sessions that are to do a thing.
fn phases_of<'r, R: Clock>(
    rt: &'r R,
    alloc: Global,
    ready: &'r AtomicU64,
    asked: Asked,
    task: Task,
) -> Result<Vec<Phase<'r, R>>>
    ensures { IfOk result (λ ps. length ps.items ≡ asked.sessions) }
{
    let mut phases = Vec::with_capacity(alloc, asked.sessions as usize)?;
    for number in 0..asked.sessions {
        phases.push(Phase::new(alloc, rt, ready, task, number, asked.sessions, asked.turns)?)?;
    }
    Ok(phases)
}

// Measures one thing, and prints its line.
fn measure<R: Threads + Wait + Sync + Clock + Print>(
    rt: &R,
    alloc: Global,
    asked: Asked,
    task: Task,
    name: &str,
) -> Result<()> {
    let ready = AtomicU64::new(0);
    let phases = phases_of(rt, alloc, &ready, asked, task)?;
    let (shape, units) = units(alloc)?;
    let closed = serve(rt, alloc, units, &shape, phases)?;
    let mut right = 0u64;
    let mut longest = 0u64;
    for phase in closed.works.as_slice() {
        right = right.wrapping_add(phase.right);
        longest = longest.max(phase.nanos);
    }
    let done = u64::from(asked.sessions) * u64::from(asked.turns);
    let last = if asked.has_times { longest } else { right };
    println!(rt; "{name} {done} {last}")?;
    Ok(())
}

// Prints the line of a kind of work.
fn tell<R: Print>(rt: &R, asked: Asked, name: &str, piece: Piece) -> Result<()> {
    let last = if asked.has_times {
        piece.nanos
    } else {
        piece.count
    };
    println!(rt; "{name} {} {last}", piece.count)?;
    Ok(())
}

fn main(rt: HostRuntime) -> Result<()> {
    let alloc = rt.alloc();
    let words = real_words(alloc, &rt)?;
    let asked = asked_by(&words)?;
    measure(&rt, alloc, asked, Task::Write, "write")?;
    measure(&rt, alloc, asked, Task::Cached, "cached")?;
    measure(&rt, alloc, asked, Task::Written, "written")?;
    measure(&rt, alloc, asked, Task::CachedRun, "cached16")?;
    measure(&rt, alloc, asked, Task::WrittenRun, "written16")?;
    let pieces = pieces::measure(&rt, alloc, asked.turns)?;
    tell(&rt, asked, "program", pieces.programs)?;
    tell(&rt, asked, "opening", pieces.openings)?;
    tell(&rt, asked, "copy", pieces.copies)?;
    tell(&rt, asked, "reset", pieces.resets)?;
    tell(&rt, asked, "look", pieces.looks)
}
