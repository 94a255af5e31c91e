//! Measures how fast writers, each in a thread of its own, hand sectors over to one reader: by way of a write
//! ring, and beside it by way of the ring for one writer of the crate `rtrb`, and of a channel.
//!
//! The words are the number of writers, how many sectors each of them puts at once, 1 to 16, how often it does
//! so, and perhaps `times`. A line for each way has its name, how many sectors came, and the nanoseconds.
//! Without `times` there stands in place of the nanoseconds how many of them were the right ones. `rtrb` has one
//! writer whatever is asked for, and it and the channel take one sector at a time.
#![tactic(auto)]

ghost use Rattle.std.specs.Prelude.{◌<◌, ◌≤◌};

mod channel;
mod one_writer;

use anyhow::{Context, Result, ensure};
use pblk_outside::real_words;
use ring_crew::{Job, Tally, make_and_take};
use std::alloc::Global;
use std::rt::Clock;
use std::sync::Wait;
use std::thread::Threads;
use std::time::Duration;

/// How many bytes a sector has.
pub(crate) const SECTOR: usize = 4096;

/// For how many sectors each way has room.
pub(crate) const ROOM: u32 = 2048;

/// What the words ask for.
#[derive(Clone, Copy, Debug)]
struct Asked {
    writers: u8,
    batch: u32,
    turns: u32,
    has_times: bool,
    ghost few: { writers < 127 },
    ghost some: { 0 < batch },
    ghost most: { batch ≤ 16 },
}

/// By which way sectors are handed over.
#[derive(Clone, Copy, Debug)]
enum Way {
    Ring,
    OneWriter,
    Channel,
}

fn number_in(word: &str) -> Result<u32> {
    Ok(word.parse::<u32>().context("a number")?)
}

fn asked_by(words: &[String]) -> Result<Asked> {
    ensure!(
        words.len() == 3 || words.len() == 4,
        "how many writers, sectors at once and turns, and perhaps times"
    );
    let writers = number_in(words[0].as_str())?;
    let batch = number_in(words[1].as_str())?;
    let turns = number_in(words[2].as_str())?;
    ensure!(writers <= 126, "at most 126 writers");
    ensure!(1 <= batch && batch <= 16, "1 to 16 sectors at once");
    Ok(Asked {
        writers: writers as u8,
        batch,
        turns,
        has_times: words.len() == 4,
    })
}

fn hand_over<R: Threads + Wait + Sync>(
    rt: &R,
    alloc: Global,
    asked: Asked,
    way: Way,
) -> Result<Tally> {
    let writers = asked.writers;
    let turns = asked.turns.saturating_mul(asked.batch);
    match way {
        Way::Ring => {
            let job = Job {
                size: ROOM,
                sector: SECTOR as u32,
                makers: writers,
                batch: asked.batch,
                turns: asked.turns,
                looks: false,
            };
            Ok(make_and_take(rt, alloc, job)?)
        }
        Way::OneWriter => one_writer::hand_over(rt, alloc, turns),
        Way::Channel => channel::hand_over(rt, alloc, writers, turns),
    }
}

fn nanos(time: Duration) -> u64 {
    time.as_secs()
        .saturating_mul(1_000_000_000)
        .saturating_add(u64::from(time.subsec_nanos()))
}

// Measures one way, and prints its line.
fn measure<R: Threads + Wait + Sync + Clock + Print>(
    rt: &R,
    alloc: Global,
    asked: Asked,
    way: Way,
    name: &str,
) -> Result<()> {
    let start = rt.monotonic()?;
    let tally = hand_over(rt, alloc, asked, way)?;
    let time = nanos(rt.monotonic()?.saturating_sub(start));
    let last = if asked.has_times { time } else { tally.right };
    println!(rt; "{name} {} {last}", tally.taken)?;
    Ok(())
}

fn main(rt: HostRuntime) -> Result<()> {
    let alloc = rt.alloc();
    let words = real_words(alloc, &rt)?;
    let asked = asked_by(&words)?;
    measure(&rt, alloc, asked, Way::Ring, "ring")?;
    measure(&rt, alloc, asked, Way::OneWriter, "rtrb")?;
    measure(&rt, alloc, asked, Way::Channel, "channel")
}
