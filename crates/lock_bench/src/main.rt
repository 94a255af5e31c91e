//! Measures how long it takes to lock a place, count its number up and unlock it: by locks by
//! number, and beside them by a `Mutex` of the library for each place. Each thread has a place of
//! its own.
//!
//! The words are the number of threads, 1 to 128, how often each of them locks its place, and
//! perhaps a way, `numbered` or `mutexes`. A line for each way has its name, how often a number was
//! counted up, and how many places counted what they should. With a way its line alone is printed,
//! which has the nanoseconds at its end.
#![tactic(auto)]

ghost use Rattle.std.specs.Prelude.{◌≡◌, ◌<◌, ◌≤◌};

mod mutexes;
mod numbered;

use anyhow::{Context, Result, bail, ensure};
use pblk_outside::real_words;
use std::alloc::Global;
use std::rt::Clock;
use std::sync::Wait;
use std::thread::Threads;
use std::time::Duration;

/// The places of two threads are so far from each other, so that they share no cache line.
pub(crate) const APART: usize = 8;

/// What the words ask for.
#[derive(Clone, Copy, Debug)]
pub(crate) struct Asked {
    /// How many threads there are, each with a place of its own.
    pub(crate) threads: u32,
    /// How often each of them locks its place.
    pub(crate) turns: u32,
    // The way that is timed, where it is one alone.
    timed: Option<Way>,
    ghost some: { 0 < threads },
    ghost few: { threads ≤ 128 },
}

impl Asked {
    /// How many of the places that threads use counted what they should.
    pub(crate) fn right(&self, counts: &[u64]) -> u64 {
        let mut right = 0u64;
        for thread in 0..self.threads as usize {
            let count = counts.get(thread.wrapping_mul(APART)).copied();
            right = right.wrapping_add(u64::from(count == Some(u64::from(self.turns))));
        }
        right
    }
}

/// By which way the places are locked.
#[derive(Clone, Copy, Debug)]
enum Way {
    Numbered,
    Mutexes,
}

fn number_in(word: &str) -> Result<u32> {
    Ok(word.parse::<u32>().context("a number")?)
}

fn way_in(word: &str) -> Result<Way> {
    match word {
        "numbered" => Ok(Way::Numbered),
        "mutexes" => Ok(Way::Mutexes),
        _ => bail!("numbered or mutexes"),
    }
}

fn asked_by(words: &[String]) -> Result<Asked> {
    ensure!(
        words.len() == 2 || words.len() == 3,
        "how many threads and turns, and perhaps a way"
    );
    let threads = number_in(words[0].as_str())?;
    let turns = number_in(words[1].as_str())?;
    ensure!(1 <= threads && threads <= 128, "1 to 128 threads");
    let timed = match words.get(2) {
        Some(word) => Some(way_in(word.as_str())?),
        None => None,
    };
    Ok(Asked {
        threads,
        turns,
        timed,
    })
}

fn nanos(time: Duration) -> u64 {
    time.as_secs()
        .saturating_mul(1_000_000_000)
        .saturating_add(u64::from(time.subsec_nanos()))
}

// Measures one way, and prints its line.
fn measure<R: Threads + Wait + Sync + Clock + Print>(
    rt: &R,
    alloc: Global,
    asked: Asked,
    way: Way,
) -> Result<()> {
    let start = rt.monotonic()?;
    let (name, right) = match way {
        Way::Numbered => ("numbered", numbered::count_up(rt, alloc, asked)?),
        Way::Mutexes => ("mutexes", mutexes::count_up(rt, alloc, asked)?),
    };
    let time = nanos(rt.monotonic()?.saturating_sub(start));
    let all = u64::from(asked.threads) * u64::from(asked.turns);
    match asked.timed {
        Some(_) => println!(rt; "{name} {all} {right} {time}")?,
        None => println!(rt; "{name} {all} {right}")?,
    }
    Ok(())
}

fn main(rt: HostRuntime) -> Result<()> {
    let alloc = rt.alloc();
    let words = real_words(alloc, &rt)?;
    let asked = asked_by(&words)?;
    if let Some(way) = asked.timed {
        return measure(&rt, alloc, asked, way);
    }
    measure(&rt, alloc, asked, Way::Numbered)?;
    measure(&rt, alloc, asked, Way::Mutexes)
}
