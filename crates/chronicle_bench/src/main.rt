//! Measures how long authors of a chronicle, each in a thread of its own, take to append an event,
//! and to append one and tell it to a token by a note; and beside it how long threads take to push
//! a number onto one list under a lock, and to send one over one channel that has room for all.
//!
//! The words are the number of threads, 1 to 8, how often each of them does so, and perhaps
//! `times`. A line for each way has its name, how often it was done in all, and the nanoseconds.
//! Without `times` nothing stands in their place.
#![tactic(auto)]

ghost use Rattle.std.specs.Prelude.{◌<◌, ◌≤◌};

mod others;

use anyhow::{Context, Result, ensure};
use chronicle_crew::{Job, Meets, run};
use pblk_outside::real_words;
use std::alloc::Global;
use std::rt::Clock;
use std::sync::Wait;
use std::thread::Threads;
use std::time::Duration;

/// What the words ask for.
#[derive(Clone, Copy, Debug)]
struct Asked {
    threads: u8,
    turns: u32,
    has_times: bool,
    ghost some: { 0 < threads },
    ghost most: { threads ≤ 8 },
}

/// What threads do.
#[derive(Clone, Copy, Debug)]
enum Way {
    Append,
    AppendAndTell,
    Lock,
    Channel,
}

fn number_in(word: &str) -> Result<u32> {
    Ok(word.parse::<u32>().context("a number")?)
}

fn asked_by(words: &[String]) -> Result<Asked> {
    ensure!(
        words.len() == 2 || words.len() == 3,
        "how many threads and turns, and perhaps times"
    );
    let threads = number_in(words[0].as_str())?;
    let turns = number_in(words[1].as_str())?;
    ensure!(1 <= threads && threads <= 8, "1 to 8 threads");
    Ok(Asked {
        threads: threads as u8,
        turns,
        has_times: words.len() == 3,
    })
}

fn do_all<R: Threads + Wait + Sync>(rt: &R, alloc: Global, asked: Asked, way: Way) -> Result<u64> {
    let turns = asked.turns;
    let mut job = Job {
        authors: u32::from(asked.threads),
        turns,
        meets: Meets::Nobody,
    };
    match way {
        Way::Append => Ok(run(rt, alloc, job)?),
        Way::AppendAndTell => {
            job.meets = Meets::Own;
            Ok(run(rt, alloc, job)?)
        }
        Way::Lock => others::push(rt, alloc, asked.threads, turns),
        Way::Channel => others::send(rt, alloc, asked.threads, turns),
    }
}

fn nanos(time: Duration) -> u64 {
    time.as_secs()
        .saturating_mul(1_000_000_000)
        .saturating_add(u64::from(time.subsec_nanos()))
}

// Measures one way, and prints its line.
fn measure<R: Threads + Wait + Sync + Clock + Print>(
    rt: &R,
    alloc: Global,
    asked: Asked,
    way: Way,
    name: &str,
) -> Result<()> {
    let start = rt.monotonic()?;
    let count = do_all(rt, alloc, asked, way)?;
    let time = nanos(rt.monotonic()?.saturating_sub(start));
    if asked.has_times {
        println!(rt; "{name} {count} {time}")?;
    } else {
        println!(rt; "{name} {count}")?;
    }
    Ok(())
}

fn main(rt: HostRuntime) -> Result<()> {
    let alloc = rt.alloc();
    let words = real_words(alloc, &rt)?;
    let asked = asked_by(&words)?;
    measure(&rt, alloc, asked, Way::Append, "append")?;
    measure(&rt, alloc, asked, Way::AppendAndTell, "append-and-tell")?;
    measure(&rt, alloc, asked, Way::Lock, "lock")?;
    measure(&rt, alloc, asked, Way::Channel, "channel")
}
