//! Threads count the counters of a few places up.
ghost use Rattle.std.specs.Prelude.{◌≡◌, ◌<◌, IfOk, length};
ghost use Rattle.numbered_locks.specs.Handles.{AreKept, places};

use crate::counters::{Counter, Counters, OwnPlace, count_up};
use numbered_locks::Keeps;
use std::alloc::{AllocError, Global};
use std::sync::Wait;
use std::test::Fail;
use std::thread::{Threads, for_each_mut};

// What threads are to do.
#[derive(Clone, Copy, Debug, Drop)]
struct Asked {
    // How many threads there are.
    threads: u32,
    // How many places there are. Thread `t` uses the place of number `t` modulo that.
    places: u32,
    // How often each thread counts up.
    turns: u64,
    // How often others may run while a counter is held.
    pauses: u32,
}

// So many counters, which say their places.
fn fresh(alloc: Global, count: u32) -> Result<Vec<Counter>, AllocError>
    ensures many { IfOk result (λ v. length v.items ≡ count) }
    ensures own { IfOk result (λ v. AreKept ⟦<OwnPlace as Keeps<Counter>>⟧.keeps v.items) }
{
    let mut counters = Vec::with_capacity(alloc, count as usize)?;
    for place in 0..count {
        counters.push(Counter { place, count: 0 })?;
    }
    Ok(counters)
}

// One thread's turns.
fn work<R: Wait>(rt: &R, counters: &Counters, thread: usize, asked: &Asked)
    requires some { 0 < places counters.now }
{
    let place = (thread % counters.count() as usize) as u32;
    for _turn in 0..asked.turns {
        count_up(rt, counters, place, asked.pauses);
    }
}

// All threads at once, and what the counters are in the end.
fn work_all<R: Threads + Wait + Sync>(
    rt: &R,
    alloc: Global,
    asked: Asked,
) -> Result<Vec<Counter>, AllocError>
    requires some { 0 < asked.places }
{
    let fresh = fresh(alloc, asked.places)?;
    let counters = Counters::new(alloc, fresh)?;
    let mut threads = vec![in alloc; (); asked.threads as usize]?;
    for_each_mut(
        rt,
        threads.as_mut_slice(),
        asked.threads.max(1) as usize,
        &|thread, _| work(rt, &counters, thread, &asked),
    );
    Ok(counters.close(rt))
}

// How often a place's counter is to be counted up.
fn wanted(asked: &Asked, place: u32) -> u64 {
    let mut threads = 0u64;
    for thread in 0..asked.threads {
        threads = threads.wrapping_add(u64::from(thread % asked.places.max(1) == place));
    }
    threads.wrapping_mul(asked.turns)
}

// Whether the counters are those of their places, in order, and were counted up as often as they
// should be.
fn are_right(asked: &Asked, counters: &[Counter]) -> bool {
    let mut right = counters.len() == asked.places as usize;
    for place in 0..asked.places {
        let found = counters.get(place as usize).copied();
        let want = Counter {
            place,
            count: wanted(asked, place),
        };
        right = right && found == Some(want);
    }
    right
}

fn row(threads: u32, places: u32, turns: u64, pauses: u32) -> Asked
    ensures places { result.places ≡ places }
{
    Asked {
        threads,
        places,
        turns,
        pauses,
    }
}

#[test]
fn each_turn_of_many_threads_counts(rt: HostRuntime) -> Result<(), Fail> {
    // Few places and many; each thread alone, or many at one place; and a place that is held for
    // long, so that others sleep until it is free.
    let rows = [
        row(1, 1, 10_000, 0),
        row(4, 4, 10_000, 0),
        row(16, 4, 10_000, 0),
        row(16, 1, 2_000, 0),
        row(3, 5, 1_000, 1),
        row(8, 1, 200, 40),
    ];
    for asked in &rows {
        if asked.places == 0 {
            continue;
        }
        let counters = work_all(&rt, rt.alloc(), *asked)?;
        assert!(rt;
            are_right(asked, counters.as_slice()),
            "at {asked:?}: {counters:?}"
        );
    }
    Ok(())
}
