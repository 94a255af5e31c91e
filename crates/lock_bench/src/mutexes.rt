//! A `Mutex` for each place.

use crate::{APART, Asked};
use anyhow::Result;
use std::alloc::{AllocError, Global};
use std::sync::{Mutex, Wait};
use std::thread::{Threads, for_each_mut};

fn fresh(alloc: Global, count: usize) -> Result<Vec<Mutex<u64>>, AllocError> {
    let mut places = Vec::with_capacity(alloc, count)?;
    for _place in 0..count {
        places.push(Mutex::new(0u64))?;
    }
    Ok(places)
}

fn work<R: Wait>(rt: &R, places: &[Mutex<u64>], thread: usize, turns: u32) {
    let Some(place) = places.get(thread.wrapping_mul(APART)) else {
        return;
    };
    for _turn in 0..turns {
        let mut count = place.lock(rt);
        *count = count.wrapping_add(1);
    }
}

fn counts_of(alloc: Global, places: Vec<Mutex<u64>>) -> Result<Vec<u64>, AllocError> {
    let mut counts = Vec::with_capacity(alloc, places.len())?;
    for place in places {
        counts.push(place.into_inner())?;
    }
    Ok(counts)
}

/// So many threads count so often. Tells how many places counted what they should.
pub(crate) fn count_up<R: Threads + Wait + Sync>(
    rt: &R,
    alloc: Global,
    asked: Asked,
) -> Result<u64> {
    let places = fresh(alloc, asked.threads as usize * APART)?;
    let mut threads = vec![in alloc; (); asked.threads as usize]?;
    for_each_mut(
        rt,
        threads.as_mut_slice(),
        asked.threads as usize,
        &|thread, _| work(rt, &places, thread, asked.turns),
    );
    let counts = counts_of(alloc, places)?;
    Ok(asked.right(&counts))
}
