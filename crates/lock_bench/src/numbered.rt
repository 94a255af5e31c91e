//! Locks by number.
ghost use Rattle.std.specs.Prelude.{◌≡◌, ◌<◌, ◌≤◌, IfOk};
ghost use Rattle.numbered_locks.specs.Handles.{places};

use crate::{APART, Asked};
use anyhow::Result;
use numbered_locks::{Keeps, NumberedLocks};
use std::alloc::{AllocError, Global};
use std::sync::Wait;
use std::thread::{Threads, for_each_mut};

// Nothing is said of the numbers.
struct Anything;

impl Keeps<u64> for Anything {
    ghost keeps = { λ place count. Unit {0} };
}

type Locks = NumberedLocks<u64, Anything>;

fn work<R: Wait>(rt: &R, locks: &Locks, thread: usize, turns: u32)
    requires some { 0 < places locks.now }
{
    let place = (thread.wrapping_mul(APART) % locks.count() as usize) as u32;
    for _turn in 0..turns {
        let (held, count) = locks.lock(rt, place);
        locks.unlock(held, count.wrapping_add(1));
    }
}

/// So many threads count so often. Tells how many places counted what they should.
pub(crate) fn count_up<R: Threads + Wait + Sync>(
    rt: &R,
    alloc: Global,
    asked: Asked,
) -> Result<u64> {
    let count = asked.threads as usize * APART;
    let locks = Locks::new(alloc, vec![in alloc; 0u64; count]?)?;
    let mut threads = vec![in alloc; (); asked.threads as usize]?;
    for_each_mut(
        rt,
        threads.as_mut_slice(),
        asked.threads as usize,
        &|thread, _| work(rt, &locks, thread, asked.turns),
    );
    let counts = locks.close(rt);
    Ok(asked.right(&counts))
}
