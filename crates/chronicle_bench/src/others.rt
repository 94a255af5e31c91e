//! A list under a lock, and a channel.

use anyhow::Result;
use crossbeam_channel::{Sender, bounded};
use std::alloc::Global;
use std::sync::{Mutex, Wait};
use std::thread::{Threads, for_each_mut};

fn push_all<R: Wait>(rt: &R, list: &Mutex<Vec<u64>>, turns: u32) {
    for turn in 0..turns {
        let _pushed = list.lock(rt).push(u64::from(turn));
    }
}

/// Threads push so many numbers each onto one list, which has room for all.
pub(crate) fn push<R: Threads + Wait + Sync>(
    rt: &R,
    alloc: Global,
    threads: u8,
    turns: u32,
) -> Result<u64> {
    let count = usize::from(threads) * turns as usize;
    let list = Mutex::new(Vec::with_capacity(alloc, count)?);
    let mut places = vec![in alloc; 0u8; usize::from(threads)]?;
    let most = usize::from(threads).max(1);
    for_each_mut(
        rt,
        places.as_mut_slice(),
        most,
        &|_, _| { push_all(rt, &list, turns) },
    );
    let pushed = list.lock(rt).len();
    Ok(pushed as u64)
}

fn send_all<R: Wait>(rt: &R, sender: &Sender<u64, Global>, turns: u32) {
    for turn in 0..turns {
        let _sent = sender.send(rt, u64::from(turn));
    }
}

/// Threads send so many numbers each over one channel, which has room for all.
pub(crate) fn send<R: Threads + Wait + Sync>(
    rt: &R,
    alloc: Global,
    threads: u8,
    turns: u32,
) -> Result<u64> {
    let count = usize::from(threads) * turns as usize;
    let (sender, receiver) = bounded::<u64, _>(alloc, count)?;
    let mut places = vec![in alloc; 0u8; usize::from(threads)]?;
    let most = usize::from(threads).max(1);
    for_each_mut(
        rt,
        places.as_mut_slice(),
        most,
        &|_, _| { send_all(rt, &sender, turns) },
    );
    Ok(receiver.len() as u64)
}
