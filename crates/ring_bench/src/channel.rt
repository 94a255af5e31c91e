//! A channel.

use crate::{ROOM, SECTOR};
use anyhow::Result;
use crossbeam_channel::{Receiver, Sender, bounded};
use ring_crew::{Tally, has_number, number};
use std::alloc::Global;
use std::sync::Wait;
use std::thread::{Threads, for_each_mut, join};

type Sector = [u8; SECTOR];

fn send_all<R: Wait>(rt: &R, sender: &Sender<Sector, Global>, turns: u32) {
    let mut sector = [0; SECTOR];
    for turn in 0..turns {
        number(&mut sector, u64::from(turn));
        let _sent = sender.send(rt, sector);
    }
}

// Whether the sector has some number.
fn is_numbered(sector: &[u8]) -> bool {
    match sector.first_chunk::<8>() {
        Some(first) => has_number(sector, u64::from_le_bytes(*first)),
        None => false,
    }
}

fn receive_all<R: Wait>(rt: &R, receiver: &Receiver<Sector, Global>, count: u64) -> u64 {
    let mut right = 0u64;
    for _ in 0..count {
        if let Ok(sector) = receiver.recv(rt) {
            right = right.wrapping_add(u64::from(is_numbered(&sector)));
        }
    }
    right
}

// A writer for each place, each in a thread of its own.
fn send_from<R: Threads + Wait + Sync>(
    rt: &R,
    sender: &Sender<Sector, Global>,
    places: &mut [u8],
    turns: u32,
) {
    let threads = places.len().max(1);
    for_each_mut(rt, places, threads, &|_, _| send_all(rt, sender, turns));
}

/// So many writers write so many sectors each.
pub(crate) fn hand_over<R: Threads + Wait + Sync>(
    rt: &R,
    alloc: Global,
    writers: u8,
    turns: u32,
) -> Result<Tally> {
    let (sender, receiver) = bounded::<Sector, _>(alloc, ROOM as usize)?;
    let count = u64::from(writers) * u64::from(turns);
    let mut places = vec![in alloc; 0u8; usize::from(writers)]?;
    let (right, ()) = join(
        rt,
        || receive_all(rt, &receiver, count),
        || send_from(rt, &sender, places.as_mut_slice(), turns),
    );
    Ok(Tally {
        taken: count,
        right,
    })
}
