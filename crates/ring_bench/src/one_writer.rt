//! The ring for one writer of the crate `rtrb`.

use crate::{ROOM, SECTOR};
use anyhow::Result;
use crossbeam_utils::Backoff;
use ring_crew::{Tally, has_number, number};
use rtrb::{Consumer, Producer, RingBuffer};
use std::alloc::Global;
use std::sync::Wait;
use std::thread::{Threads, join_mut};

fn send<R: Wait>(rt: &R, producer: &mut Producer<u8, Global>, sector: &[u8]) {
    let backoff = Backoff::new();
    for _ in rt.forever() {
        if producer.push_entire_slice(sector).is_ok() {
            return;
        }
        backoff.snooze();
    }
}

fn send_all<R: Wait>(rt: &R, producer: &mut Producer<u8, Global>, turns: u32) {
    let mut sector = [0; SECTOR];
    for turn in 0..turns {
        number(&mut sector, u64::from(turn));
        send(rt, producer, &sector);
    }
}

fn receive<R: Wait>(rt: &R, consumer: &mut Consumer<u8, Global>, sector: &mut [u8]) {
    let backoff = Backoff::new();
    for _ in rt.forever() {
        if consumer.pop_entire_slice(sector).is_ok() {
            return;
        }
        backoff.snooze();
    }
}

fn receive_all<R: Wait>(rt: &R, consumer: &mut Consumer<u8, Global>, turns: u32) -> u64 {
    let mut sector = [0; SECTOR];
    let mut right = 0u64;
    for turn in 0..turns {
        receive(rt, consumer, &mut sector);
        right = right.wrapping_add(u64::from(has_number(&sector, u64::from(turn))));
    }
    right
}

/// One writer writes so many sectors.
pub(crate) fn hand_over<R: Threads + Wait + Sync>(
    rt: &R,
    alloc: Global,
    turns: u32,
) -> Result<Tally> {
    let (mut producer, mut consumer) = RingBuffer::new(alloc, ROOM as usize * SECTOR)?;
    let (right, ()) = join_mut(
        rt,
        &mut || receive_all(rt, &mut consumer, turns),
        &mut || send_all(rt, &mut producer, turns),
    );
    Ok(Tally {
        taken: u64::from(turns),
        right,
    })
}
