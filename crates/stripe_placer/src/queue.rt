//! The entries that wait.

ghost use Rattle.std.specs.Prelude.{ℕ, ◌≡◌, ◌+◌, ◌-◌, ◌<◌, ◌≤◌, min, nat_lt, nat_le, false, IfOk};
ghost use Rattle.std.specs.Prelude.{length, take, drop};
ghost use Rattle.std.specs.Prelude.{[], ◌∷◌, ◌++◌};
ghost use Rattle.std.specs.List.{All, filter, list_any};
ghost use Rattle.std.specs.VecDeque.{deque_capacity};
ghost use Rattle.stripe_placer.specs.Entries.{Rises, waiting, has_stripe, with_entry, with_pad};
ghost use Rattle.stripe_placer.specs.Entries.{without_first};

use std::alloc::{AllocError, Global};
use std::collections::VecDeque;
use std::marker::Model;

/// The positions of the entries that wait, and the pad target.
#[derive(Drop)]
pub(crate) struct Queue {
    // rising, both
    lost: VecDeque<u64>,
    fresh: VecDeque<u64>,
    pad: u64,
    // how many may wait
    room: u32,
}

impl Model for Queue {
    ghost use Rattle.stripe_placer.specs.Queues.{QueueView};

    ghost Value = { QueueView };

    ghost use Rattle.stripe_placer.specs.Queues.{queue, IsQueue};

    ghost view = { queue };

    ghost invariant = { IsQueue };
}

// Where a position belongs among those that rise.
fn place_of(queue: &VecDeque<u64>, position: u64) -> usize
    requires rise { Rises queue.now.items }
    ensures inside { result ≤ length queue.now.items }
    ensures below { take result queue.now.items
        ≡ filter (λ q. nat_lt q position) queue.now.items }
    ensures above { drop result queue.now.items
        ≡ filter (λ q. nat_le position q) queue.now.items }
    ensures rise { Rises (take result queue.now.items ++ position ∷ drop result queue.now.items) }
{
    let mut index = queue.len();
    while index > 0 && queue[index - 1] >= position {
        index -= 1;
    }
    index
}

// Puts a position at a place, where there is room.
fn insert(queue: &mut VecDeque<u64>, index: usize, position: u64)
    requires inside { index ≤ length queue.old.items }
    requires room { length queue.old.items < deque_capacity queue.old }
    ensures items { queue.new.items
        ≡ take index queue.old.items ++ position ∷ drop index queue.old.items }
    ensures capacity { deque_capacity queue.old ≤ deque_capacity queue.new }
{
    queue.insert(index, position).unwrap();
}

// Puts a position behind the others, where there is room.
fn append(queue: &mut VecDeque<u64>, position: u64)
    requires room { length queue.old.items < deque_capacity queue.old }
    ensures items { queue.new.items ≡ queue.old.items ++ position ∷ [] }
    ensures capacity { deque_capacity queue.old ≤ deque_capacity queue.new }
{
    queue.push_back(position).unwrap();
}

// Whether one of those that rise lies below a position.
fn is_first_below(queue: &VecDeque<u64>, position: u64) -> bool
    requires rise { Rises queue.now.items }
    ensures { result ≡ list_any (λ q. nat_lt q position) queue.now.items }
{
    match queue.front() {
        None => false,
        Some(first) => *first < position,
    }
}

// Copies the first of them behind `from` others, up to `to` in all. Gives how many there are then.
fn copy_first(queue: &VecDeque<u64>, into: &mut [u64; 64], from: u32, to: u32) -> u32
    requires order { from ≤ to }
    requires inside { to ≤ 64 }
    ensures count { result ≡ from + min (length queue.now.items) (to - from) }
    ensures copied { take result into.new
        ≡ take from into.old ++ take (to - from) queue.now.items }
{
    let count = queue.len().min((to - from) as usize) as u32;
    for index in 0..count {
        into[(from + index) as usize] = queue[index as usize];
    }
    from + count
}

// Takes the first of them out.
fn drop_first(queue: &mut VecDeque<u64>, count: usize)
    ensures items { queue.new.items ≡ drop count queue.old.items }
    ensures capacity { deque_capacity queue.new ≡ deque_capacity queue.old }
{
    let mut left = count.min(queue.len());
    while left > 0 {
        let _ = queue.pop_front();
        left -= 1;
    }
}

impl Queue {
    /// None waits, and there is room for so many.
    pub(crate) fn new(alloc: Global, room: u32) -> Result<Queue, AllocError>
        ensures room { IfOk result (λ q. q.room ≡ room) }
        ensures empty { IfOk result (λ q. q.entries
            ≡ record { lost = []; fresh = []; pad = 0 }) }
    {
        let lost = VecDeque::with_capacity(alloc, room as usize)?;
        let fresh = VecDeque::with_capacity(alloc, room as usize)?;
        Ok(Queue {
            lost,
            fresh,
            pad: 0,
            room,
        })
    }

    /// An entry waits: one that was lost, or one above the others that weren't. There is room.
    pub(crate) fn wait(&mut self, position: u64, lost: bool)
        requires room { length (waiting self.old.entries) < self.old.room }
        requires rises { lost ≡ false → All (λ q. q < position) self.old.entries.fresh }
        ensures entries { self.new.entries ≡ with_entry self.old.entries position lost }
        ensures room { self.new.room ≡ self.old.room }
    {
        if lost {
            let index = place_of(&self.lost, position);
            insert(&mut self.lost, index, position);
        } else {
            append(&mut self.fresh, position);
        }
    }

    /// Both rise.
    pub(crate) fn are_in_order(&self)
        ensures lost { Rises self.now.entries.lost }
        ensures fresh { Rises self.now.entries.fresh }
    {
        let _ = &self.pad;
    }

    /// The pad target.
    pub(crate) fn pad_target(&self) -> u64
        ensures { result ≡ self.now.entries.pad }
    {
        self.pad
    }

    /// Raises the pad target, which never falls.
    pub(crate) fn pad_to(&mut self, position: u64)
        ensures entries { self.new.entries ≡ with_pad self.old.entries position }
        ensures room { self.new.room ≡ self.old.room }
    {
        self.pad = self.pad.max(position);
    }

    /// How many entries there are.
    pub(crate) fn count(&self) -> u64
        ensures { result ≡ length (waiting self.now.entries) }
    {
        (self.lost.len() + self.fresh.len()) as u64
    }

    /// Whether there are entries for a stripe of so many blocks.
    pub(crate) fn has_stripe(&self, blocks: u32) -> bool
        ensures { result ≡ has_stripe blocks self.now.entries }
    {
        let count = self.lost.len() + self.fresh.len();
        count >= blocks as usize
            || is_first_below(&self.lost, self.pad)
            || is_first_below(&self.fresh, self.pad)
    }

    /// How many entries the next stripe of so many blocks takes.
    pub(crate) fn count_first(&self, blocks: u32) -> u32
        ensures { result ≡ length (take blocks (waiting self.now.entries)) }
    {
        (self.lost.len() + self.fresh.len()).min(blocks as usize) as u32
    }

    /// Copies the positions of the entries that the next stripe of so many blocks takes.
    pub(crate) fn copy_to(&self, into: &mut [u64; 64], blocks: u32)
        requires few { blocks ≤ 64 }
        requires waiting { blocks ≤ length (waiting self.now.entries) }
        ensures { take blocks into.new ≡ take blocks (waiting self.now.entries) }
    {
        let lost = copy_first(&self.lost, into, 0, blocks);
        copy_first(&self.fresh, into, lost, blocks);
    }

    /// So many of them wait no more.
    pub(crate) fn remove_first(&mut self, count: u32)
        ensures entries { self.new.entries ≡ without_first count self.old.entries }
        ensures room { self.new.room ≡ self.old.room }
    {
        let count = count as usize;
        let lost = self.lost.len();
        drop_first(&mut self.lost, count);
        drop_first(&mut self.fresh, count.saturating_sub(lost));
    }
}
