//! The entries that wait.

ghost use Rattle.std.specs.Prelude.{◌≡◌, ◌<◌, ◌≤◌, ◌++◌, [], ◌∷◌, length, take, drop, nat_lt, nat_le, slice_get, IfOk, OnOk, OnErr};
ghost use Rattle.std.specs.Bool.{OnTrue};
ghost use Rattle.std.specs.List.{All, filter, list_any};
ghost use Rattle.stripe_placer.specs.Entries.{waiting, has_stripe, with_entry, with_pad, without_first};

use std::alloc::{AllocError, Global};
use std::marker::Model;

/// The positions of the entries that wait, those that were lost and the others, and the pad target.
#[derive(Drop)]
pub(crate) struct PlainEntries {
    lost: Vec<u64>,
    fresh: Vec<u64>,
    pad: u64,
}

impl Model for PlainEntries {
    ghost use Rattle.stripe_placer.specs.Entries.{Entries};

    ghost Value = { Entries };

    ghost view = { λ e. record { lost = e.lost.items; fresh = e.fresh.items; pad = e.pad } };
}

// Those below a position.
fn below(alloc: Global, positions: &[u64], position: u64) -> Result<Vec<u64>, AllocError>
    ensures { IfOk result (λ v. v.items ≡ filter (λ q. nat_lt q position) positions.now) }
{
    positions
        .iter()
        .copied()
        .filter(|q| *q < position)
        .collect(alloc)
}

// The others.
fn not_below(alloc: Global, positions: &[u64], position: u64) -> Result<Vec<u64>, AllocError>
    ensures { IfOk result (λ v. v.items ≡ filter (λ q. nat_le position q) positions.now) }
{
    positions
        .iter()
        .copied()
        .filter(|q| position <= *q)
        .collect(alloc)
}

// Others, with a position where it belongs among them.
fn with_position(alloc: Global, others: &[u64], position: u64) -> Result<Vec<u64>, AllocError>
    ensures { IfOk result (λ v. v.items ≡ filter (λ q. nat_lt q position) others.now
        ++ position ∷ filter (λ q. nat_le position q) others.now) }
{
    let mut positions = below(alloc, others, position)?;
    positions.push(position)?;
    let above = not_below(alloc, others, position)?;
    positions.extend_from_slice(&above)?;
    Ok(positions)
}

// Whether there is one below another.
fn has_below(positions: &[u64], other: u64) -> bool
    ensures { result ≡ list_any (λ q. nat_lt q other) positions.now }
{
    positions.iter().any(|q| *q < other)
}

// So many of the first positions go.
fn remove_front(positions: &mut Vec<u64>, count: usize)
    ensures { positions.new.items ≡ drop count positions.old.items }
{
    for _ in 0..count.min(positions.len()) {
        positions.remove(0);
    }
}

impl PlainEntries {
    pub(crate) fn new(alloc: Global) -> PlainEntries
        ensures { result ≡ record { lost = []; fresh = []; pad = 0 } }
    {
        PlainEntries {
            lost: Vec::new(alloc),
            fresh: Vec::new(alloc),
            pad: 0,
        }
    }

    pub(crate) fn wait(
        &mut self,
        alloc: Global,
        position: u64,
        lost: bool,
    ) -> Result<(), AllocError>
        ensures ok { OnOk result (self.new ≡ with_entry self.old position lost) }
        ensures err { OnErr result (self.new ≡ self.old) }
    {
        if lost {
            self.lost = with_position(alloc, &self.lost, position)?;
        } else {
            self.fresh.push(position)?;
        }
        Ok(())
    }

    pub(crate) fn pad_to(&mut self, position: u64)
        ensures { self.new ≡ with_pad self.old position }
    {
        self.pad = self.pad.max(position);
    }

    /// Whether all that weren't lost are below a position.
    pub(crate) fn are_below(&self, position: u64) -> bool
        ensures { OnTrue result (All (λ q. q < position) self.now.fresh) }
    {
        self.fresh.iter().all(|q| *q < position)
    }

    /// All that wait, those that were lost before the others.
    pub(crate) fn all(&self, alloc: Global) -> Result<Vec<u64>, AllocError>
        ensures { IfOk result (λ v. v.items ≡ waiting self.now) }
    {
        let mut positions = self.lost.as_slice().to_vec(alloc)?;
        positions.extend_from_slice(&self.fresh)?;
        Ok(positions)
    }

    /// How many wait.
    pub(crate) fn count(&self) -> usize
        ensures { result ≡ length (waiting self.now) }
    {
        self.lost.len() + self.fresh.len()
    }

    /// Whether there are entries for a stripe of so many blocks.
    #[tactic(auto, using(crate::proofs::Steps::any_append))]
    pub(crate) fn has_stripe(&self, blocks: usize) -> bool
        ensures { result ≡ has_stripe blocks self.now }
    {
        self.count() >= blocks
            || has_below(&self.lost, self.pad)
            || has_below(&self.fresh, self.pad)
    }

    /// How many the next stripe of so many blocks takes.
    pub(crate) fn count_first(&self, blocks: u32) -> u32
        ensures { result ≡ length (take blocks (waiting self.now)) }
    {
        self.count().min(blocks as usize) as u32
    }

    /// The positions of so many of them.
    pub(crate) fn first(&self, alloc: Global, count: usize) -> Result<Vec<u64>, AllocError>
        ensures { IfOk result (λ v. v.items ≡ take count (waiting self.now)) }
    {
        let mut positions = self.all(alloc)?;
        positions.truncate(count);
        Ok(positions)
    }

    /// So many of them wait no more.
    pub(crate) fn remove_first(&mut self, count: usize)
        ensures { self.new ≡ without_first count self.old }
    {
        let lost = self.lost.len();
        remove_front(&mut self.lost, count);
        remove_front(&mut self.fresh, count.saturating_sub(lost));
    }
}
