//! Pools of frames.
ghost use Rattle.std.specs.Prelude.{◌≡◌, ◌↔◌, ◌+◌, ◌<◌, ◌≤◌, true, false, length, replicate};
ghost use Rattle.std.specs.Prelude.{[], ◌∷◌, ◌++◌, reverse, slice_get, slice_set, Some};
ghost use Rattle.std.specs.Prelude.{vec_len, vec_capacity};
ghost use Rattle.std.specs.Prelude.{IsSome, IfSome, OnSome, IfNone, IsNone, IfOk, OnOk, IfErr, OnErr};
ghost use Rattle.pblk_model.specs.Frames.{count_left, count_out};
ghost use Rattle.sector_pool.specs.Places.{stride_of};
ghost use Rattle.sector_pool.specs.Stack.{IsStackOf};

use crate::frame::Frame;
use crate::memory::{Emptied, Origin, Ranges, cut, rejoin};
use std::alloc::{AllocError, Global};
use std::marker::Model;

/// One region of memory, cut into frames of one size that go out by `take` and come back by `give`.
///
/// A pool can't be dropped or copied: it ends by `close`.
pub struct Pool {
    ranges: Ranges,
    emptied: Emptied,
    // of the ranges that are left
    numbers: Vec<u32>,
    count: u32,
    size: u32,
}

// Contracts see the region, and of each of its ranges whether it is left.
impl Model for Pool {
    ghost use Rattle.pblk_model.specs.Frames.{PoolView};

    ghost Value = { PoolView };

    ghost use Rattle.sector_pool.specs.Inside.{pool_view, IsPool};

    ghost view = { pool_view };

    ghost invariant = { IsPool };
}

// How far it is from one frame to the next, in bytes.
fn stride(size: u32) -> usize
    ensures stride { result ≡ stride_of size }
{
    (size as usize).max(1)
}

// Puts a number on the stack, which has room for it.
fn put(numbers: &mut Vec<u32>, number: u32)
    requires room { vec_len numbers.old < vec_capacity numbers.old }
    ensures items { numbers.new.items ≡ numbers.old.items ++ number ∷ [] }
    ensures len { vec_len numbers.new ≡ vec_len numbers.old + 1 }
    ensures capacity { vec_capacity numbers.old ≤ vec_capacity numbers.new }
{
    numbers.push(number).unwrap();
}

// The numbers below `count`, for the stack of a pool that has all its frames.
fn all_numbers(alloc: Global, count: u32) -> Result<Vec<u32>, AllocError>
    ensures stack { IfOk result (λ v. IsStackOf (reverse v.items) (replicate count true)) }
    ensures room { IfOk result (λ v. count ≤ vec_capacity v) }
{
    let mut numbers = Vec::with_capacity(alloc, count as usize)?;
    for number in 0..count {
        put(&mut numbers, number);
    }
    Ok(numbers)
}

impl Pool {
    /// Takes the memory for `count` frames of `size` bytes each, all of which are left.
    ///
    /// Fails only where there isn't as much memory. No later call takes any.
    pub fn new(alloc: Global, count: u32, size: u32) -> Result<Pool, AllocError>
        ensures left { IfOk result (λ p. p.left ≡ replicate count true) }
        ensures all_left { IfOk result (λ p. count_left p.left ≡ count) }
        ensures none_out { IfOk result (λ p. count_out p.left ≡ 0) }
        ensures count { IfOk result (λ p. p.region.count ≡ count) }
        ensures size { IfOk result (λ p. p.region.size ≡ size) }
        ensures stride { IfOk result (λ p. p.region.size ≤ p.region.stride) }
    {
        let stride = stride(size);
        let len = count as usize * stride;
        // a byte at least, since without any there would be no place
        let mut bytes = vec![in alloc; 0u8; len.max(1)]?;
        let numbers = all_numbers(alloc, count)?;
        let base = bytes.as_mut_ptr();
        let (ranges, emptied) = cut(bytes, base, count as usize, stride, size as usize);
        Ok(Pool {
            ranges,
            emptied,
            numbers,
            count,
            size,
        })
    }

    /// How many frames are left. With those that are out they are all frames of the pool.
    pub fn left(&self) -> u32
        ensures left { result ≡ count_left self.now.left }
        ensures sum { count_left self.now.left + count_out self.now.left ≡ self.now.region.count }
    {
        self.numbers.len() as u32
    }

    /// Which region the pool has, for values that are to name it. It takes no memory.
    pub fn origin(&self) -> Origin
        ensures region { result.region ≡ self.now.region }
    {
        self.ranges.origin()
    }

    /// Takes out a frame that is left, as it is. None exactly where none is left.
    pub fn take(&mut self) -> Option<Frame>
        ensures none { IsNone result ↔ (count_left self.old.left ≡ 0) }
        ensures some { 0 < count_left self.old.left → IsSome result }
        ensures unchanged { IfNone result (self.new ≡ self.old) }

        // The frame is this pool's, and its range was left. Nothing else goes out.
        ensures region { IfSome result (λ f. f.region ≡ self.old.region) }
        ensures size { IfSome result (λ f. length f.bytes ≡ f.region.size) }
        ensures was_left { IfSome result
            (λ f. slice_get self.old.left f.number ≡ Some true) }
        ensures out { IfSome result
            (λ f. self.new.left ≡ slice_set self.old.left f.number false) }
        ensures same_region { self.new.region ≡ self.old.region }

        // What `out` says of the counts.
        ensures fewer_left { OnSome result
            (count_left self.old.left ≡ count_left self.new.left + 1) }
        ensures more_out { OnSome result
            (count_out self.new.left ≡ count_out self.old.left + 1) }
    {
        let number = self.numbers.pop()?;
        let stride = stride(self.size);
        let at = number as usize;
        let (bytes, origin) = self.ranges.lend(at, at * stride, stride);
        Some(Frame {
            bytes,
            origin,
            number,
            size: self.size,
        })
    }

    /// Takes back a frame of this pool, which was out and is left now.
    pub fn give(&mut self, frame: Frame)
        requires own { frame.region ≡ self.old.region }
        ensures was_out { slice_get self.old.left frame.number ≡ Some false }
        ensures left { self.new.left ≡ slice_set self.old.left frame.number true }
        ensures same_region { self.new.region ≡ self.old.region }

        // What `left` says of the counts.
        ensures more_left { count_left self.new.left ≡ count_left self.old.left + 1 }
        ensures fewer_out { count_out self.old.left ≡ count_out self.new.left + 1 }
    {
        let Frame {
            bytes,
            origin: _,
            number,
            size: _,
        } = frame;
        self.ranges.regain(bytes, number as usize);
        put(&mut self.numbers, number);
    }

    /// Ends the pool. Refused, with the pool as it was, exactly where a frame is out.
    pub fn close(self) -> Result<(), Pool>
        ensures closed { OnOk result (count_out self.left ≡ 0) }
        ensures refused { OnErr result (0 < count_out self.left) }
        ensures unchanged { IfErr result (λ p. p ≡ self) }
    {
        if self.numbers.len() < self.count as usize {
            return Err(self);
        }
        let Pool {
            ranges,
            emptied,
            numbers: _,
            count: _,
            size: _,
        } = self;
        drop(rejoin(ranges, emptied));
        Ok(())
    }
}
