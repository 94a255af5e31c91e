//! Batches of frames that one claim puts into the ring.
ghost use Rattle.std.specs.Prelude.{◌≡◌, ◌+◌, ◌<◌, ◌≤◌, [], ◌∷◌, ◌++◌, length};
ghost use Rattle.std.specs.Prelude.{IfOk, IfErr, OnOk, IfSome, IfNone, Some, true, false};
ghost use Rattle.std.specs.Prelude.{slice_get, slice_set};
ghost use Rattle.pblk_model.specs.Frames.{FrameView, count_left, count_out};
ghost use Rattle.write_ring.specs.Batches.{AreOwn, IsDraft};

use crate::draft::Draft;
use sector_pool::{Frame, Origin, Pool, Source};
use std::alloc::{AllocError, Global};
use std::collections::VecDeque;
use std::marker::Model;

/// Frames of one pool, some of them filled. Those that are filled go into the ring together, in their order,
/// and as many free frames come back for them.
///
/// A batch can't be dropped or copied: it ends by `close`, which gives its frames back.
pub struct Batch {
    filled: VecDeque<Draft>,
    free: VecDeque<Frame>,
    count: u32,
    origin: Origin,
}

// Contracts see the frames that are filled, how many are free, for how many there is room, and their region.
impl Model for Batch {
    ghost use Rattle.write_ring.specs.Batches.{BatchView};

    ghost Value = { BatchView };

    ghost use Rattle.write_ring.specs.Inside.{batch_view, IsBatch};

    ghost view = { batch_view };

    ghost invariant = { IsBatch };
}

// A frame of a pool that has one.
pub(crate) fn take_frame(pool: &mut Pool) -> Frame
    requires some { 0 < count_left pool.old.left }
    ensures region { result.region ≡ pool.old.region }
    ensures was_left { slice_get pool.old.left result.number ≡ Some true }
    ensures out { pool.new.left ≡ slice_set pool.old.left result.number false }
    ensures same_region { pool.new.region ≡ pool.old.region }
    ensures fewer_left { count_left pool.old.left ≡ count_left pool.new.left + 1 }
    ensures more_out { count_out pool.new.left ≡ count_out pool.old.left + 1 }
{
    pool.take().unwrap()
}

impl Batch {
    /// A batch of `count` frames, all of which are free.
    ///
    /// Fails only where there isn't as much memory, and the pool is unchanged then. No later call takes any.
    pub fn new(alloc: Global, count: u32, pool: &mut Pool) -> Result<Batch, AllocError>
        requires left { count ≤ count_left pool.old.left }
        ensures unchanged { IfErr result (λ _. pool.new ≡ pool.old) }
        ensures count { IfOk result (λ b. b.count ≡ count) }
        ensures free { IfOk result (λ b. b.free ≡ count) }
        ensures empty { IfOk result (λ b. b.drafts ≡ []) }
        ensures region { IfOk result (λ b. b.region ≡ pool.old.region) }
        ensures same_region { pool.new.region ≡ pool.old.region }
        ensures fewer_left { OnOk result
            (count_left pool.old.left ≡ count_left pool.new.left + count) }
        ensures more_out { OnOk result
            (count_out pool.new.left ≡ count_out pool.old.left + count) }
    {
        let filled = VecDeque::with_capacity(alloc, count as usize)?;
        let Ok(free) = VecDeque::with_capacity(alloc, count as usize) else {
            filled.destroy_empty();
            return Err(AllocError);
        };
        let mut batch = Batch {
            filled,
            free,
            count,
            origin: pool.origin(),
        };
        for _number in 0..count {
            let frame = take_frame(pool);
            batch.keep(frame);
        }
        Ok(batch)
    }

    /// Fills a free frame with a sector, for the target's sector `lba`. A copy names its source.
    pub fn fill(&mut self, lba: u64, source: Option<Source>, bytes: &[u8])
        requires some { 0 < self.old.free }
        requires size { length bytes.now ≡ self.old.region.size }
        ensures filled { (f : FrameView) × (f.bytes ≡ bytes.now) × (self.new.drafts
            ≡ self.old.drafts ++ record { lba = lba; source = source; frame = f } ∷ []) }
        ensures fewer_free { self.old.free ≡ self.new.free + 1 }
        ensures region { self.new.region ≡ self.old.region }
        ensures count { self.new.count ≡ self.old.count }
    {
        let mut frame = self.free.pop_front().unwrap();
        frame.fill(bytes);
        self.filled.push_back(Draft { lba, source, frame }).unwrap();
    }

    /// How many frames are filled.
    pub fn filled(&self) -> u32
        ensures { result ≡ length self.now.drafts }
    {
        self.filled.len() as u32
    }

    // Takes out the oldest of the filled frames.
    pub(crate) fn next(&mut self) -> Option<Draft>
        ensures some { IfSome result (λ d. self.old.drafts ≡ d ∷ self.new.drafts) }
        ensures none { IfNone result ((self.old.drafts ≡ []) × (self.new.drafts ≡ [])) }
        ensures own { IfSome result (λ d. IsDraft self.old.region d) }
        ensures free { self.new.free ≡ self.old.free }
        ensures region { self.new.region ≡ self.old.region }
        ensures count { self.new.count ≡ self.old.count }
        ensures few { length self.new.drafts + self.new.free ≤ self.new.count }
        ensures fewer { IfSome result
            (λ _. length self.new.drafts + self.new.free < self.new.count) }
    {
        self.filled.pop_front()
    }

    // Takes a frame in, which is free from then on.
    pub(crate) fn keep(&mut self, frame: Frame)
        requires own { frame.region ≡ self.old.region }
        requires room { length self.old.drafts + self.old.free < self.old.count }
        ensures more { self.new.free ≡ self.old.free + 1 }
        ensures drafts { self.new.drafts ≡ self.old.drafts }
        ensures region { self.new.region ≡ self.old.region }
        ensures count { self.new.count ≡ self.old.count }
    {
        self.free.push_back(frame).unwrap();
    }

    /// Makes all its frames free.
    pub fn clear(&mut self)
        ensures empty { self.new.drafts ≡ [] }
        ensures free { self.new.free ≡ self.old.free + length self.old.drafts }
        ensures region { self.new.region ≡ self.old.region }
        ensures count { self.new.count ≡ self.old.count }
    {
        while let Some(draft) = self.next() {
            let Draft {
                lba: _,
                source: _,
                frame,
            } = draft;
            self.keep(frame);
        }
    }

    /// Ends the batch, and gives its frames back to their pool.
    pub fn close(self, pool: &mut Pool)
        requires own { self.region ≡ pool.old.region }
        ensures region { pool.new.region ≡ pool.old.region }
        ensures more_left { count_left pool.new.left
            ≡ count_left pool.old.left + self.free + length self.drafts }
        ensures fewer_out { count_out pool.old.left
            ≡ count_out pool.new.left + self.free + length self.drafts }
    {
        let mut batch = self;
        batch.clear();
        let Batch {
            filled,
            free,
            count: _,
            origin: _,
        } = batch;
        filled.destroy_empty();
        give_back(free, pool);
    }
}

// Gives frames back to their pool.
fn give_back(frames: VecDeque<Frame>, pool: &mut Pool)
    requires own { AreOwn pool.old.region frames.items }
    ensures region { pool.new.region ≡ pool.old.region }
    ensures more_left { count_left pool.new.left ≡ count_left pool.old.left + length frames.items }
    ensures fewer_out { count_out pool.old.left ≡ count_out pool.new.left + length frames.items }
{
    let mut frames = frames;
    while let Some(frame) = frames.pop_front() {
        pool.give(frame);
    }
    frames.destroy_empty();
}
