//! The frames of a mount: where they lie as it begins, and how they go back to their pool.
ghost use Rattle.std.specs.Prelude.{ℕ, ◌≡◌, ◌+◌, ◌*◌, ◌≤◌, ◌^◌, IfOk, OnOk, OnErr, length};
ghost use Rattle.std.specs.List.{AllByRecursion};
ghost use Rattle.pblk_model.specs.Accepted.{IsAccepted};
ghost use Rattle.pblk_model.specs.Frames.{count_left, count_out};
ghost use Rattle.pblk_model.specs.declared.shape.Shape.{Shape as ShapeOf};
ghost use Rattle.block_target.specs.MountFrames.{AreFrames, IsFreeIn};

use crate::vectors::put;
use pblk_model::Shape;
use sector_pool::Pool;
use std::alloc::{AllocError, Global};
use write_ring::{Batch, Intake, Pass, Ring};

// How many frames the batch of a session has: it puts at most so many sectors at once.
const SESSION_FRAMES: u32 = 16;

/// Where the frames of a mount lie as it begins: in the slots of the write ring, and in batches.
///
/// It can't be dropped: it ends by `give_back`, or the mount goes on with its parts.
pub(crate) struct Frames {
    pub(crate) ring: Ring,
    pub(crate) intake: Intake,
    pub(crate) pass: Pass,
    // one frame, for copies
    pub(crate) copies: Batch,
    // of each session
    pub(crate) sessions: Vec<Batch>,
}

// The batches of so many sessions. After an error all of their frames are back in the pool.
fn make_batches(alloc: Global, count: u32, pool: &mut Pool) -> Result<Vec<Batch>, AllocError>
    requires few { count ≤ 64 }
    requires left { 16 * count ≤ count_left pool.old.left }
    ensures free { IfOk result (λ bs. AllByRecursion (IsFreeIn pool.old.region 16) bs.items) }
    ensures count { IfOk result (λ bs. length bs.items ≡ count) }
    ensures region { pool.new.region ≡ pool.old.region }
    ensures left { OnOk result
        (count_left pool.old.left ≡ count_left pool.new.left + 16 * count) }
    ensures out { OnOk result
        (count_out pool.new.left ≡ count_out pool.old.left + 16 * count) }
    ensures back { OnErr result (count_out pool.new.left ≡ count_out pool.old.left) }
{
    let mut batches = Vec::with_capacity(alloc, count as usize)?;
    for _number in 0..count {
        match Batch::new(alloc, SESSION_FRAMES, pool) {
            Ok(batch) => put(&mut batches, batch),
            Err(e) => {
                close_batches(batches, pool);
                return Err(e);
            }
        }
    }
    Ok(batches)
}

// Gives the frames of all batches back.
fn close_batches(batches: Vec<Batch>, pool: &mut Pool)
    requires free { AllByRecursion (IsFreeIn pool.old.region 16) batches.items }
    ensures region { pool.new.region ≡ pool.old.region }
    ensures out { count_out pool.old.left
        ≡ count_out pool.new.left + 16 * length batches.items }
{
    let mut batches = batches;
    while let Some(batch) = batches.pop() {
        batch.close(pool);
    }
    batches.destroy_empty();
}

/// The pool of the frames of a mount, for so many sessions. All of them are left.
pub(crate) fn make_pool(alloc: Global, shape: &Shape, sessions: u32) -> Result<Pool, AllocError>
    requires accepted { IsAccepted shape.now }
    requires few { sessions ≤ 64 }
    ensures left { IfOk result
        (λ pool. count_left pool.left ≡ shape.now.ring + 1 + 16 * sessions) }
    ensures out { IfOk result (λ pool. count_out pool.left ≡ 0) }
    ensures size { IfOk result (λ pool. pool.region.size ≡ shape.now.sector) }
{
    let count = shape.ring + 1 + SESSION_FRAMES * sessions;
    Pool::new(alloc, count, shape.sector)
}

/// Ends a pool that has all its frames back.
pub(crate) fn end_pool(pool: Pool)
    requires { count_out pool.left ≡ 0 }
{
    match pool.close() {
        Ok(()) => (),
        Err(_pool) => unreachable!(),
    }
}

impl Frames {
    /// The frames of a mount of a drive of this shape, for so many sessions. The ring begins with
    /// the position `first`.
    ///
    /// Fails only where there isn't the memory, of which it takes all that the ring uses. All
    /// frames are back in the pool then.
    pub(crate) fn new(
        alloc: Global,
        shape: &Shape,
        first: u64,
        sessions: u32,
        pool: &mut Pool,
    ) -> Result<Frames, AllocError>
        requires accepted { IsAccepted shape.now }
        requires first { first ≤ 2 ^ 62 }
        requires few { sessions ≤ 64 }
        requires left { shape.now.ring + 1 + 16 * sessions ≤ count_left pool.old.left }
        requires size { pool.old.region.size ≡ shape.now.sector }
        ensures frames { IfOk result (AreFrames shape.now first sessions pool.old.region) }
        ensures region { pool.new.region ≡ pool.old.region }
        ensures out { OnOk result (count_out pool.new.left
            ≡ count_out pool.old.left + shape.now.ring + 1 + 16 * sessions) }
        ensures back { OnErr result (count_out pool.new.left ≡ count_out pool.old.left) }
    {
        let copies = Batch::new(alloc, 1, pool)?;
        let Ok(batches) = make_batches(alloc, sessions, pool) else {
            copies.close(pool);
            return Err(AllocError);
        };
        let reserve = shape.units() * shape.ws_opt;
        match Ring::new(alloc, shape.ring, reserve, first, shape.capacity, pool) {
            Ok((ring, intake, pass)) => Ok(Frames {
                ring,
                intake,
                pass,
                copies,
                sessions: batches,
            }),
            Err(e) => {
                close_batches(batches, pool);
                copies.close(pool);
                Err(e)
            }
        }
    }

    /// Gives all frames back to their pool. The ring ends, of which nothing was claimed.
    pub(crate) fn give_back(self, pool: &mut Pool)
        requires frames { (s : ShapeOf) × (first : ℕ) × (sessions : ℕ)
            × AreFrames s first sessions pool.old.region self
            × (count_out pool.old.left ≡ s.ring + 1 + 16 * sessions) }
        ensures region { pool.new.region ≡ pool.old.region }
        ensures none_out { count_out pool.new.left ≡ 0 }
    {
        let Frames {
            ring,
            intake,
            pass,
            copies,
            sessions,
        } = self;
        close_batches(sessions, pool);
        copies.close(pool);
        ring.close(intake, pass, pool);
    }
}
