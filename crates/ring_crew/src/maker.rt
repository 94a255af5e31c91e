//! One maker, in its thread.
ghost use Rattle.std.specs.Prelude.{◌≡◌, ◌+◌, ◌*◌, ◌<◌, ◌≤◌, ◌^◌};
ghost use Rattle.write_ring.specs.Handles.{pass_view, ring_key};
ghost use Rattle.ring_crew.specs.Ready.{HasTurns, IsMaker};

use crate::sectors::number;
use crossbeam_utils::Backoff;
use std::sync::Wait;
use write_ring::{Batch, Pass, Ring};

/// For how many makers a target has sectors.
pub(crate) const MAKERS: u64 = 128;

/// What a maker has: its pass, its batch, the bytes of its next sector, which maker it is, and how many sectors
/// it has filled frames with.
pub(crate) struct Maker {
    pub(crate) pass: Pass,
    pub(crate) batch: Batch,
    pub(crate) sector: Vec<u8>,
    pub(crate) which: u8,
    pub(crate) count: u64,
}

// Fills all frames of the batch with its next sectors. A sector tells its turn and its maker.
fn fill(ring: &Ring, maker: &mut Maker, batch: u32)
    requires maker { IsMaker ring.now maker.old 0 batch }
    requires small { maker.old.count ≤ 2 ^ 36 }
    requires sectors { 128 * (maker.old.count + batch) ≤ (ring_key ring.now).capacity }
    ensures maker { IsMaker ring.now maker.new batch batch }
    ensures count { maker.new.count ≡ maker.old.count + batch }
    ensures shares { (pass_view maker.new.pass).pass.shares
        ≡ (pass_view maker.old.pass).pass.shares }
{
    for _filled in 0..batch {
        let lba = MAKERS * maker.count + u64::from(maker.which);
        number(maker.sector.as_mut_slice(), lba);
        maker.batch.fill(lba, None, maker.sector.as_slice());
        maker.count += 1;
    }
}

// Puts what the batch is filled with, once there is room.
fn put<R: Wait>(rt: &R, ring: &Ring, maker: &mut Maker, batch: u32)
    requires maker { IsMaker ring.now maker.old batch batch }
    requires some { 0 < batch }
    ensures maker { IsMaker ring.now maker.new 0 batch }
    ensures count { maker.new.count ≡ maker.old.count }
    ensures shares { (pass_view maker.new.pass).pass.shares
        ≡ (pass_view maker.old.pass).pass.shares }
{
    let backoff = Backoff::new();
    for _ in rt.forever() {
        let put = ring.put(rt, &mut maker.pass, &mut maker.batch);
        if put.is_ok() {
            return;
        }
        backoff.snooze();
    }
    unreachable!()
}

/// Puts so many batches.
pub(crate) fn work<R: Wait>(rt: &R, ring: &Ring, maker: &mut Maker, batch: u32, turns: u32)
    requires maker { IsMaker ring.now maker.old 0 batch }
    requires first { maker.old.count ≡ 0 }
    requires some { 0 < batch }
    requires few { batch ≤ 16 }
    requires sectors { HasTurns ring.now turns }
    ensures maker { IsMaker ring.now maker.new 0 batch }
    ensures shares { (pass_view maker.new.pass).pass.shares
        ≡ (pass_view maker.old.pass).pass.shares }
{
    for _turn in 0..turns {
        fill(ring, maker, batch);
        put(rt, ring, maker, batch);
    }
}
