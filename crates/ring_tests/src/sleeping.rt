//! A thread sleeps until a claim passes a multiple of 64.
ghost use Rattle.std.specs.Prelude.{◌≡◌};
ghost use Rattle.std.specs.Thread.{IsSync};
ghost use Rattle.write_ring.specs.Handles.{IsPassOf, pass_view, ring_key};
ghost use Rattle.ring_crew.specs.Ready.{HasOneFrame};

use crate::steps::{SECTOR, Told, put_user};
use ring_crew::end;
use sector_pool::Pool;
use std::alloc::{AllocError, Global};
use std::sync::Wait;
use std::test::Fail;
use std::thread::{Threads, join_mut, sleep};
use std::time::{Clock, Duration, Instant};
use write_ring::{Batch, Ring};

// How many milliseconds the other thread has to fall asleep, before a sector is put.
const BEFORE: u64 = 100;

// The first position of the ring: a claim of it passes a multiple of 64.
const FIRST: u64 = 63;

// Sleeps until something is claimed of the ring, each time for no longer than the limit.
fn doze_at_the_first<R: Wait>(rt: &R, ring: &Ring, limit: Duration) {
    for _ in rt.forever() {
        if ring.peek() != FIRST {
            return;
        }
        ring.doze(rt, FIRST, limit);
    }
}

// One thread sleeps on a new ring, and another puts a sector meanwhile. Tells what the put told.
fn doze_until_put<R: Threads + Wait + Clock + Sync>(
    rt: &R,
    alloc: Global,
    limit: Duration,
) -> Result<Told, AllocError> {
    let mut pool = Pool::new(alloc, 2, SECTOR)?;
    let Ok(mut batch) = Batch::new(alloc, 1, &mut pool) else {
        end(pool);
        return Err(AllocError);
    };
    let Ok((ring, mut intake, mut pass)) = Ring::new(alloc, 1, 0, FIRST, 1, &mut pool) else {
        batch.close(&mut pool);
        end(pool);
        return Err(AllocError);
    };
    ring.grant(&mut intake, FIRST + 1);
    let (told, ()) = join_mut(
        rt,
        &mut || -> Told
            requires { IsPassOf ring pass × HasOneFrame ring batch × (batch.region.size ≡ 16)
                × ((ring_key ring).capacity ≡ 1) }
            ensures { IsPassOf ring pass.exit × HasOneFrame ring batch.exit
                × (batch.exit.region ≡ batch.entry.region)
                × ((pass_view pass.exit).pass.shares ≡ (pass_view pass.entry).pass.shares) }
        {
            sleep(rt, Duration::from_millis(BEFORE));
            put_user(&ring, &mut pass, &mut batch, 0)
        },
        &mut || -> () { doze_at_the_first(rt, &ring, limit) },
    );
    ring.close(intake, pass, &mut pool);
    batch.close(&mut pool);
    end(pool);
    Ok(told)
}

#[test]
fn a_claim_wakes_a_thread_that_dozes(rt: HostRuntime) -> Result<(), Fail> {
    let began = Instant::now(&rt)?;
    let told = doze_until_put(&rt, rt.alloc(), Duration::from_secs(10))?;
    let took = began.elapsed(&rt)?;
    assert_eq!(rt; told, Told::Put(FIRST));
    assert!(rt; took < Duration::from_secs(5));
    Ok(())
}
