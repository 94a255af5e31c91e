//! Many makers at once, and the one that takes.
ghost use Rattle.std.specs.Prelude.{◌≡◌, ◌<◌, ◌≤◌, ◌^◌};
ghost use Rattle.std.specs.Thread.{IsSync};
ghost use Rattle.pblk_model.specs.Frames.{count_left, count_out};
ghost use Rattle.write_ring.specs.Handles.{IsPassOf, pass_view};
ghost use Rattle.ring_crew.specs.Ready.{HasTurns, IsCrew, IsMaker, IsTaker};

use crate::maker::{MAKERS, Maker, work};
use crate::taker::{Tally, end, take_all};
use sector_pool::Pool;
use std::alloc::{AllocError, Global};
use std::sync::Wait;
use std::sync::atomic::{AtomicBool, Ordering};
use std::thread::{Threads, join_mut};
use write_ring::{Batch, Pass, Ring};

// How many sectors a maker puts at once at most.
const MOST_BATCH: u32 = 16;

/// What makers are to do with a ring.
#[derive(Clone, Copy, Debug, Drop)]
pub struct Job {
    /// How many positions the ring has room for. All are for users.
    pub size: u32,
    /// How many bytes a sector has.
    pub sector: u32,
    /// How many makers there are.
    pub makers: u8,
    /// How many sectors each of them puts at once, which are 1 to 16.
    pub batch: u32,
    /// How often it puts so many.
    pub turns: u32,
    /// Whether the bytes of what is taken are looked at.
    pub looks: bool,
}

// So many makers at once, each in a thread with a pass and a batch of its own.
fn crew<R: Threads + Wait + Sync>(
    rt: &R,
    alloc: Global,
    ring: &Ring,
    pass: &mut Pass,
    pool: &mut Pool,
    job: Job,
) -> Result<(), AllocError>
    requires crew { IsCrew ring.now pass.old pool.old job.makers }
    requires makers { job.makers ≤ 128 }
    requires some { 0 < job.batch }
    requires few { job.batch ≤ 16 }
    requires sector { pool.old.region.size ≡ job.sector }
    requires turns { HasTurns ring.now job.turns }
    ensures ring { IsPassOf ring.now pass.new }
    ensures shares { (pass_view pass.new).pass.shares ≡ (pass_view pass.old).pass.shares }
    ensures region { pool.new.region ≡ pool.old.region }
    ensures left { count_left pool.new.left ≡ count_left pool.old.left }
    ensures out { count_out pool.new.left ≡ count_out pool.old.left }
{
    if job.makers == 0 {
        return Ok(());
    }
    let which = job.makers - 1;
    let rest = Job {
        makers: which,
        ..job
    };
    let sector = vec![in alloc; 0u8; job.sector as usize]?;
    let batch = Batch::new(alloc, job.batch, pool)?;
    let mut maker = Maker {
        pass: ring.split(pass),
        batch,
        sector,
        which,
        count: 0,
    };
    let (_, others) = join_mut(
        rt,
        &mut || -> ()
            requires { IsSync R.row × IsMaker ring.now maker 0 job.batch × (maker.count ≡ 0)
                × (0 < job.batch) × (job.batch ≤ 16) × HasTurns ring.now job.turns }
            ensures { IsMaker ring.entry.now maker.exit 0 job.batch
                × ((pass_view maker.exit.pass).pass.shares
                ≡ (pass_view maker.entry.pass).pass.shares) }
        { work(rt, ring, &mut maker, job.batch, job.turns) },
        &mut || -> Result<(), AllocError>
            requires { IsSync R.row × IsCrew ring.now pass.now pool.now rest.makers
                × (rest.makers ≤ 128) × (0 < rest.batch) × (rest.batch ≤ 16)
                × (pool.now.region.size ≡ rest.sector) × HasTurns ring.now rest.turns }
            ensures { IsPassOf ring.entry.now pass.exit.now
                × ((pass_view pass.exit.now).pass.shares
                ≡ (pass_view pass.entry.now).pass.shares)
                × (pool.exit.now.region ≡ pool.entry.now.region)
                × (count_left pool.exit.now.left ≡ count_left pool.entry.now.left)
                × (count_out pool.exit.now.left ≡ count_out pool.entry.now.left) }
        { crew(rt, alloc, ring, pass, pool, rest) },
    );
    let Maker {
        pass: own,
        batch,
        sector: _,
        which: _,
        count: _,
    } = maker;
    ring.join(pass, own);
    batch.close(pool);
    others
}

/// The makers of a new ring, while another thread takes. Fails only where there isn't as much memory.
pub fn make_and_take<R: Threads + Wait + Sync>(
    rt: &R,
    alloc: Global,
    job: Job,
) -> Result<Tally, AllocError>
    requires some { 0 < job.size }
    requires few { job.size < 2 ^ 16 }
    requires makers { job.makers < 127 }
    requires some_batch { 0 < job.batch }
    requires few_batch { job.batch ≤ 16 }
    requires long { 16 ≤ job.sector }
{
    let size = job.size;
    let mut pool = Pool::new(alloc, size + MOST_BATCH * u32::from(job.makers), job.sector)?;
    let capacity = MAKERS * u64::from(MOST_BATCH) * u64::from(job.turns);
    let Ok((ring, mut intake, mut pass)) = Ring::new(alloc, size, 0, 0, capacity, &mut pool) else {
        end(pool);
        return Err(AllocError);
    };
    ring.grant(&mut intake, u64::from(size));
    let ended = AtomicBool::new(false);
    let (tally, made) = join_mut(
        rt,
        &mut || -> Tally
            requires { IsTaker ring intake job.size }
            ensures { IsTaker ring intake.exit job.size }
        { take_all(rt, &ring, &mut intake, &job, &ended) },
        &mut || -> Result<(), AllocError>
            requires { IsSync R.row × IsCrew ring pass pool job.makers × (job.makers < 127)
                × (0 < job.batch) × (job.batch ≤ 16) × (pool.region.size ≡ job.sector)
                × HasTurns ring job.turns }
            ensures { IsPassOf ring pass.exit
                × ((pass_view pass.exit).pass.shares
                ≡ (pass_view pass.entry).pass.shares)
                × (pool.exit.region ≡ pool.entry.region)
                × (count_left pool.exit.left ≡ count_left pool.entry.left)
                × (count_out pool.exit.left ≡ count_out pool.entry.left) }
        {
            let made = crew(rt, alloc, &ring, &mut pass, &mut pool, job);
            ended.store(true, Ordering::SeqCst);
            made
        },
    );
    ring.close(intake, pass, &mut pool);
    end(pool);
    made?;
    Ok(tally)
}
