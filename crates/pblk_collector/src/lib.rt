//! The collector: a thread that copies what a victim still holds.
#![tactic(auto)]

ghost use Rattle.pblk_engine.specs.Lanes.{HasRunAs};
ghost use Rattle.pblk_engine.specs.declared.outcomes.Role.TheVariants as roles;

use pblk_engine::{Closing, Did, Engine, Idle, LaneEnd, Mount, Worker};
use std::sync::Wait;
use unit_port::{Unit, UnitErr};

/// Does the work of the collector: it copies sectors of the victim at work, one after another,
/// until the closing is set or a unit answers that it is stopped. All its commands are fetches.
///
/// `Closed` comes only where the closing was set, and shows that. Then none of the collector's
/// commands was stopped. `Stopped` comes only where its last command was stopped, and tells whose
/// unit's it was. None was stopped before. A fetch that failed is made again, after a wait, and
/// that any number of times.
///
/// A collector that finds nothing to copy, or no room for a copy, sleeps. It wakes when a claim in
/// the write ring passes a multiple of 64, and after 10 milliseconds anyhow. Who sets the closing
/// wakes it by `Ring::wake`.
///
/// Each event that it adds to the logs is legal, and no sector's latest write changes: that holds
/// of whatever lies under the engine's locks.
pub fn run_collector<'a, R: Wait, M: Mount, U: Unit>(
    rt: &R,
    engine: &Engine<M, U>,
    worker: &mut Worker<M>,
    closing: &'a Closing,
) -> LaneEnd<'a>
    ensures ran { HasRunAs roles.Collector closing.now worker.old worker.new result }
{
    let mut idle = Idle::new();
    for _ in rt.forever() {
        if let Some(set) = closing.is_set() {
            return LaneEnd::Closed(set);
        }
        let claimed = engine.ring().peek();
        match engine.collect(rt, worker) {
            Ok(Did::Copied) => idle.reset(),
            Ok(_) => idle.wait(rt, engine.ring(), claimed),
            Err(e) => match e.cause {
                UnitErr::Stopped => return LaneEnd::Stopped(e.unit),
                // the fetch is made again
                UnitErr::Failed => idle.wait(rt, engine.ring(), claimed),
            },
        }
    }
    unreachable!()
}
