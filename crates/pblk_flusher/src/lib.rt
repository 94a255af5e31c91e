//! Lanes: threads that do a target's work beside its sessions.
#![tactic(auto)]

ghost use Rattle.pblk_engine.specs.Lanes.{HasRunAs};
ghost use Rattle.pblk_engine.specs.declared.outcomes.Role.TheVariants as roles;

use pblk_engine::{Closing, Did, DriveErr, Engine, Idle, LaneEnd, Mount, Role, Worker};
use std::sync::Wait;
use unit_port::Unit;

/// Does the work of a lane: it pumps in the role Lane, turn after turn, until the closing is set or
/// a unit answers that it is stopped. A lane has stripes programmed, chunks reset and lines opened.
/// It copies nothing.
///
/// `Closed` comes only where the closing was set, and shows that. Then none of the lane's commands
/// was stopped. `Stopped` comes only where the lane's last command was stopped, and tells whose
/// unit's it was. None was stopped before.
///
/// A lane that finds nothing to do sleeps. It wakes when a claim in the write ring passes a
/// multiple of 64, and after 10 milliseconds anyhow. Who sets the closing wakes it by `Ring::wake`.
///
/// Each event that it adds to the logs is legal: that holds of whatever lies under the engine's
/// locks.
pub fn run_lane<'a, R: Wait, M: Mount, U: Unit>(
    rt: &R,
    engine: &Engine<M, U>,
    worker: &mut Worker<M>,
    closing: &'a Closing,
) -> LaneEnd<'a>
    ensures ran { HasRunAs roles.Lane closing.now worker.old worker.new result }
{
    let mut idle = Idle::new();
    for _ in rt.forever() {
        if let Some(set) = closing.is_set() {
            return LaneEnd::Closed(set);
        }
        let claimed = engine.ring().peek();
        match engine.pump(rt, worker, Role::Lane) {
            Err(DriveErr { unit, event: _ }) => return LaneEnd::Stopped(unit),
            Ok(Did::Nothing(_) | Did::Other) => idle.wait(rt, engine.ring(), claimed),
            Ok(_) => idle.reset(),
        }
    }
    unreachable!()
}
