//! The law on the close of a target: the contract of a function that does nothing.

ghost use Rattle.std.specs.Prelude.{ℕ, ◌+◌, ◌<◌, ◌≤◌, List, Result, length, take};
ghost use Rattle.pblk_world.specs.Fronts.{taken, waiting};
ghost use Rattle.pblk_world.specs.Space.{position_limit};
ghost use Rattle.pblk_world.specs.Victims.{engine_prefix};
ghost use Rattle.pblk_world.specs.World.{log_of};
ghost use Rattle.rest_laws.specs.Tidy.{IsTidy};
ghost use Rattle.rest_laws.specs.TidyMounts.{HasNoFailures, HasNumbersLeft};
ghost use Rattle.settle_laws.specs.Quiet.{most_work, most_work_by};
ghost use Rattle.unit_port.specs.Unit.{ModelUnit};
ghost use Rattle.write_ring.specs.declared.view.Key.{Key};
ghost use Rattle.chronicle.specs.Prefixes.{logs_of};
ghost use Rattle.chronicle.specs.Views.{Past};
ghost use Rattle.pblk_engine.specs.Ticks.{NoneStopped};
ghost use Rattle.pblk_engine.specs.Workers.{WorkerView};
ghost use Rattle.pblk_engine.specs.declared.errors.SettleErr.{SettleErr};
ghost use Rattle.block_target.specs.Closes.{IsClosed};
ghost use Rattle.block_target.specs.Sessions.{SessionView};

use crate::settling::a_settling_of_a_tidy_drive_has_a_bound;
use settle_laws::the_most_work_is_told_by_the_shape;

/// A close of a target on a tidy drive, in whose mount no command failed and none was stopped,
/// makes so many pumps at most as the logs tell, as they are once all that was claimed is taken,
/// and one more (clause `logs`). It isn't more than the drive's shape and the number of entries
/// that wait then tell alone (clause `shape`). So it is as long as numbers and positions are left,
/// whatever other threads had in flight.
pub fn a_close_of_a_tidy_drive_has_a_bound()
    ensures logs { (past : Past) (key : Key) (handed : List ModelUnit) (wear : List (List ℕ))
        (tickets : List SessionView) (workers : List WorkerView)
        (settled : Result (Unit {0}) SettleErr) (units : List ModelUnit) (worn : List (List ℕ))
        → (c : IsClosed past key handed wear tickets workers settled units worn)
        → IsTidy past.image → HasNoFailures (log_of c.world) → NoneStopped (log_of c.world 0)
        → HasNumbersLeft past.image.shape (log_of c.world 0)
        → taken (log_of c.world 0) < position_limit (log_of c.world 0)
        → c.worked_off.pumps ≤ most_work past.image
        (engine_prefix (length (logs_of c.worked_off.settled.first.known 0)) (log_of c.world))
        + 1 }
    ensures shape { (past : Past) (key : Key) (handed : List ModelUnit) (wear : List (List ℕ))
        (tickets : List SessionView) (workers : List WorkerView)
        (settled : Result (Unit {0}) SettleErr) (units : List ModelUnit) (worn : List (List ℕ))
        → (c : IsClosed past key handed wear tickets workers settled units worn)
        → IsTidy past.image → HasNoFailures (log_of c.world) → NoneStopped (log_of c.world 0)
        → HasNumbersLeft past.image.shape (log_of c.world 0)
        → taken (log_of c.world 0) < position_limit (log_of c.world 0)
        → let n = length (logs_of c.worked_off.settled.first.known 0) in
        c.worked_off.pumps ≤ most_work_by past.image.shape
        (length (waiting past.image.shape (take n (log_of c.world 0)))) + 1 }
{
    a_settling_of_a_tidy_drive_has_a_bound();
    the_most_work_is_told_by_the_shape();
}
