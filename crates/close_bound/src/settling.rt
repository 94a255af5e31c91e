//! The law on a settling: the contract of a function that does nothing.

ghost use Rattle.std.specs.Prelude.{◌≡◌, ◌+◌, ◌<◌, ◌≤◌, ℕ, List, length};
ghost use mathlib.Core.List.{IsPrefix};
ghost use Rattle.pblk_model.specs.Image.{Image};
ghost use Rattle.pblk_world.specs.Fronts.{taken};
ghost use Rattle.pblk_world.specs.Orders.{AreAfterResets};
ghost use Rattle.pblk_world.specs.Reasons.{HasReasons};
ghost use Rattle.pblk_world.specs.Space.{position_limit};
ghost use Rattle.pblk_world.specs.Victims.{engine_prefix};
ghost use Rattle.pblk_world.specs.World.{World, log_of};
ghost use Rattle.rest_laws.specs.TidyMounts.{HasNumbersLeft, IsTidyMount};
ghost use Rattle.settle_laws.specs.Quiet.{most_work};
ghost use Rattle.unit_port.specs.Unit.{ModelUnit};
ghost use Rattle.chronicle.specs.Prefixes.{logs_of};
ghost use Rattle.pblk_engine.specs.Alone.{HasSettledAlone};
ghost use Rattle.pblk_engine.specs.Ticks.{NoneStopped};
ghost use Rattle.pblk_engine.specs.Workers.{WorkerView};

use pblk_engine::each_pump_that_did_something_is_a_piece_of_work;
use rest_laws::a_copy_that_is_due_has_room;
use settle_laws::a_quiet_mount_comes_to_an_end;

/// A settling whose worker goes on alone makes so many pumps at most as are told by the logs, as
/// they are once all that was claimed is taken, and one more, which lost a command. So it is in a
/// mount over a tidy image in which nothing fails, where all that was done had its reason and no
/// program was stopped, as long as numbers and positions are left.
pub fn a_settling_of_a_tidy_drive_has_a_bound()
    ensures { (i : Image) (w : World) (handed : List ModelUnit) (old new : WorkerView)
        (start stop : ℕ) → (t : HasSettledAlone i handed old new start stop)
        → ((author : ℕ) → IsPrefix (logs_of new.known author) (log_of w author))
        → logs_of new.known 0 ≡ log_of w 0 → IsTidyMount i w
        → AreAfterResets i (log_of w) → HasReasons i (log_of w)
        → HasNumbersLeft i.shape (log_of w 0)
        → taken (log_of w 0) < position_limit (log_of w 0) → NoneStopped (log_of w 0)
        → 0 < length (logs_of t.first.known 0)
        → stop
        ≤ start + most_work i (engine_prefix (length (logs_of t.first.known 0)) (log_of w)) + 1 }
{
    a_copy_that_is_due_has_room();
    each_pump_that_did_something_is_a_piece_of_work();
    a_quiet_mount_comes_to_an_end();
}
