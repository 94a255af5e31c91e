//! Laws on mounts in which no user's entry is taken any more: each is the contract of a function
//! that does nothing.

ghost use Rattle.std.specs.Prelude.{◌+◌, ◌≤◌, ◌<◌, ℕ, length, take};
ghost use Rattle.pblk_model.specs.Image.{Image};
ghost use Rattle.pblk_world.specs.Fronts.{taken, waiting};
ghost use Rattle.pblk_world.specs.LegalMounts.{IsLegalMount};
ghost use Rattle.pblk_world.specs.Orders.{AreAfterResets};
ghost use Rattle.pblk_world.specs.Reasons.{HasReasons};
ghost use Rattle.pblk_world.specs.Space.{position_limit};
ghost use Rattle.pblk_world.specs.Victims.{engine_prefix};
ghost use Rattle.pblk_world.specs.World.{World, log_of};
ghost use Rattle.rest_laws.specs.RoomRuns.{IsReasonedMount};
ghost use Rattle.rest_laws.specs.TidyMounts.{IsTidyMount};
ghost use Rattle.settle_laws.specs.Quiet.{AreBegunReset, IsQuietFrom, most_work};
ghost use Rattle.rest_laws.specs.Work.{work_of};
ghost use Rattle.settle_laws.specs.Quiet.{most_work_by};

/// Let no user's entry be taken from a length of the engine's log on, and let copies be begun from
/// there on where no reset is left to be made, as a worker of all roles begins them. Then the mount
/// makes so many pieces of work at most from there, whoever makes them and whatever was in flight
/// at that length. Each of them is an event of the engine's log: an entry is taken, a line is
/// opened, a stripe is placed, or a reset is done. It is said of mounts of which all that was taken
/// and placed had its reason (clause `reasoned`), and of those over a tidy image in which nothing
/// failed (clause `tidy`).
pub fn a_quiet_mount_comes_to_an_end()
    ensures reasoned { (i : Image) (w : World) (from : ℕ) → IsReasonedMount i w
        → AreBegunReset i (log_of w) from → 0 < from → from ≤ length (log_of w 0)
        → IsQuietFrom (log_of w) from
        → work_of (log_of w 0) ≤ work_of (take from (log_of w 0))
        + most_work i (engine_prefix from (log_of w)) }
    ensures tidy { (i : Image) (w : World) (from : ℕ) → IsTidyMount i w
        → AreAfterResets i (log_of w) → HasReasons i (log_of w)
        → taken (log_of w 0) < position_limit (log_of w 0)
        → AreBegunReset i (log_of w) from → 0 < from → from ≤ length (log_of w 0)
        → IsQuietFrom (log_of w) from
        → work_of (log_of w 0) ≤ work_of (take from (log_of w 0))
        + most_work i (engine_prefix from (log_of w)) }
{}

/// How many pieces of work these are at most is told by the shape and by how many entries wait.
pub fn the_most_work_is_told_by_the_shape()
    ensures { (i : Image) (w : World) (n : ℕ) → IsLegalMount i w
        → most_work i (engine_prefix n (log_of w))
        ≤ most_work_by i.shape (length (waiting i.shape (take n (log_of w 0)))) }
{}
