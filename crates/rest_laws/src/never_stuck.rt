//! Laws on mounts in which nothing is lost, over an image that has room: each is the contract of a
//! function that does nothing.

ghost use Rattle.std.specs.Prelude.{◌≤◌, ◌<◌, ℕ, length, take};
ghost use Rattle.pblk_model.specs.Image.{Image};
ghost use Rattle.pblk_world.specs.AtRest.{logs_at};
ghost use Rattle.pblk_world.specs.Fronts.{waiting};
ghost use Rattle.pblk_world.specs.Space.{addresses};
ghost use Rattle.pblk_world.specs.Victims.{engine_prefix};
ghost use Rattle.pblk_world.specs.World.{World, log_of};
ghost use Rattle.pblk_world.specs.Orders.{AreReset};
ghost use Rattle.rest_laws.specs.RoomRuns.{IsReasonedMount};

/// Where no reset is left to be made, fewer entries wait than data addresses are left. So it is at
/// each length of the engine's log, once the mount has begun (clauses `length` and `prefix`), and
/// at its end (clause `end`).
pub fn what_waits_is_less_than_the_addresses()
    ensures length { (i : Image) (w : World) (n : ℕ) → IsReasonedMount i w
        → 0 < n → n ≤ length (log_of w 0) → AreReset i (logs_at n (log_of w))
        → length (waiting i.shape (logs_at n (log_of w) 0)) < addresses i (logs_at n (log_of w)) }
    ensures prefix { (i : Image) (w : World) (n : ℕ) → IsReasonedMount i w
        → 0 < n → n ≤ length (log_of w 0) → AreReset i (engine_prefix n (log_of w))
        → length (waiting i.shape (take n (log_of w 0)))
        < addresses i (engine_prefix n (log_of w)) }
    ensures end { (i : Image) (w : World) → IsReasonedMount i w
        → 0 < length (log_of w 0) → AreReset i (log_of w)
        → length (waiting i.shape (log_of w 0)) < addresses i (log_of w) }
{}
