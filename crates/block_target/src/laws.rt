//! Laws on what a target answers: each is the contract of a function that does no work.

ghost use Rattle.std.specs.Prelude.{ℕ, ◌≡◌, ◌+◌, ◌<◌, ◌≤◌, List, take, Some};
ghost use Rattle.pblk_model.specs.declared.shape.Shape.{Shape};
ghost use Rattle.pblk_model.specs.Contents.{end};
ghost use Rattle.pblk_model.specs.Image.{Image};
ghost use Rattle.pblk_model.specs.Sealed.{IsSealed};
ghost use Rattle.pblk_world.specs.AtRest.{logs_at, IsWornFlush};
ghost use Rattle.pblk_world.specs.EngineLog.{Begun, begun};
ghost use Rattle.pblk_world.specs.Fronts.{taken};
ghost use Rattle.pblk_world.specs.Space.{room};
ghost use Rattle.pblk_world.specs.World.{World, Logs, log_of, media};
ghost use Rattle.pblk_world.specs.LegalMounts.{IsLegalMount};
ghost use Rattle.block_target.specs.Moments.{IsMoment};
ghost use Rattle.block_target.specs.Refusals.{IsWriteRefusal};
ghost use Rattle.block_target.specs.Opened.{AreReadied, CanOpen};
ghost use Rattle.scan_recovery.specs.Readying.{AreHandedBack};
ghost use Rattle.unit_port.specs.Unit.{ModelUnit};
ghost use Rattle.prefix_law.specs.PlacedAgain.{ArePlacedAgain};

use prefix_law::the_end_is_the_front_synced;

/// A write that is refused had no room: it ends before the sectors do that would have been taken.
pub fn a_refused_write_has_no_room()
    ensures { (i : Image) (logs : Logs) (n count wanted have : ℕ)
        → IsWriteRefusal i logs n count wanted have
        → room i (logs_at n logs) < taken (take n (logs 0)) + count }
{}

/// A flush, or the close, that is refused tells what is on the drive, unless an entry waited then
/// that had been placed before: its stripe was lost. Over a sealed drive there was a moment at
/// which all that it wanted was taken, and what recovery would have found ended at what it has.
pub fn a_refused_flush_tells_the_end()
    ensures { (i : Image) (w : World) (b : Begun) (n wanted have : ℕ)
        → IsLegalMount i w → IsSealed i → begun (log_of w 0) ≡ Some b
        → ArePlacedAgain i.shape (take n (log_of w 0)) → IsWornFlush i (log_of w) n wanted have
        → (past : World) × IsMoment w n past × (wanted ≤ taken (log_of past 0))
        × (end (media i (log_of past)) ≡ have) }
{
    the_end_is_the_front_synced();
}

/// What units did that an opening hands back is of a legal world: a legal mount in which the
/// engine did nothing. The units are as it leaves them.
pub fn a_refused_opening_is_of_a_legal_world()
    ensures { (s : Shape) (us new : List ModelUnit) → CanOpen s us → AreHandedBack s us new
        → AreReadied s us new }
{}
