//! Which line is collected in a world with an overwritten line.

ghost use Rattle.std.specs.Prelude.{◌≡◌, true, Some, None};
ghost use Rattle.pblk_world.specs.World.{log_of};
ghost use Rattle.pblk_world.specs.Space.{is_due};
ghost use Rattle.pblk_world.specs.Victims.{live, taken_up_to};
ghost use Rattle.pblk_world.specs.AtRest.{victim_now, pad_target, IsCopyDue};
ghost use Rattle.world_tests.specs.Simple.{begun_world};
ghost use Rattle.world_tests.specs.Overwritten.{next_landed, third_landed, overwritten_world};
ghost use Rattle.world_tests.specs.Crowded.{crowded_image};

/// Collection is due from the beginning, but no line may be collected before a start record has
/// landed whose front is above all positions of the first line. Then that line is at work, until it
/// is freed.
pub fn a_line_comes_to_work()
    ensures due { is_due crowded_image (log_of begun_world) ≡ true }
    ensures early { victim_now crowded_image (log_of (next_landed 5)) ≡ None }
    ensures at_work { victim_now crowded_image (log_of (third_landed 5)) ≡ Some 0 }
    ensures freed { victim_now crowded_image (log_of overwritten_world) ≡ None }
{}

/// Where its sector was written again nothing is live in it, and pads are asked for up to the
/// position that took it. Where it wasn't the sector is to be copied.
pub fn what_is_live_is_copied()
    ensures taken { live crowded_image (log_of (third_landed 5)) 0 ≡ 0 }
    ensures taker { taken_up_to crowded_image (log_of (third_landed 5)) 0 ≡ 2 }
    ensures pads { pad_target crowded_image (log_of (third_landed 5)) 0 ≡ 2 }
    ensures live { live crowded_image (log_of (third_landed 6)) 0 ≡ 1 }
    ensures untaken { taken_up_to crowded_image (log_of (third_landed 6)) 0 ≡ 0 }
    ensures copy { IsCopyDue crowded_image (log_of (third_landed 6)) }
{}
