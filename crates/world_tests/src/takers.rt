//! What took a sector from a line, where it did so before the sector's stripe had landed.

ghost use Rattle.std.specs.Prelude.{◌≡◌};
ghost use Rattle.pblk_world.specs.Legal.{IsLegal};
ghost use Rattle.pblk_world.specs.Victims.{live, taken_up_to};
ghost use Rattle.pblk_world.specs.World.{log_of};
ghost use Rattle.world_tests.specs.Simple.{data_placed};
ghost use Rattle.world_tests.specs.Steps.{image};
ghost use Rattle.world_tests.specs.Takers.{after_landed, after_lost, between_taken};

use pblk_laws::spelling_fills_its_blocks;
use pblk_model::Shape;

/// A world in which a sector is written again before its stripe has landed is legal, whether the
/// stripe then lands or is lost.
pub fn worlds_with_a_sector_taken_in_flight_are_legal()
    ensures landed { IsLegal image after_landed }
    ensures lost { IsLegal image after_lost }
{
    let _shape = Shape::small();
    spelling_fills_its_blocks();
}

/// The sector isn't live in the line from then on. It counts as taken from the line once its stripe
/// has landed. Where the stripe is lost it doesn't, though a block of it stands in the line.
pub fn a_taker_counts_from_the_landing_on()
    ensures placed { live image (log_of data_placed) 0 ≡ 1 }
    ensures live { live image (log_of between_taken) 0 ≡ 0 }
    ensures in_flight { taken_up_to image (log_of between_taken) 0 ≡ 0 }
    ensures landed { taken_up_to image (log_of after_landed) 0 ≡ 2 }
    ensures lost { taken_up_to image (log_of after_lost) 0 ≡ 0 }
{}
