//! A world in which a sector is written again, and what was first written is freed.

ghost use Rattle.pblk_world.specs.Legal.{IsLegal};
ghost use Rattle.world_tests.specs.Steps.{image};
ghost use Rattle.world_tests.specs.Overwritten.{last_record_is_freed, overwritten_world, position_is_above_the_front};

use pblk_laws::spelling_fills_its_blocks;
use pblk_model::Shape;

/// A world in which a sector is written again, in a program of which a part lands before it fails,
/// and once more in another line, and the first line is freed, is legal.
pub fn a_world_with_an_overwritten_line_is_legal()
    ensures { IsLegal image overwritten_world }
{
    let _shape = Shape::small();
    spelling_fills_its_blocks();
}

/// A line isn't freed while it has the only record of a sector, nor while a position of it isn't
/// below the front of the newest start record.
pub fn needed_lines_are_kept()
    ensures only_record { ¬ IsLegal image last_record_is_freed }
    ensures high_position { ¬ IsLegal image position_is_above_the_front }
{}
