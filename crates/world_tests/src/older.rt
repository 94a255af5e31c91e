//! A world over an image of an older mount.

ghost use Rattle.pblk_world.specs.Legal.{IsLegal};
ghost use Rattle.world_tests.specs.Older.{older_image, older_world, older_line_has_no_row, bound_isnt_the_end};

use pblk_laws::spelling_fills_its_blocks;
use pblk_model::Shape;

/// A world in which a sector of an older mount's line is copied into a line of this one, and the
/// older line is freed, is legal.
pub fn a_world_with_an_older_line_is_legal()
    ensures { IsLegal older_image older_world }
{
    let _shape = Shape::small();
    spelling_fills_its_blocks();
}

/// A start record has a row for each older line, with the position at which the mount began as the
/// bound of a line of the mount before.
pub fn wrong_rows_are_refused()
    ensures missing { ¬ IsLegal older_image older_line_has_no_row }
    ensures bound { ¬ IsLegal older_image bound_isnt_the_end }
{}
