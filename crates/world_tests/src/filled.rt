//! A world in which a line is filled and gets its end record.

ghost use Rattle.std.specs.Prelude.{◌≡◌, Some};
ghost use Rattle.pblk_model.specs.Shape.{small};
ghost use Rattle.pblk_model.specs.StartRecord.{start_of};
ghost use Rattle.pblk_model.specs.EndRecord.{end_of};
ghost use Rattle.pblk_model.specs.Contents.{end, sector_of};
ghost use Rattle.pblk_world.specs.World.{log_of, media};
ghost use Rattle.pblk_world.specs.Fronts.{synced};
ghost use Rattle.pblk_world.specs.Legal.{IsLegal};
ghost use Rattle.world_tests.specs.Steps.{sector};
ghost use Rattle.world_tests.specs.Filled.{narrow_image, narrow_start, narrow_end, after_land_end, end_before_data, data_at_the_end};

use pblk_laws::{end_spelling_fills_its_blocks, spelling_fills_its_blocks};
use pblk_model::Shape;

/// A world in which four entries fill a line of width 1, each in a padded stripe, and its end
/// record lands, is legal.
pub fn a_world_with_a_full_line_is_legal()
    ensures { IsLegal narrow_image after_land_end }
{
    let _shape = Shape::small();
    spelling_fills_its_blocks();
    end_spelling_fills_its_blocks();
}

/// What it leaves is read back: the line's two records, an end that is the front synced, and the
/// sector.
pub fn what_a_full_line_leaves_is_read()
    ensures start { start_of (media narrow_image (log_of after_land_end)) 0 ≡ Some narrow_start }
    ensures record_ { end_of (media narrow_image (log_of after_land_end)) 0 narrow_start
        ≡ Some narrow_end }
    ensures ends { end (media narrow_image (log_of after_land_end)) ≡ 4 }
    ensures synced { synced small (log_of after_land_end 0) ≡ 4 }
    ensures sector { sector_of (media narrow_image (log_of after_land_end)) 5 ≡ sector }
{}

/// An end record isn't placed while the unit has another stripe, and no entry in its place.
pub fn wrong_ends_are_refused()
    ensures early { ¬ IsLegal narrow_image end_before_data }
    ensures data_ { ¬ IsLegal narrow_image data_at_the_end }
{}
