//! A world in which a sector is written to the very block that it had before.

ghost use Rattle.std.specs.Prelude.{◌≡◌, Some, take, slice_get};
ghost use Rattle.pblk_model.specs.Contents.{contents};
ghost use Rattle.pblk_model.specs.History.{after as after_history};
ghost use Rattle.pblk_model.specs.Image.{block_at};
ghost use Rattle.pblk_world.specs.AtRest.{logs_at};
ghost use Rattle.pblk_world.specs.Fronts.{history, last_take};
ghost use Rattle.pblk_world.specs.Legal.{IsLegal};
ghost use Rattle.pblk_world.specs.Lines.{found_image};
ghost use Rattle.pblk_world.specs.Taking.{IsPlaceOfLatest};
ghost use Rattle.pblk_world.specs.World.{log_of, media};
ghost use Rattle.world_tests.specs.Steps.{sector};
ghost use Rattle.world_tests.specs.Older.{older_image};
ghost use Rattle.world_tests.specs.Rewritten.{next_block, place_then, rewritten_world, IsToldByLba};

use pblk_laws::spelling_fills_its_blocks;
use pblk_model::Shape;

/// A world in which an older line is freed, reset and opened again, and a sector is written to the
/// block that it had when the mount began, is legal.
pub fn a_world_with_a_rewritten_block_is_legal()
    ensures { IsLegal older_image rewritten_world }
{
    let _shape = Shape::small();
    spelling_fills_its_blocks();
}

/// Who looked the sector up when the mount had begun, and finds its number alone in the mark of the
/// block there now, would read what was written since, at another position.
pub fn a_block_isnt_told_by_its_sector_alone()
    ensures place { IsPlaceOfLatest older_image (logs_at 1 (log_of rewritten_world)) 5 place_then
        (last_take (take 1 (log_of rewritten_world 0)) 5) }
    ensures held { slice_get (after_history (contents (found_image older_image
        (log_of rewritten_world))) (history (take 1 (log_of rewritten_world 0)))) 5
        ≡ Some sector }
    ensures block { block_at (media older_image (log_of rewritten_world)) place_then.line
        place_then.at ≡ Some next_block }
    ensures wrong { ¬ IsToldByLba older_image rewritten_world }
{}
