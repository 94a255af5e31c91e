//! A world in which a line fails and is freed, and a sector is copied.

ghost use Rattle.pblk_world.specs.Legal.{IsLegal};
ghost use Rattle.world_tests.specs.Steps.{image};
ghost use Rattle.world_tests.specs.Collected.{collected_world};

use pblk_laws::spelling_fills_its_blocks;
use pblk_model::Shape;

/// A world in which two programs of a line fail, the line is freed and a chunk of it reset, and a
/// sector is written, copied, and copied once more too late, is legal.
pub fn a_world_with_a_freed_line_is_legal()
    ensures { IsLegal image collected_world }
{
    let _shape = Shape::small();
    spelling_fills_its_blocks();
}
