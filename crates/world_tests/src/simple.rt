//! A world in which a sector is written.

ghost use Rattle.pblk_world.specs.Legal.{IsLegal};
ghost use Rattle.world_tests.specs.Steps.{image};
ghost use Rattle.world_tests.specs.Simple.{simple_world};

use pblk_laws::spelling_fills_its_blocks;
use pblk_model::Shape;

/// A world in which a sector is taken, a line opened, and the start record and the sector placed
/// and landed, is legal.
pub fn a_world_is_legal()
    ensures { IsLegal image simple_world }
{
    let _shape = Shape::small();
    spelling_fills_its_blocks();
}
