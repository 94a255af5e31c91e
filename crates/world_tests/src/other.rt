//! Worlds with a stray line, and with a stop of the drive.

ghost use Rattle.pblk_world.specs.Legal.{IsLegal};
ghost use Rattle.world_tests.specs.Steps.{image};
ghost use Rattle.world_tests.specs.Stray.{stray_image, stray_world, pads_part_of_a_stripe, pads_with_a_sector, leaves_a_stray_out, blank_line_is_reset, stray_is_reset_twice, stray_is_opened_before_its_reset};
ghost use Rattle.world_tests.specs.Halted.{halted_world, stopped_program_lands_more, stripe_beside_a_stopped_one};

use pblk_laws::spelling_fills_its_blocks;
use pblk_model::Shape;

/// A world in which an Open chunk is padded to its end, its line is reset as a stray and then
/// opened, is legal.
pub fn a_world_with_a_stray_is_legal()
    ensures { IsLegal stray_image stray_world }
{}

/// Pads end a stripe and are Pad blocks; a mount names all strays, and resets nothing else, once,
/// and before it is opened.
pub fn wrong_strays_are_refused()
    ensures part { ¬ IsLegal stray_image pads_part_of_a_stripe }
    ensures sector { ¬ IsLegal stray_image pads_with_a_sector }
    ensures left_out { ¬ IsLegal stray_image leaves_a_stray_out }
    ensures blank { ¬ IsLegal stray_image blank_line_is_reset }
    ensures twice { ¬ IsLegal stray_image stray_is_reset_twice }
    ensures unreset { ¬ IsLegal stray_image stray_is_opened_before_its_reset }
{}

/// A world in which a program is stopped, offered again and stopped again, is legal.
pub fn a_halted_world_is_legal()
    ensures { IsLegal image halted_world }
{
    let _shape = Shape::small();
    spelling_fills_its_blocks();
}

/// A stopped unit lands nothing more, and gets no other stripe.
pub fn wrong_halts_are_refused()
    ensures lands { ¬ IsLegal image stopped_program_lands_more }
    ensures placed { ¬ IsLegal image stripe_beside_a_stopped_one }
{}
