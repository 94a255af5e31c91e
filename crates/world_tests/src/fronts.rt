//! The fronts and the rest of the world in which a sector is written.

ghost use Rattle.std.specs.Prelude.{◌≡◌, [], ◌∷◌, None};
ghost use Rattle.pblk_model.specs.Shape.{small};
ghost use Rattle.pblk_world.specs.World.{log_of};
ghost use Rattle.pblk_world.specs.Fronts.{taken, synced, history, user_positions};
ghost use Rattle.pblk_world.specs.Space.{free_addresses, addresses, freed, room};
ghost use Rattle.pblk_world.specs.Victims.{live};
ghost use Rattle.pblk_world.specs.AtRest.{victim_now, IsAtRest};
ghost use Rattle.world_tests.specs.Steps.{image, sector};
ghost use Rattle.world_tests.specs.Simple.{start_landed, simple_world};

/// One position is taken and synced, and its slot isn't free yet. The history has one line. Seven
/// lines are Free, and a stripe of the eighth has its sector; 56 positions may be granted.
pub fn its_fronts_are_known()
    ensures taken { taken (log_of simple_world 0) ≡ 1 }
    ensures synced { synced small (log_of simple_world 0) ≡ 1 }
    ensures freed { freed small (log_of simple_world 0) ≡ 0 }
    ensures history { history (log_of simple_world 0) ≡ record { lba = 5; sector = sector } ∷ [] }
    ensures positions { user_positions (log_of simple_world 0) ≡ 0 ∷ [] }
    ensures free { free_addresses image (log_of simple_world) ≡ 280 }
    ensures addresses { addresses image (log_of simple_world) ≡ 316 }
    ensures room { room image (log_of simple_world) ≡ 56 }
    ensures live { live image (log_of simple_world) 0 ≡ 1 }
    ensures victim { victim_now image (log_of simple_world) ≡ None }
{}

/// Before the sector is placed all is at rest where nobody asks for a pad, and it isn't where its
/// position is asked for.
pub fn a_waiting_sector_rests()
    ensures rests { IsAtRest image (log_of start_landed) 0 5 }
    ensures asked { ¬ IsAtRest image (log_of start_landed) 1 5 }
{}
