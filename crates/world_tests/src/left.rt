//! What the legal worlds leave: the contents are those after the entries that have landed.

ghost use Rattle.std.specs.Prelude.{◌≡◌};
ghost use Rattle.pblk_model.specs.Bytes.{zeros};
ghost use Rattle.pblk_model.specs.Shape.{small};
ghost use Rattle.pblk_model.specs.Contents.{end, sector_of};
ghost use Rattle.pblk_world.specs.World.{log_of, media};
ghost use Rattle.pblk_world.specs.Fronts.{synced};
ghost use Rattle.world_tests.specs.Steps.{image, sector};
ghost use Rattle.world_tests.specs.Simple.{simple_world};
ghost use Rattle.world_tests.specs.Collected.{collected_world};
ghost use Rattle.world_tests.specs.Overwritten.{newer_sector, overwritten_world};
ghost use Rattle.world_tests.specs.Older.{older_image, older_world};
ghost use Rattle.world_tests.specs.Halted.{halted_world};

/// The ends that recovery finds are the fronts synced.
pub fn ends_are_the_fronts()
    ensures simple { end (media image (log_of simple_world))
        ≡ synced small (log_of simple_world 0) }
    ensures collected { end (media image (log_of collected_world))
        ≡ synced small (log_of collected_world 0) }
    ensures overwritten { end (media image (log_of overwritten_world))
        ≡ synced small (log_of overwritten_world 0) }
    ensures older { end (media older_image (log_of older_world))
        ≡ synced small (log_of older_world 0) }
    ensures halted { end (media image (log_of halted_world))
        ≡ synced small (log_of halted_world 0) }
{}

/// The sector 5 holds what landed last, and zeros before.
pub fn what_landed_is_held()
    ensures simple { sector_of (media image (log_of simple_world)) 5 ≡ sector }
    ensures collected { sector_of (media image (log_of collected_world)) 5 ≡ sector }
    ensures overwritten { sector_of (media image (log_of overwritten_world)) 5 ≡ newer_sector }
    ensures older { sector_of (media older_image (log_of older_world)) 5 ≡ sector }
    ensures halted { sector_of (media image (log_of halted_world)) 5 ≡ zeros 512 }
{}
