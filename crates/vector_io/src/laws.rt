//! Laws on the commands of vectors: each is the contract of a function that does nothing.
ghost use Rattle.std.specs.Prelude.{ℕ, ◌≡◌, List, slice_get, Some};
ghost use Rattle.std.specs.List.{flat_map};
ghost use Rattle.pblk_model.specs.declared.shape.Address.{Address};
ghost use Rattle.pblk_model.specs.Chunk.{Block};
ghost use Rattle.pblk_model.specs.Geometry.{Geometry};
ghost use Rattle.unit_port.specs.Unit.{ModelUnit};
ghost use Rattle.unit_port.specs.Commands.{EventAt, HadEvents, Ran, UnitCommand, events_of};
ghost use Rattle.vector_io.specs.Plans.{placed_at, placed_by, programs};

/// Of units that were given commands one after another, each has the events of its own commands at the end
/// of its log, in their order, and its chunks are what these leave of them.
pub fn each_unit_has_its_events()
    ensures { (old new : List ModelUnit) (commands : List UnitCommand) (events : List EventAt)
        (i : ℕ) (u v : ModelUnit) → Ran old commands events new → slice_get old i ≡ Some u
        → slice_get new i ≡ Some v → HadEvents u (events_of i events) v }
{}

/// The programs of a write have each address with its block, in the order of the addresses.
pub fn programs_have_each_address()
    ensures { (g : Geometry) (addresses : List Address) (blocks : List Block)
        → flat_map placed_by (programs g addresses blocks) ≡ placed_at g addresses blocks }
{}
