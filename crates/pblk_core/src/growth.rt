//! Laws of what a core stands for where the engine was told the same, as where units alone made the
//! logs longer. Each is the contract of a function that does nothing.

ghost use Rattle.std.specs.Prelude.{◌≡◌, ℕ, Bool, List};
ghost use Rattle.pblk_model.specs.Image.{Image};
ghost use Rattle.pblk_world.specs.World.{Logs};
ghost use Rattle.world_laws.specs.SameTold.{AreSameTold};
ghost use Rattle.pblk_core.specs.Collecting.{Collects};
ghost use Rattle.pblk_core.specs.Copies.{is_copy_due};
ghost use Rattle.pblk_core.specs.Named.{work_of};
ghost use Rattle.pblk_core.specs.Resets.{resets_of};
ghost use Rattle.pblk_core.specs.Stands.{Stands};
ghost use Rattle.pblk_core.specs.declared.target_core.Core.{Core};

/// A core that stands for logs, and collects what they say, does so for all logs of which the
/// engine was told the same. In a legal world the engine is told the same however the logs of its
/// units grow, as long as its own log stays (`world_laws`, clauses `grown` and `since`). What is to
/// be done next is the same too.
pub fn a_core_stands_for_what_was_told()
    ensures stands { (i : Image) (logs other : Logs) (c : Core) → AreSameTold i logs other
        → Stands i logs c → Stands i other c }
    ensures collects { (i : Image) (logs other : Logs) (c : Core) → AreSameTold i logs other
        → Collects i logs c → Collects i other c }
    ensures resets { (i : Image) (logs other : Logs) → AreSameTold i logs other
        → resets_of i other ≡ resets_of i logs }
    ensures copies { (i : Image) (logs other : Logs) → AreSameTold i logs other
        → is_copy_due i other ≡ is_copy_due i logs }
    ensures work { (i : Image) (logs other : Logs) → AreSameTold i logs other
        → (pad : ℕ) (again : List ℕ) (copying : Bool)
        → work_of i other pad again copying ≡ work_of i logs pad again copying }
{}
