//! Laws of what a target's tables hold where the engine was told the same, as where units alone
//! made the logs longer. Each is the contract of a function that does nothing.

ghost use Rattle.std.specs.Prelude.{◌≡◌, ◌↔◌, ℕ, List, Some};
ghost use Rattle.pblk_model.specs.Image.{Image};
ghost use Rattle.pblk_world.specs.EngineLog.{Begun, begun, Opening};
ghost use Rattle.pblk_world.specs.Freeing.{MayFree};
ghost use Rattle.pblk_world.specs.LegalMounts.{IsLegalMount};
ghost use Rattle.pblk_world.specs.Orders.{NoneToFree};
ghost use Rattle.pblk_world.specs.Space.{open_addresses};
ghost use Rattle.pblk_world.specs.Starts.{older_rows};
ghost use Rattle.pblk_world.specs.World.{World, Logs, log_of};
ghost use Rattle.world_laws.specs.SameTold.{AreSameTold};
ghost use Rattle.core_laws.specs.LeftOpenings.{left_openings};
ghost use Rattle.core_laws.specs.OpenedLines.{online_now, open_line};
ghost use Rattle.core_laws.specs.PlacerOf.{placing_of};
ghost use Rattle.core_laws.specs.RowsOf.{rows_of};
ghost use Rattle.core_laws.specs.SlotOf.{slot_of};
ghost use Rattle.core_laws.specs.Spent.{IsSpent, OpensWhenFull};

/// What a target's tables hold is by what the engine was told: the slot of a sector, the rows of
/// the lines, their online units, the lines that are open and those of them that have a stripe
/// left, the data addresses that are left, the rows of older lines, and the placer.
pub fn a_targets_tables_are_by_what_was_told()
    ensures slot { (i : Image) (logs other : Logs) → AreSameTold i logs other → (lba : ℕ)
        → slot_of i other lba ≡ slot_of i logs lba }
    ensures rows { (i : Image) (logs other : Logs) → AreSameTold i logs other
        → rows_of i other ≡ rows_of i logs }
    ensures online { (i : Image) (logs other : Logs) → AreSameTold i logs other → (line : ℕ)
        → online_now i other line ≡ online_now i logs line }
    ensures line { (i : Image) (logs other : Logs) → AreSameTold i logs other → (o : Opening)
        → open_line i other o ≡ open_line i logs o }
    ensures left { (i : Image) (logs other : Logs) → AreSameTold i logs other
        → left_openings i other ≡ left_openings i logs }
    ensures addresses { (i : Image) (logs other : Logs) → AreSameTold i logs other
        → open_addresses i other ≡ open_addresses i logs }
    ensures older { (i : Image) (logs other : Logs) → AreSameTold i logs other
        → older_rows i other ≡ older_rows i logs }
    ensures placer { (i : Image) (logs other : Logs) → AreSameTold i logs other
        → (pad : ℕ) (again : List ℕ) → placing_of i other pad again ≡ placing_of i logs pad again }
{}

/// Which lines are spent is by what the engine was told, and so is that each line was opened while
/// no open one had a data address left. So the same lines may be freed in two legal mounts in which
/// the engine was told the same, and where none may be in the one, none may be in the other.
pub fn spent_lines_are_by_what_was_told()
    ensures spent { (i : Image) (logs other : Logs) → AreSameTold i logs other → (line : ℕ)
        → IsSpent i logs line ↔ IsSpent i other line }
    ensures full { (i : Image) (logs other : Logs) → AreSameTold i logs other
        → OpensWhenFull i logs → OpensWhenFull i other }
    ensures free { (i : Image) (w other : World) (b : Begun)
        → IsLegalMount i w → IsLegalMount i other → begun (log_of w 0) ≡ Some b
        → OpensWhenFull i (log_of w) → AreSameTold i (log_of w) (log_of other) → (line : ℕ)
        → MayFree i (log_of w) line ↔ MayFree i (log_of other) line }
    ensures none { (i : Image) (w other : World) (b : Begun)
        → IsLegalMount i w → IsLegalMount i other → begun (log_of w 0) ≡ Some b
        → OpensWhenFull i (log_of w) → AreSameTold i (log_of w) (log_of other)
        → NoneToFree i (log_of w) → NoneToFree i (log_of other) }
{}
