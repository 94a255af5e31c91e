//! Laws on a block that is met later than its sector was looked up. Each is the contract of a
//! function that does nothing.

ghost use Rattle.std.specs.Prelude.{◌≡◌, ◌<◌, ◌≤◌, ℕ, take, length, slice_get, Some};
ghost use Rattle.pblk_model.specs.Chunk.{Block};
ghost use Rattle.pblk_model.specs.Contents.{contents};
ghost use Rattle.pblk_model.specs.History.{after as after_history};
ghost use Rattle.pblk_model.specs.Image.{Image};
ghost use Rattle.pblk_world.specs.AtRest.{logs_at};
ghost use Rattle.pblk_world.specs.EngineLog.{Begun, begun};
ghost use Rattle.pblk_world.specs.Fronts.{history};
ghost use Rattle.pblk_world.specs.Legal.{IsLegal};
ghost use Rattle.pblk_world.specs.LegalMounts.{IsLegalMount};
ghost use Rattle.pblk_world.specs.Lines.{found_image};
ghost use Rattle.pblk_world.specs.Taking.{IsLatest};
ghost use Rattle.pblk_world.specs.Victims.{engine_prefix};
ghost use Rattle.pblk_world.specs.World.{World, Logs, log_of};
ghost use Rattle.l2p_map.specs.declared.slot.Slot.TheVariants.{Media};
ghost use Rattle.world_laws.specs.EarlyLogs.{ArePrefixes};
ghost use Rattle.world_laws.specs.SameTold.{AreSameNamed};
ghost use Rattle.core_laws.specs.OpenedLines.{online_now};
ghost use Rattle.core_laws.specs.SlotOf.{slot_of};
ghost use Rattle.step_laws.specs.LookedUp.{IsLookedUp, IsMarkedBlock};
ghost use Rattle.step_laws.specs.SlotBlocks.{IsBlockOfSlot};

/// Where a sector's slot is on the drive, its block can be read there.
pub fn a_slot_on_the_drive_is_readable()
    ensures { (i : Image) (w : World) (b : Begun) (lba line at position : ℕ) → IsLegalMount i w
        → begun (log_of w 0) ≡ Some b → lba < i.shape.capacity
        → slot_of i (log_of w) lba ≡ Media line at position
        → IsBlockOfSlot i (log_of w) lba line at position }
{}

/// Let a sector be looked up when the engine's log had a length, by any logs that say what the
/// whole logs say up to there (`AreSameNamed`): the logs at that length, or what an author knew
/// then. Let a block be met later in the place that its slot named. Where the block's mark names
/// the sector, and bears the position that the slot named, the block has what the sector held at
/// that length. It doesn't matter what became of the line meanwhile: it may have been freed, reset
/// and opened again. Nor need the image be sealed, or the block have landed.
///
/// The slot and the place looked up depend on that length of the engine's log, and on what it was
/// told, alone (clauses `slot` and `units`).
pub fn a_marked_block_has_what_was_looked_up()
    ensures block { (i : Image) (w : World) (looked : Logs)
        (n lba line at position unit number : ℕ) (block : Block) → IsLegalMount i w
        → 0 < n → n ≤ length (log_of w 0) → AreSameNamed (engine_prefix n (log_of w)) looked
        → IsLookedUp i looked lba line at position unit number
        → IsMarkedBlock i (log_of w) lba line position unit number block
        → slice_get (after_history (contents (found_image i (log_of w)))
        (history (take n (log_of w 0)))) lba ≡ Some block.sector }
    ensures slot { (i : Image) (w : World) (looked : Logs) (n lba : ℕ) → IsLegal i w
        → n ≤ length (log_of w 0) → AreSameNamed (engine_prefix n (log_of w)) looked
        → slot_of i looked lba ≡ slot_of i (logs_at n (log_of w)) lba }
    ensures units { (i : Image) (w : World) (looked : Logs) (n line : ℕ) → IsLegal i w
        → n ≤ length (log_of w 0) → AreSameNamed (engine_prefix n (log_of w)) looked
        → online_now i looked line ≡ online_now i (logs_at n (log_of w)) line }
{}

/// Let the logs of one legal mount be prefixes of those of a later one. Where a sector's slot names
/// the same line, address and position in both, its block is the same: it has the same sector and
/// the same mark. So a copy that was fetched at the earlier time has at the later one the block of
/// its source, which is the sector's latest.
pub fn a_source_keeps_its_block()
    ensures block { (i : Image) (v w : World) (b : Begun) (lba line at position : ℕ)
        → IsLegalMount i v → IsLegalMount i w → ArePrefixes w (log_of v)
        → begun (log_of v 0) ≡ Some b → (is : IsBlockOfSlot i (log_of v) lba line at position)
        (later : IsBlockOfSlot i (log_of w) lba line at position) → later.block ≡ is.block }
    ensures latest { (i : Image) (v w : World) (b : Begun) (lba line at position : ℕ)
        → IsLegalMount i v → IsLegalMount i w → ArePrefixes w (log_of v)
        → begun (log_of v 0) ≡ Some b → lba < i.shape.capacity
        → (is : IsBlockOfSlot i (log_of v) lba line at position)
        → slot_of i (log_of w) lba ≡ Media line at position → IsLatest i (log_of w) lba
        (record { line = line; at = at; position = position }) is.block }
{}
