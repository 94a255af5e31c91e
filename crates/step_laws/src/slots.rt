//! Laws on what a sector's slot leads to. Each is the contract of a function that does nothing.

ghost use Rattle.std.specs.Prelude.{◌≡◌, ◌-◌, ◌<◌, ◌≤◌, ℕ, slice_get, Some};
ghost use Rattle.pblk_model.specs.Bytes.{zeros};
ghost use Rattle.pblk_model.specs.Contents.{contents};
ghost use Rattle.pblk_model.specs.History.{after as after_history};
ghost use Rattle.pblk_model.specs.Image.{Image};
ghost use Rattle.pblk_world.specs.World.{World, log_of};
ghost use Rattle.pblk_world.specs.EngineLog.{Taken, takes};
ghost use Rattle.pblk_world.specs.Fronts.{first_position, last_take, history};
ghost use Rattle.pblk_world.specs.Lines.{found_image};
ghost use Rattle.l2p_map.specs.declared.slot.Slot.TheVariants.{Unwritten, Cached};
ghost use Rattle.pblk_world.specs.LegalMounts.{IsLegalMount};
ghost use Rattle.core_laws.specs.SlotOf.{slot_of};
ghost use Rattle.step_laws.specs.SlotBlocks.{IsBlockOfSlot};

/// These laws say what a sector holds after what the mount found and all that was taken since. It
/// is zeros where the slot is unwritten. Where the slot names a position in the buffer, it is the
/// sector of the last entry. Where the slot names a place on the drive, it is the sector of the
/// block there.
pub fn a_slot_has_the_latest_sector()
    ensures unwritten { (i : Image) (w : World) (lba : ℕ) → IsLegalMount i w
        → lba < i.shape.capacity → slot_of i (log_of w) lba ≡ Unwritten
        → slice_get (after_history (contents (found_image i (log_of w))) (history (log_of w 0))) lba
        ≡ Some (zeros i.shape.sector) }
    ensures entry { (i : Image) (w : World) (lba : ℕ) (t : Taken) → IsLegalMount i w
        → lba < i.shape.capacity → last_take (log_of w 0) lba ≡ Some t
        → slice_get (after_history (contents (found_image i (log_of w))) (history (log_of w 0))) lba
        ≡ Some t.entry.sector }
    ensures cached { (i : Image) (w : World) (lba q : ℕ) → IsLegalMount i w
        → lba < i.shape.capacity → slot_of i (log_of w) lba ≡ Cached q
        → (t : Taken) × (last_take (log_of w 0) lba ≡ Some t) × (t.entry.position ≡ q)
        × (first_position (log_of w 0) ≤ q)
        × (slice_get (takes (log_of w 0)) (q - first_position (log_of w 0)) ≡ Some t)
        × (slice_get (after_history (contents (found_image i (log_of w)))
        (history (log_of w 0))) lba ≡ Some t.entry.sector) }
    ensures media { (i : Image) (w : World) (lba line at q : ℕ) → IsLegalMount i w
        → lba < i.shape.capacity → (is : IsBlockOfSlot i (log_of w) lba line at q)
        → slice_get (after_history (contents (found_image i (log_of w))) (history (log_of w 0))) lba
        ≡ Some is.block.sector }
{}
