//! What a look under the engine's lock gives.

ghost use Rattle.std.specs.Prelude.{◌≡◌, ◌≢◌, ◌≤◌, ◌<◌, ◌^◌, ℕ, false, length, map, slice_get, Some, IfSome, IsSome, IsTrue};
ghost use Rattle.std.specs.List.{Contains};
ghost use Rattle.pblk_model.specs.Bytes.{zeros};
ghost use Rattle.pblk_model.specs.Shape.{units};
ghost use Rattle.pblk_world.specs.EngineLog.{Placed, is_answered, placements, takes};
ghost use Rattle.pblk_world.specs.Fronts.{taken};
ghost use Rattle.pblk_world.specs.AtRest.{IsAtRest, IsCopyDue, logs_at};
ghost use Rattle.pblk_world.specs.Orders.{AreReset};
ghost use Rattle.pblk_world.specs.Reasons.{HasReasons, WasRoom};
ghost use Rattle.pblk_world.specs.Space.{freed, is_due, room};
ghost use Rattle.chronicle.specs.Prefixes.{AreLegalLogs, logs_of};
ghost use Rattle.core_laws.specs.SlotOf.{slot_of};
ghost use Rattle.l2p_map.specs.declared.slot.Slot.TheVariants as slots;
ghost use Rattle.pblk_core.specs.Landing.{IsUnderWayOn};
ghost use Rattle.pblk_core.specs.Resets.{IsToReset};
ghost use Rattle.pblk_core.specs.Stands.{IsStanding};
ghost use Rattle.pblk_core.specs.declared.work.Why.{Why as WhyOf};
ghost use Rattle.pblk_core.specs.declared.work.Why.TheVariants as whys;
ghost use Rattle.pblk_core.specs.declared.work.Work.TheVariants as works;
ghost use Rattle.step_laws.specs.SlotBlocks.{IsBlockOfSlot};
ghost use Rattle.pblk_engine.specs.Alone.{IsCopyAlone, at_look};
ghost use Rattle.pblk_engine.specs.Hearts.{IsRingOf, ring_row};
ghost use Rattle.pblk_engine.specs.Looks.{front_synced, front_taken, latest_by};
ghost use Rattle.pblk_engine.specs.Pumps.{IsBusy};

use crate::heart::Heart;
use crate::mount::Mount;
use l2p_map::Slot;
use pblk_core::{Core, Work};
use pblk_model::Front;
use write_ring::Ring;

// Whether the program of a stripe is under way on one of the drive's units, of which there are so
// many.
fn is_any_under_way(core: &Core, count: u32) -> bool
    requires standing { IsStanding core.now }
    requires count { count ≡ units core.now.layout }
    ensures none { result ≡ false → (unit : ℕ) → unit < count → ¬ IsUnderWayOn core.now unit }
    ensures some { IsTrue result → (unit : ℕ) × (unit < count) × IsUnderWayOn core.now unit }
{
    for unit in 0..count {
        if core.is_under_way(unit) {
            return true;
        }
    }
    false
}

impl<M: Mount> Heart<M> {
    /// What comes next. Where that is nothing, and nothing is in flight, the target is at rest for
    /// each pad target up to that which it has, and no copy is due by all that the heart knows.
    /// Where something is in flight, nothing else can be done by the logs meanwhile. A copy comes
    /// only where no reset is left to be made.
    pub(crate) fn next_work(&self) -> Work
        ensures named { result ≡ self.now.work }
        ensures reset { (line unit : ℕ) → result ≡ works.Reset line unit
            → IsToReset M.past.image (logs_of self.now.author.known) line unit }
        ensures reset_first { result ≡ works.Copy
            → AreReset M.past.image (logs_of self.now.author.known) }
        ensures rest { (why : WhyOf) → result ≡ works.Nothing why → why ≢ whys.Busy
            → (asked : ℕ) → asked ≤ self.now.pad
            → IsAtRest M.past.image (logs_of self.now.author.known) asked
            (length (logs_of self.now.author.known 0)) }
        ensures busy { result ≡ works.Nothing whys.Busy
            → IsBusy M.past.image (logs_of self.now.author.known) }
        ensures no_copy { (why : WhyOf) → result ≡ works.Nothing why → why ≢ whys.Busy
            → ¬ IsCopyDue M.past.image (logs_of self.now.author.known) }
    {
        self.core.next_work()
    }

    /// Whether a unit has the program of a stripe under way. Then that stripe isn't answered. Where
    /// none has and the next work is a copy, the copy is all that can be done.
    pub(crate) fn has_stripe_under_way(&self) -> bool
        ensures none { result ≡ false → self.now.work ≡ works.Copy
            → IsCopyAlone M.past.image (at_look self.now.author.known) }
        ensures some { let log = logs_of self.now.author.known 0 in IsTrue result
            → (p : Placed) × Contains (placements log) p × (is_answered log p ≡ false) }
    {
        let count = self.author.units();
        is_any_under_way(&self.core, count)
    }

    /// What the heart stands for, by the logs that it knows: what the ring has taken and freed.
    /// These are a legal world, and the engine did all of its work for a reason.
    pub(crate) fn stands(&self)
        ensures took { self.now.intake.intake.took
            ≡ map ring_row (takes (logs_of self.now.author.known 0)) }
        ensures taken { self.now.intake.intake.taken ≡ taken (logs_of self.now.author.known 0) }
        ensures first { M.key.first ≤ self.now.intake.intake.taken }
        ensures freed { self.now.intake.intake.freed
            ≡ freed M.past.image.shape (logs_of self.now.author.known 0) }
        ensures size { M.key.size ≡ M.past.image.shape.ring }
        ensures legal { AreLegalLogs M.past.image self.now.author.known }
        ensures reasons { HasReasons M.past.image (logs_of self.now.author.known) }
        ensures begun { 0 < length (logs_of self.now.author.known 0) }
    {
        let _ = &self.slots;
    }

    /// The front taken: all that was taken so far.
    pub(crate) fn front(&self) -> Front
        ensures front { result ≡ front_taken (logs_of self.now.author.known 0) }
        ensures taken { result.position ≡ self.now.intake.intake.taken }
        ensures small { result.position ≤ 2 ^ 62 }
    {
        self.core.front()
    }

    /// The front synced: all below it is on the drive.
    pub(crate) fn synced(&self) -> Front
        ensures { result
            ≡ front_synced M.past.image.shape (logs_of self.now.author.known 0) }
    {
        self.core.synced()
    }

    /// Below which position users may claim, by one load. There is no room beyond it.
    pub(crate) fn granted(&mut self, ring: &Ring) -> u64
        requires ring { IsRingOf M.ring M.key ring.now }
        ensures granted { result ≡ self.old.intake.intake.granted }
        ensures room { room M.past.image (logs_of self.old.author.known) ≤ result }
        ensures room_then { let known = logs_of self.old.author.known
            in room M.past.image (logs_at (length (known 0)) known) ≤ result }
        ensures once { let known = logs_of self.old.author.known
            in WasRoom M.past.image known (length (known 0)) result }
        ensures same { self.new ≡ record self.old {
          intake = record self.old.intake { found = self.new.intake.found };
        } }
        ensures claimed { self.new.intake.found.claimed ≡ self.old.intake.found.claimed }
    {
        ring.granted(&mut self.intake)
    }

    /// The pad target.
    pub(crate) fn pad_target(&self) -> u64
        ensures { result ≡ self.now.pad }
    {
        self.core.pad_target()
    }

    /// Whether collection is due.
    pub(crate) fn is_due(&self) -> bool
        ensures { result ≡ is_due M.past.image (logs_of self.now.author.known) }
    {
        self.core.is_due()
    }

    /// Where the latest content of a sector is. The sector is below the capacity. A slot on the
    /// drive leads to a block that can be read, and has that content. A sector that was never
    /// written holds zeros.
    pub(crate) fn look(&self, lba: u64) -> Slot
        requires lba { lba < M.past.image.shape.capacity }
        ensures slot { result ≡ slot_of M.past.image (logs_of self.now.author.known) lba }
        ensures unwritten { result ≡ slots.Unwritten
            → slice_get (latest_by M.past.image (logs_of self.now.author.known)) lba
            ≡ Some (zeros M.past.image.shape.sector) }
        ensures on_drive { (line at position : ℕ) → result ≡ slots.Media line at position
            → (is : IsBlockOfSlot M.past.image (logs_of self.now.author.known) lba line at position)
            × (slice_get (latest_by M.past.image (logs_of self.now.author.known)) lba
            ≡ Some is.block.sector) }
    {
        self.core.look(lba)
    }

    /// The sector of an entry that the window holds. It does where a slot names the entry, and then
    /// that is the latest content of the slot's sector.
    pub(crate) fn bytes(&self, position: u64) -> Option<&[u8]>
        ensures there { (lba : ℕ) → lba < M.past.image.shape.capacity
            → slot_of M.past.image (logs_of self.now.author.known) lba ≡ slots.Cached position
            → IsSome result }
        ensures latest { (lba : ℕ) → lba < M.past.image.shape.capacity
            → slot_of M.past.image (logs_of self.now.author.known) lba ≡ slots.Cached position
            → IfSome result (λ sector.
            slice_get (latest_by M.past.image (logs_of self.now.author.known)) lba
            ≡ Some sector.now) }
        ensures size { IfSome result (λ sector. length sector.now ≡ M.past.image.shape.sector) }
    {
        self.core.bytes(position)
    }

    /// The unit and the block of a line address, to which a sector's slot leads.
    pub(crate) fn place_of(&self, line: u32, at: u32) -> (u32, u32)
        requires there { (lba : ℕ) × (position : ℕ)
            × IsBlockOfSlot M.past.image (logs_of self.now.author.known) lba line at position }
        ensures place { (lba position : ℕ)
            → (is : IsBlockOfSlot M.past.image (logs_of self.now.author.known) lba line at position)
            → (is.unit ≡ result.0) × (is.number ≡ result.1) }
    {
        self.core.address(line, at)
    }
}
