// Copies go into the ring, by the intake.
ghost use Rattle.std.specs.Prelude.{◌≡◌, ◌+◌, ◌<◌, ◌≤◌, ◌^◌, ℕ, IfOk, IfErr, OnOk, Err, [], length};
ghost use Rattle.std.specs.List.{AllByRecursion};
ghost use Rattle.sector_pool.specs.declared.entry.Class.TheVariants as kind;
ghost use Rattle.write_ring.specs.declared.seats.TryPut.TheVariants as Refused;
ghost use Rattle.write_ring.specs.Batches.{CanPut};
ghost use Rattle.write_ring.specs.Handles.{HadRoom, HasPlace, IsIntakeOf, WasFull, WasRaced};
ghost use Rattle.write_ring.specs.Handles.{intake_view, ring_key};
ghost use Rattle.write_ring.specs.Steps.{AreGrantedOrCopies, LieBelow};

use crate::batch::Batch;
use crate::seats::{Intake, Place, TryPut};
use crate::table::Ring;
use sector_pool::Class;

impl Ring {
    /// Claims positions for the filled frames of the batch, and puts them there as copies, as
    /// `try_put` does for users. Copies go wherever the ring has room, the reserve too: the limit
    /// is the end of that room, which lies past `freed` by the ring's size, or 2^62 where that is
    /// less. With this limit it's refused as `try_put` is. Here `freed` is loaded after `claimed`
    /// was found to be what the answer tells.
    ///
    /// After `Ok` each position from the ring's first one to the place was granted to users, or is
    /// one of the copies that this intake had claimed before.
    pub fn try_copy(&self, intake: &mut Intake, batch: &mut Batch) -> Result<Place, TryPut>
        requires ring { IsIntakeOf self.now intake.old }
        requires some { 0 < length batch.old.drafts }
        requires fits { AllByRecursion (CanPut kind.Copy (ring_key self.now)) batch.old.drafts }
        requires own { batch.old.region ≡ (ring_key self.now).origin.region }
        ensures ring { IsIntakeOf self.now intake.new }
        ensures same_desk { (intake_view intake.new).intake ≡ (intake_view intake.old).intake }
        ensures rises { (intake_view intake.old).found.claimed
            ≤ (intake_view intake.new).found.claimed }
        ensures freed { (intake_view intake.new).found.freed
            ≡ (intake_view intake.old).intake.freed }
        ensures region { batch.new.region ≡ batch.old.region }

        // The place, and the entries there.
        ensures place { IfOk result (λ p. HasPlace kind.Copy batch.old.drafts p
            (intake_view intake.old) (intake_view intake.new)) }
        ensures place_past { IfOk result (λ p. (intake_view intake.old).found.claimed ≤ p.first) }
        ensures reached { IfOk result
            (λ p. AreGrantedOrCopies p.first (intake_view intake.old)) }
        ensures empty { OnOk result (batch.new.drafts ≡ []) }
        ensures free { OnOk result
            (batch.new.free ≡ batch.old.free + length batch.old.drafts) }
        ensures place_room { IfOk result (λ p. HadRoom kind.Copy (ring_key self.now)
            batch.old.drafts p.first (intake_view intake.new)) }
        ensures place_order { IfOk result (λ p. (intake_view intake.new).found.over ≡ p.first) }
        ensures place_steps { OnOk result
            ((intake_view intake.new).found.steps ≡ (intake_view intake.old).found.steps + 3) }

        // What it is refused with, and that nothing was done then.
        ensures unchanged { IfErr result
            (λ _. (intake_view intake.new).pass ≡ (intake_view intake.old).pass) }
        ensures same_batch { IfErr result (λ _. batch.new ≡ batch.old) }
        ensures full { (claimed limit : ℕ) → result ≡ Err (Refused.Full claimed limit)
            → WasFull kind.Copy (ring_key self.now) batch.old.drafts
            (record { claimed = claimed; limit = limit }) (intake_view intake.new) }
        ensures full_order { (claimed limit : ℕ) → result ≡ Err (Refused.Full claimed limit)
            → (intake_view intake.new).found.over ≡ claimed }
        ensures full_steps { (claimed limit : ℕ) → result ≡ Err (Refused.Full claimed limit)
            → (intake_view intake.new).found.steps ≡ (intake_view intake.old).found.steps + 2 }
        ensures raced { (expected found : ℕ) → result ≡ Err (Refused.Raced expected found)
            → WasRaced expected found (intake_view intake.new) }
        ensures raced_room { (expected found : ℕ) → result ≡ Err (Refused.Raced expected found)
            → HadRoom kind.Copy (ring_key self.now) batch.old.drafts expected
            (intake_view intake.new) }
        ensures raced_order { (expected found : ℕ) → result ≡ Err (Refused.Raced expected found)
            → (intake_view intake.new).found.over ≡ expected }
        ensures raced_steps { (expected found : ℕ) → result ≡ Err (Refused.Raced expected found)
            → (intake_view intake.new).found.steps ≡ (intake_view intake.old).found.steps + 3 }
    {
        self.claim_and_put(&mut intake.seat, Class::Copy, batch)
    }

    /// Loads `claimed` once, and tells how far claims have come: each position from the ring's
    /// first one to the answer was granted to users, or is one of the intake's own copies.
    pub fn reached(&self, intake: &mut Intake) -> u64
        requires ring { IsIntakeOf self.now intake.old }
        ensures ring { IsIntakeOf self.now intake.new }
        ensures found { let old = intake_view intake.old in intake_view intake.new ≡ record old {
          found = record old.found { steps = old.found.steps + 1; claimed = result };
        } }
        ensures reached { AreGrantedOrCopies result (intake_view intake.old) }
        ensures rises { (intake_view intake.old).found.claimed ≤ result }
        ensures own_below { LieBelow result (intake_view intake.old).pass.claims }
        ensures taken { (intake_view intake.old).intake.taken ≤ result }
        ensures low { (ring_key self.now).first ≤ result }
        ensures most { result ≤ 2 ^ 62 }
    {
        self.look_claimed(&mut intake.seat)
    }
}
