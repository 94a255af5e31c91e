// Users' entries go into the ring.
ghost use Rattle.std.specs.Prelude.{◌^◌, ◌≡◌, ◌+◌, ◌<◌, ◌≤◌, ℕ, IfOk, IfErr, OnOk, Err, [], length};
ghost use Rattle.std.specs.List.{AllByRecursion};
ghost use Rattle.sector_pool.specs.declared.entry.Class.TheVariants as kind;
ghost use Rattle.write_ring.specs.declared.seats.TryPut.TheVariants as Refused;
ghost use Rattle.write_ring.specs.Batches.{CanPut};
ghost use Rattle.write_ring.specs.Handles.{HadRoom, HasPlace, IsPassOf, WasFull, WasRaced};
ghost use Rattle.write_ring.specs.Handles.{pass_view, ring_key};

use crate::batch::Batch;
use crate::seats::{Full, Pass, Place, TryPut};
use crate::table::Ring;
use crossbeam_utils::Backoff;
use sector_pool::Class;
use std::sync::Wait;

impl Ring {
    /// Claims positions that no other claim has for the filled frames of the batch, by one
    /// exchange, and puts them there. It never waits. Afterwards the batch has as many free frames.
    /// The place lies past all that the pass had found of `claimed` before. Where the place
    /// passes a multiple of 64, those who doze on the ring are woken once the entries are there.
    ///
    /// Refused with `Full` exactly where `claimed`, as it was read, and the number of filled frames
    /// are above `granted`. Refused with `Raced` exactly where the exchange found another number
    /// than that load. After a refusal the batch is unchanged. Whatever the answer, `granted` is
    /// loaded after `claimed` was found to be what the answer tells: where the place begins, what
    /// `Full` names, or what `Raced` expected.
    pub fn try_put(&self, pass: &mut Pass, batch: &mut Batch) -> Result<Place, TryPut>
        requires ring { IsPassOf self.now pass.old }
        requires some { 0 < length batch.old.drafts }
        requires fits { AllByRecursion (CanPut kind.User (ring_key self.now)) batch.old.drafts }
        requires own { batch.old.region ≡ (ring_key self.now).origin.region }
        ensures ring { IsPassOf self.now pass.new }
        ensures same_shares { (pass_view pass.new).pass.shares ≡ (pass_view pass.old).pass.shares }
        ensures rises { (pass_view pass.old).found.claimed ≤ (pass_view pass.new).found.claimed }
        ensures most { (pass_view pass.new).found.claimed ≤ 2 ^ 62 }
        ensures region { batch.new.region ≡ batch.old.region }

        // The place, and the entries there.
        ensures place { IfOk result (λ p. HasPlace kind.User batch.old.drafts p
            (pass_view pass.old) (pass_view pass.new)) }
        ensures place_past { IfOk result (λ p. (pass_view pass.old).found.claimed ≤ p.first) }
        ensures empty { OnOk result (batch.new.drafts ≡ []) }
        ensures free { OnOk result
            (batch.new.free ≡ batch.old.free + length batch.old.drafts) }
        ensures place_room { IfOk result (λ p. HadRoom kind.User (ring_key self.now)
            batch.old.drafts p.first (pass_view pass.new)) }
        ensures place_order { IfOk result (λ p. (pass_view pass.new).found.over ≡ p.first) }
        ensures place_steps { OnOk result
            ((pass_view pass.new).found.steps ≡ (pass_view pass.old).found.steps + 3) }

        // What it is refused with, and that nothing was done then.
        ensures unchanged { IfErr result
            (λ _. (pass_view pass.new).pass ≡ (pass_view pass.old).pass) }
        ensures same_batch { IfErr result (λ _. batch.new ≡ batch.old) }
        ensures full { (claimed limit : ℕ) → result ≡ Err (Refused.Full claimed limit)
            → WasFull kind.User (ring_key self.now) batch.old.drafts
            (record { claimed = claimed; limit = limit }) (pass_view pass.new) }
        ensures full_order { (claimed limit : ℕ) → result ≡ Err (Refused.Full claimed limit)
            → (pass_view pass.new).found.over ≡ claimed }
        ensures full_steps { (claimed limit : ℕ) → result ≡ Err (Refused.Full claimed limit)
            → (pass_view pass.new).found.steps ≡ (pass_view pass.old).found.steps + 2 }
        ensures raced { (expected found : ℕ) → result ≡ Err (Refused.Raced expected found)
            → WasRaced expected found (pass_view pass.new) }
        ensures raced_room { (expected found : ℕ) → result ≡ Err (Refused.Raced expected found)
            → HadRoom kind.User (ring_key self.now) batch.old.drafts expected
            (pass_view pass.new) }
        ensures raced_order { (expected found : ℕ) → result ≡ Err (Refused.Raced expected found)
            → (pass_view pass.new).found.over ≡ expected }
        ensures raced_steps { (expected found : ℕ) → result ≡ Err (Refused.Raced expected found)
            → (pass_view pass.new).found.steps ≡ (pass_view pass.old).found.steps + 3 }
    {
        self.claim_and_put(&mut pass.seat, Class::User, batch)
    }

    /// The same, and tries again after each race, with longer and longer pauses.
    pub fn put<R: Wait>(&self, rt: &R, pass: &mut Pass, batch: &mut Batch) -> Result<Place, Full>
        requires ring { IsPassOf self.now pass.old }
        requires some { 0 < length batch.old.drafts }
        requires fits { AllByRecursion (CanPut kind.User (ring_key self.now)) batch.old.drafts }
        requires own { batch.old.region ≡ (ring_key self.now).origin.region }
        ensures ring { IsPassOf self.now pass.new }
        ensures same_shares { (pass_view pass.new).pass.shares ≡ (pass_view pass.old).pass.shares }
        ensures rises { (pass_view pass.old).found.claimed ≤ (pass_view pass.new).found.claimed }
        ensures most { (pass_view pass.new).found.claimed ≤ 2 ^ 62 }
        ensures region { batch.new.region ≡ batch.old.region }
        ensures place { IfOk result (λ p. HasPlace kind.User batch.old.drafts p
            (pass_view pass.old) (pass_view pass.new)) }
        ensures place_past { IfOk result (λ p. (pass_view pass.old).found.claimed ≤ p.first) }
        ensures place_room { IfOk result (λ p. HadRoom kind.User (ring_key self.now)
            batch.old.drafts p.first (pass_view pass.new)) }
        ensures place_order { IfOk result (λ p. (pass_view pass.new).found.over ≡ p.first) }
        ensures place_steps { OnOk result
            ((pass_view pass.old).found.steps + 3 ≤ (pass_view pass.new).found.steps) }
        ensures empty { OnOk result (batch.new.drafts ≡ []) }
        ensures free { OnOk result
            (batch.new.free ≡ batch.old.free + length batch.old.drafts) }
        ensures unchanged { IfErr result
            (λ _. (pass_view pass.new).pass ≡ (pass_view pass.old).pass) }
        ensures same_batch { IfErr result (λ _. batch.new ≡ batch.old) }
        ensures full { IfErr result (λ e. WasFull kind.User (ring_key self.now)
            batch.old.drafts e (pass_view pass.new)) }
        ensures full_order { IfErr result (λ e. (pass_view pass.new).found.over ≡ e.claimed) }
        ensures full_steps { IfErr result
            (λ _. (pass_view pass.old).found.steps + 2 ≤ (pass_view pass.new).found.steps) }
    {
        let backoff = Backoff::new();
        for _ in rt.forever() {
            match self.try_put(pass, batch) {
                Ok(place) => return Ok(place),
                Err(TryPut::Full { claimed, limit }) => return Err(Full { claimed, limit }),
                Err(TryPut::Raced { .. }) => backoff.snooze(),
            }
        }
        unreachable!()
    }
}
