// Entries go into the ring, by a pass or by the intake.
ghost use Rattle.std.specs.Prelude.{◌≡◌, ◌+◌, ◌<◌, ◌≤◌, ◌%◌, ◌^◌, ℕ, IfOk, IfErr, OnOk, Err};
ghost use Rattle.std.specs.Prelude.{[], ◌∷◌, length, IsTrue};
ghost use Rattle.std.specs.List.{AllByRecursion};
ghost use Rattle.atomic_table.specs.Table.{rest};
ghost use Rattle.pblk_model.specs.Frames.{FrameView};
ghost use Rattle.sector_pool.specs.declared.entry.Class.TheVariants as kind;
ghost use Rattle.write_ring.specs.declared.cell.Cell.TheVariants as cell;
ghost use Rattle.write_ring.specs.declared.seats.TryPut.TheVariants as Refused;
ghost use Rattle.write_ring.specs.Batches.{CanPut, rows_from};
ghost use Rattle.write_ring.specs.Frames.{Fits, IsFree, is_copy, entry_row};
ghost use Rattle.write_ring.specs.Handles.{HadRoom, HasPlace, WasFull, WasRaced};
ghost use Rattle.write_ring.specs.Handles.{puts_rows, ring_key};
ghost use Rattle.write_ring.specs.Steps.{AreGrantedOrCopies, IsOfClass, put_next, with_pass};
ghost use Rattle.write_ring.specs.Tells.{HasSlots};

use crate::batch::Batch;
use crate::cell::Cell;
use crate::draft::Draft;
use crate::rule::Fill;
use crate::seats::{Place, TryPut};
use crate::table::{LINE, Ring, TURNS};
use crate::view::View;
use atomic_table::Seat;
use sector_pool::{Class, Entry, Frame};

impl Ring {
    // Puts the entry of the seat's first open position in its slot, and names the position.
    fn put_at(&self, seat: &mut Seat<Cell, View>, at: u64, entry: Entry) -> Frame
        requires ring { seat.old.table_id ≡ self.now.table.shared.table_id }
        requires key { seat.old.me.0.key ≡ ring_key self.now }
        requires sharing { 0 < seat.old.me.0.pass.shares }
        requires next { at ≡ seat.old.me.0.pass.next }
        requires some_open { at < seat.old.me.0.pass.until }
        requires high { (ring_key self.now).first ≤ at }
        requires small { at ≤ 2 ^ 62 }
        requires front { (f : FrameView) × (seat.old.me.1
            ≡ (at % (ring_key self.now).size, cell.Free f) ∷ rest seat.old.me.1)
            × (f.region ≡ (ring_key self.now).origin.region) }
        requires position { entry.position ≡ at }
        requires class { is_copy entry.class ≡ seat.old.me.0.pass.copy }
        requires fits { Fits (ring_key self.now) (entry_row entry) }
        requires own { entry.frame.region ≡ (ring_key self.now).origin.region }
        ensures ring { seat.new.table_id ≡ seat.old.table_id }
        ensures put { seat.new.me
            ≡ (put_next seat.old.me.0 (entry_row entry), rest seat.old.me.1) }
        ensures frame { result.region ≡ (ring_key self.now).origin.region }
    {
        let slot = (at % self.size) as usize;
        let shared = &self.table.shared;
        let old = shared.exchange(seat, slot, Cell::Filled(entry));
        shared.store::<Fill>(seat, TURNS + LINE * slot, at - self.first + 1);
        let Cell::Free(frame) = old else {
            unreachable!()
        };
        frame
    }

    // Puts a batch at the positions from `first` on, which are the seat's open ones.
    fn put_batch(&self, seat: &mut Seat<Cell, View>, class: Class, first: u64, batch: &mut Batch)
        requires ring { seat.old.table_id ≡ self.now.table.shared.table_id }
        requires key { seat.old.me.0.key ≡ ring_key self.now }
        requires sharing { 0 < seat.old.me.0.pass.shares }
        requires next { first ≡ seat.old.me.0.pass.next }
        requires until { seat.old.me.0.pass.until ≡ first + length batch.old.drafts }
        requires high { (ring_key self.now).first ≤ first }
        requires small { first + length batch.old.drafts ≤ 2 ^ 62 }
        requires slots { HasSlots IsFree (ring_key self.now) (ring_key self.now).size first
            (length batch.old.drafts) seat.old.me.1 }
        requires class { is_copy class ≡ seat.old.me.0.pass.copy }
        requires fits { AllByRecursion (CanPut class (ring_key self.now)) batch.old.drafts }
        requires own { batch.old.region ≡ (ring_key self.now).origin.region }
        ensures ring { seat.new.table_id ≡ seat.old.table_id }
        ensures put { seat.new.me ≡ (
          with_pass seat.old.me.0 (puts_rows seat.old.me.0.pass
              (rows_from class first batch.old.drafts)),
          [],
        ) }
        ensures empty { batch.new.drafts ≡ [] }
        ensures free { batch.new.free ≡ batch.old.free + length batch.old.drafts }
        ensures region { batch.new.region ≡ batch.old.region }
        ensures count { batch.new.count ≡ batch.old.count }
    {
        let mut at = first;
        while let Some(draft) = batch.next() {
            let Draft { lba, source, frame } = draft;
            let entry = Entry {
                position: at,
                class,
                lba,
                source,
                frame,
            };
            let frame = self.put_at(seat, at, entry);
            batch.keep(frame);
            at += 1;
        }
    }

    // Claims positions for the filled frames of a batch, and puts them there, as `try_put` and
    // `try_copy` say.
    pub(crate) fn claim_and_put(
        &self,
        seat: &mut Seat<Cell, View>,
        class: Class,
        batch: &mut Batch,
    ) -> Result<Place, TryPut>
        requires ring { seat.old.table_id ≡ self.now.table.shared.table_id }
        requires key { seat.old.me.0.key ≡ ring_key self.now }
        requires at_rest { seat.old.me.1 ≡ [] }
        requires sharing { 0 < seat.old.me.0.pass.shares }
        requires all_put { seat.old.me.0.pass.next ≡ seat.old.me.0.pass.until }
        requires copier { class ≡ kind.Copy → IsTrue seat.old.me.0.pass.copier }
        requires intake { class ≡ kind.Copy → IsTrue seat.old.me.0.intake.on }
        requires class { IsOfClass (is_copy class) seat.old.me.0.pass }
        requires some { 0 < length batch.old.drafts }
        requires fits { AllByRecursion (CanPut class (ring_key self.now)) batch.old.drafts }
        requires own { batch.old.region ≡ (ring_key self.now).origin.region }
        ensures ring { seat.new.table_id ≡ seat.old.table_id }
        ensures key { seat.new.me.0.key ≡ seat.old.me.0.key }
        ensures at_rest { seat.new.me.1 ≡ [] }
        ensures same_shares { seat.new.me.0.pass.shares ≡ seat.old.me.0.pass.shares }
        ensures all_put { seat.new.me.0.pass.next ≡ seat.new.me.0.pass.until }
        ensures same_copier { seat.new.me.0.pass.copier ≡ seat.old.me.0.pass.copier }
        ensures class { IsOfClass (is_copy class) seat.new.me.0.pass }
        ensures same_desk { seat.new.me.0.intake ≡ seat.old.me.0.intake }
        ensures region { batch.new.region ≡ batch.old.region }
        ensures rises { seat.old.me.0.found.claimed ≤ seat.new.me.0.found.claimed }
        ensures most { seat.new.me.0.found.claimed ≤ 2 ^ 62 }
        ensures freed { class ≡ kind.Copy
            → seat.new.me.0.found.freed ≡ seat.old.me.0.intake.freed }

        // The place, and the entries there.
        ensures place { IfOk result (λ p. HasPlace class batch.old.drafts p seat.old.me.0
            seat.new.me.0) }
        ensures empty { OnOk result (batch.new.drafts ≡ []) }
        ensures free { OnOk result
            (batch.new.free ≡ batch.old.free + length batch.old.drafts) }
        ensures place_room { IfOk result (λ p. HadRoom class (ring_key self.now)
            batch.old.drafts p.first seat.new.me.0) }
        ensures place_order { IfOk result (λ p. seat.new.me.0.found.over ≡ p.first) }
        ensures place_steps { OnOk result
            (seat.new.me.0.found.steps ≡ seat.old.me.0.found.steps + 3) }
        ensures reached { IfOk result (λ p. class ≡ kind.Copy
            → AreGrantedOrCopies p.first seat.old.me.0) }

        // What it is refused with, and that nothing was done then.
        ensures unchanged { IfErr result (λ _. seat.new.me.0.pass ≡ seat.old.me.0.pass) }
        ensures same_batch { IfErr result (λ _. batch.new ≡ batch.old) }
        ensures full { (claimed limit : ℕ) → result ≡ Err (Refused.Full claimed limit)
            → WasFull class (ring_key self.now) batch.old.drafts
            (record { claimed = claimed; limit = limit }) seat.new.me.0 }
        ensures full_order { (claimed limit : ℕ) → result ≡ Err (Refused.Full claimed limit)
            → seat.new.me.0.found.over ≡ claimed }
        ensures full_steps { (claimed limit : ℕ) → result ≡ Err (Refused.Full claimed limit)
            → seat.new.me.0.found.steps ≡ seat.old.me.0.found.steps + 2 }
        ensures raced { (expected found : ℕ) → result ≡ Err (Refused.Raced expected found)
            → WasRaced expected found seat.new.me.0 }
        ensures raced_room { (expected found : ℕ) → result ≡ Err (Refused.Raced expected found)
            → HadRoom class (ring_key self.now) batch.old.drafts expected seat.new.me.0 }
        ensures raced_order { (expected found : ℕ) → result ≡ Err (Refused.Raced expected found)
            → seat.new.me.0.found.over ≡ expected }
        ensures raced_steps { (expected found : ℕ) → result ≡ Err (Refused.Raced expected found)
            → seat.new.me.0.found.steps ≡ seat.old.me.0.found.steps + 3 }
    {
        let claimed = self.look_claimed(seat);
        let limit = self.limit(seat, class);
        let count = batch.filled();
        let end = claimed + u64::from(count);
        if end > limit {
            return Err(TryPut::Full { claimed, limit });
        }
        let found = self.exchange(seat, class, claimed, end);
        if found != claimed {
            return Err(TryPut::Raced {
                expected: claimed,
                found,
            });
        }
        self.put_batch(seat, class, claimed, batch);
        self.wake_past(claimed, end);
        Ok(Place {
            first: claimed,
            count,
        })
    }
}
