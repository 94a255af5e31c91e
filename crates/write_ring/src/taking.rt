// The steps of the intake: it takes entries, frees their slots, and grants positions to users.
ghost use Rattle.std.specs.Prelude.{◌≡◌, ◌+◌, ◌<◌, ◌≤◌, ◌%◌, ◌^◌, ℕ, [], ◌∷◌, IsTrue};
ghost use Rattle.sector_pool.specs.declared.entry.Entry.{Entry as EntryOf};
ghost use Rattle.write_ring.specs.declared.cell.Cell.TheVariants as cell;
ghost use Rattle.write_ring.specs.declared.seats.Taken.TheVariants as answer;
ghost use Rattle.write_ring.specs.Frames.{Carries, Fits};
ghost use Rattle.write_ring.specs.Handles.{HasTaken, IsIntakeOf, WasEmpty, WasUnfilled};
ghost use Rattle.write_ring.specs.Handles.{intake_view, ring_key};
ghost use Rattle.write_ring.specs.Steps.{gave_back};
ghost use Rattle.write_ring.specs.Tells.{Finds};

use crate::cell::Cell;
use crate::rule::{Find, Free, GiveBack, Grant, LookOwn, TakeEmpty};
use crate::seats::{Intake, Taken};
use crate::table::{FREED, GRANTED, LINE, Ring, TURNS};
use crate::view::View;
use atomic_table::Seat;
use sector_pool::{Entry, Frame};

impl Ring {
    // Loads the turn word of the next position, and takes its slot where the word names it.
    fn find(&self, seat: &mut Seat<Cell, View>, at: u64) -> u64
        requires ring { seat.old.table_id ≡ self.now.table.shared.table_id }
        requires on { IsTrue seat.old.me.0.intake.on }
        requires home { seat.old.me.0.intake.away ≡ None }
        requires at_rest { seat.old.me.1 ≡ [] }
        requires next { at ≡ seat.old.me.0.intake.taken }
        ensures ring { seat.new.table_id ≡ seat.old.table_id }
        ensures found { Finds Carries Fits seat.old.me.0 (ring_key self.now).size result
            seat.new.me }
    {
        let slot = (at % self.size) as usize;
        self.table.shared.load::<Find>(seat, TURNS + LINE * slot)
    }

    // Takes the entry out of the slot of a position, and gives the slot back empty.
    fn take_out(&self, seat: &mut Seat<Cell, View>, at: u64) -> Entry
        requires ring { seat.old.table_id ≡ self.now.table.shared.table_id }
        requires on { IsTrue seat.old.me.0.intake.on }
        requires away { seat.old.me.0.intake.away ≡ Some at }
        requires front { (e : EntryOf) × (seat.old.me.1
            ≡ (at % (ring_key self.now).size, cell.Filled e) ∷ []) }
        ensures ring { seat.new.table_id ≡ seat.old.table_id }
        ensures entry { seat.old.me.1
            ≡ (at % (ring_key self.now).size, cell.Filled result) ∷ [] }
        ensures back { (n : ℕ) × (seat.new.me ≡ (gave_back seat.old.me.0 n, [])) }
    {
        let slot = (at % self.size) as usize;
        let shared = &self.table.shared;
        let old = shared.exchange(seat, slot, Cell::Empty);
        shared.load::<GiveBack>(seat, TURNS + LINE * slot);
        let Cell::Filled(entry) = old else {
            unreachable!()
        };
        entry
    }

    /// Takes the next position's entry, as its maker filled it, where it is there. A copy is the
    /// one that this intake put there.
    ///
    /// `Unfilled` comes exactly where the turn word of its slot didn't name a claimed position when
    /// it was loaded, and `Empty` exactly where `claimed`, loaded next, was that position.
    pub fn take(&self, intake: &mut Intake) -> Taken
        requires ring { IsIntakeOf self.now intake.old }
        ensures ring { IsIntakeOf self.now intake.new }
        ensures same_pass { (intake_view intake.new).pass ≡ (intake_view intake.old).pass }
        ensures rises { (intake_view intake.old).found.claimed
            ≤ (intake_view intake.new).found.claimed }
        ensures steps { (intake_view intake.new).found.steps
            ≡ (intake_view intake.old).found.steps + 2 }
        ensures entry { (e : EntryOf) → result ≡ answer.Entry e
            → HasTaken (intake_view intake.old) e (intake_view intake.new) }
        ensures empty { (claimed : ℕ) → result ≡ answer.Empty claimed
            → WasEmpty claimed (intake_view intake.old) (intake_view intake.new) }
        ensures unfilled { (at : ℕ) → result ≡ answer.Unfilled at
            → WasUnfilled at (intake_view intake.old) (intake_view intake.new) }
    {
        let at = intake.taken;
        let turn = self.find(&mut intake.seat, at);
        if turn == at - self.first + 1 {
            let entry = self.take_out(&mut intake.seat, at);
            intake.taken += 1;
            return Taken::Entry(entry);
        }
        let claimed = self.look_claimed(&mut intake.seat);
        if claimed == at {
            Taken::Empty { claimed }
        } else {
            Taken::Unfilled { at }
        }
    }

    /// Frees the slot of the first position that was taken and isn't freed, with a frame of the
    /// ring's pool.
    pub fn free(&self, intake: &mut Intake, frame: Frame)
        requires ring { IsIntakeOf self.now intake.old }
        requires taken { (intake_view intake.old).intake.freed
            < (intake_view intake.old).intake.taken }
        requires own { frame.region ≡ (ring_key self.now).origin.region }
        ensures ring { IsIntakeOf self.now intake.new }
        ensures freed { let old = (intake_view intake.old).intake in
            (intake_view intake.new).intake ≡ record old { freed = old.freed + 1 } }
        ensures same_pass { (intake_view intake.new).pass ≡ (intake_view intake.old).pass }
        ensures same_claimed { (intake_view intake.new).found.claimed
            ≡ (intake_view intake.old).found.claimed }
    {
        let slot = (intake.freed % self.size) as usize;
        let shared = &self.table.shared;
        shared.load::<TakeEmpty>(&mut intake.seat, TURNS + LINE * slot);
        let old = shared.exchange(&mut intake.seat, slot, Cell::Free(frame));
        shared.store::<Free>(&mut intake.seat, FREED, intake.freed + 1);
        intake.freed += 1;
        let Cell::Empty = old else { unreachable!() };
    }

    /// Loads `granted` once: the end of what users may claim, as the intake granted it last.
    pub fn granted(&self, intake: &mut Intake) -> u64
        requires ring { IsIntakeOf self.now intake.old }
        ensures ring { IsIntakeOf self.now intake.new }
        ensures found { let old = intake_view intake.old in intake_view intake.new ≡ record old {
          found = record old.found {
            steps = old.found.steps + 1;
            granted = result;
            over = old.found.claimed;
          };
        } }
        ensures granted { result ≡ (intake_view intake.old).intake.granted }
    {
        self.table.shared.load::<LookOwn>(&mut intake.seat, GRANTED)
    }

    /// Grants users all positions below `to`. What is granted never falls, and leaves the reserve
    /// free.
    pub fn grant(&self, intake: &mut Intake, to: u64)
        requires ring { IsIntakeOf self.now intake.old }
        requires rises { (intake_view intake.old).intake.granted ≤ to }
        requires reserve { to + (ring_key self.now).reserve
            ≤ (intake_view intake.old).intake.freed + (ring_key self.now).size }
        requires most { to ≤ 2 ^ 62 }
        ensures ring { IsIntakeOf self.now intake.new }
        ensures granted { let old = intake_view intake.old in intake_view intake.new
            ≡ record old { intake = record old.intake { granted = to } } }
    {
        self.table
            .shared
            .store::<Grant>(&mut intake.seat, GRANTED, to);
    }
}
