// The steps on the three words: what they tell, and the claim of positions.
ghost use Rattle.std.specs.Prelude.{◌≡◌, ◌+◌, ◌<◌, ◌≤◌, ◌^◌, [], IsTrue};
ghost use Rattle.sector_pool.specs.declared.entry.Class.TheVariants as kind;
ghost use Rattle.write_ring.specs.Frames.{IsFree, is_copy};
ghost use Rattle.write_ring.specs.Handles.{IsPassOf, limit_of, pass_view, ring_key, saw_limit};
ghost use Rattle.write_ring.specs.Steps.{Claims, LieBelow, saw_claimed, saw_freed, saw_granted};
ghost use Rattle.write_ring.specs.Tells.{Gains, SeesClaimed};

use crate::cell::Cell;
use crate::rule::{ClaimCopy, ClaimUser, LookClaimed, LookFreed, LookGranted};
use crate::seats::Pass;
use crate::table::{CLAIMED, FREED, GRANTED, Ring};
use crate::view::View;
use atomic_table::Seat;
use sector_pool::Class;

// No position is claimed from here on.
const MOST: u64 = 1 << 62;

impl Ring {
    // Loads `claimed` once.
    pub(crate) fn look_claimed(&self, seat: &mut Seat<Cell, View>) -> u64
        requires ring { seat.old.table_id ≡ self.now.table.shared.table_id }
        requires sharing { 0 < seat.old.me.0.pass.shares }
        ensures ring { seat.new.table_id ≡ seat.old.table_id }
        ensures found { seat.new.me ≡ (saw_claimed seat.old.me.0 result, seat.old.me.1) }
        ensures sees { SeesClaimed seat.old.me.0 result }
    {
        self.table.shared.load::<LookClaimed>(seat, CLAIMED)
    }

    /// Loads `claimed` once: the next position that nobody has claimed. What a pass finds never
    /// falls.
    pub fn claimed(&self, pass: &mut Pass) -> u64
        requires ring { IsPassOf self.now pass.old }
        ensures ring { IsPassOf self.now pass.new }
        ensures found { let old = pass_view pass.old in pass_view pass.new ≡ record old {
          found = record old.found { steps = old.found.steps + 1; claimed = result };
        } }
        ensures rises { (pass_view pass.old).found.claimed ≤ result }
        ensures own_below { LieBelow result (pass_view pass.old).pass.claims }
        ensures low { (ring_key self.now).first ≤ result }
        ensures most { result ≤ 2 ^ 62 }
    {
        self.look_claimed(&mut pass.seat)
    }

    fn look_freed(&self, seat: &mut Seat<Cell, View>) -> u64
        requires ring { seat.old.table_id ≡ self.now.table.shared.table_id }
        requires on { IsTrue seat.old.me.0.intake.on }
        ensures ring { seat.new.table_id ≡ seat.old.table_id }
        ensures found { seat.new.me ≡ (saw_freed seat.old.me.0 result, seat.old.me.1) }
        ensures most { result ≤ 2 ^ 62 }
        ensures own { result ≡ seat.old.me.0.intake.freed }
    {
        self.table.shared.load::<LookFreed>(seat, FREED)
    }

    fn look_granted(&self, seat: &mut Seat<Cell, View>) -> u64
        requires ring { seat.old.table_id ≡ self.now.table.shared.table_id }
        ensures ring { seat.new.table_id ≡ seat.old.table_id }
        ensures found { seat.new.me ≡ (saw_granted seat.old.me.0 result, seat.old.me.1) }
        ensures most { result ≤ 2 ^ 62 }
    {
        self.table.shared.load::<LookGranted>(seat, GRANTED)
    }

    // Up to where this class may claim now.
    pub(crate) fn limit(&self, seat: &mut Seat<Cell, View>, class: Class) -> u64
        requires ring { seat.old.table_id ≡ self.now.table.shared.table_id }
        requires on { class ≡ kind.Copy → IsTrue seat.old.me.0.intake.on }
        ensures ring { seat.new.table_id ≡ seat.old.table_id }
        ensures found { seat.new.me
            ≡ (saw_limit class seat.old.me.0 seat.new.me.0, seat.old.me.1) }
        ensures limit { result ≡ limit_of class (ring_key self.now) seat.new.me.0 }
        ensures most { result ≤ 2 ^ 62 }
        ensures freed { class ≡ kind.Copy
            → seat.new.me.0.found.freed ≡ seat.old.me.0.intake.freed }
    {
        match class {
            Class::User => self.look_granted(seat),
            Class::Copy => (self.look_freed(seat) + self.size).min(MOST),
        }
    }

    // Claims the positions from `old` to `new` with their slots, if `claimed` is still `old`.
    pub(crate) fn exchange(
        &self,
        seat: &mut Seat<Cell, View>,
        class: Class,
        old: u64,
        new: u64,
    ) -> u64
        requires ring { seat.old.table_id ≡ self.now.table.shared.table_id }
        requires at_rest { seat.old.me.1 ≡ [] }
        requires all_put { seat.old.me.0.pass.next ≡ seat.old.me.0.pass.until }
        requires shares { 0 < seat.old.me.0.pass.shares }
        requires copier { class ≡ kind.Copy → IsTrue seat.old.me.0.pass.copier }
        requires saw { seat.old.me.0.found.claimed ≡ old }
        requires rises { old < new }
        requires limit { new ≤ limit_of class (ring_key self.now) seat.old.me.0 }
        requires most { new ≤ 2 ^ 62 }
        ensures ring { seat.new.table_id ≡ seat.old.table_id }
        ensures claims { Claims (is_copy class) seat.old.me.0 old new result seat.new.me.0 }
        ensures slots { Gains IsFree seat.old.me.0 (ring_key self.now).size old new result
            seat.new.me.1 }
    {
        let shared = &self.table.shared;
        match class {
            Class::User => shared.compare_exchange::<ClaimUser>(seat, CLAIMED, old, new),
            Class::Copy => shared.compare_exchange::<ClaimCopy>(seat, CLAIMED, old, new),
        }
    }
}
