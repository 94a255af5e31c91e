// How a ring begins and ends, and how its seats are split and joined.
ghost use Rattle.std.specs.Prelude.{◌≡◌, ◌+◌, ◌-◌, ◌<◌, ◌≤◌, ◌^◌, ◌++◌, [], true};
ghost use Rattle.std.specs.Prelude.{IfOk, IfErr, OnOk};
ghost use Rattle.pblk_model.specs.Frames.{count_left, count_out};
ghost use Rattle.write_ring.specs.Handles.{AreAllClaims, IsAsPut, IsFilled, IsIntakeOf, IsPassOf};
ghost use Rattle.write_ring.specs.Handles.{IsSamePart, IsTiled, intake_view, pass_view, ring_key};
ghost use Rattle.write_ring.specs.Steps.{no_desk, no_part, nothing_found};

use crate::closing::give_slots;
use crate::opening::{first_cells, first_words, give_cells};
use crate::rule::{Handed, Moved, Parted, Passes};
use crate::seats::{Intake, Pass};
use crate::table::Ring;
use crate::view::Key;
use atomic_table::{Refused, Table};
use sector_pool::Pool;
use std::alloc::{AllocError, Global};
use std::sync::atomic::AtomicU64;

impl Ring {
    /// A ring of `n` positions, of which `reserve` are kept for copies, over the first sectors of a
    /// target's capacity. `n` frames of the pool go into its slots. Its first position is `first`,
    /// and so far nothing is claimed, freed or granted beyond it. The pass has all shares but the
    /// intake's one.
    ///
    /// Fails only where there isn't as much memory, and the pool is unchanged then. No later call
    /// takes any.
    pub fn new(
        alloc: Global,
        n: u32,
        reserve: u32,
        first: u64,
        capacity: u64,
        pool: &mut Pool,
    ) -> Result<(Ring, Intake, Pass), AllocError>
        requires some { 0 < n }
        requires reserve { reserve ≤ n }
        requires first { first ≤ 2 ^ 62 }
        requires left { n ≤ count_left pool.old.left }
        ensures first { IfOk result (λ r. (ring_key r.0).first ≡ first) }
        ensures size { IfOk result (λ r. (ring_key r.0).size ≡ n) }
        ensures reserve { IfOk result (λ r. (ring_key r.0).reserve ≡ reserve) }
        ensures capacity { IfOk result (λ r. (ring_key r.0).capacity ≡ capacity) }
        ensures region { IfOk result (λ r. (ring_key r.0).origin.region ≡ pool.old.region) }
        ensures rings { IfOk result (λ r. IsIntakeOf r.0 r.1 × IsPassOf r.0 r.2) }
        ensures intake { IfOk result (λ r. intake_view r.1 ≡ record {
          found = nothing_found;
          pass = record no_part { shares = 1; copier = true };
          intake = record {
            on = true;
            took = [];
            taken = first;
            away = None;
            freed = first;
            granted = first;
          };
          key = ring_key r.0;
        }) }
        ensures pass { IfOk result (λ r. pass_view r.2 ≡ record {
          found = nothing_found;
          pass = record no_part { shares = 127 };
          intake = no_desk;
          key = ring_key r.0;
        }) }

        // What goes out of the pool.
        ensures unchanged { IfErr result (λ _. pool.new ≡ pool.old) }
        ensures same_region { pool.new.region ≡ pool.old.region }
        ensures fewer_left { OnOk result
            (count_left pool.old.left ≡ count_left pool.new.left + n) }
        ensures more_out { OnOk result
            (count_out pool.new.left ≡ count_out pool.old.left + n) }
    {
        let size = u64::from(n);
        let words = first_words(alloc, n, first)?;
        let cells = first_cells(alloc, n, pool)?;
        let key = Key {
            first,
            size,
            reserve: u64::from(reserve),
            capacity,
            origin: pool.origin(),
        };
        match Table::new(alloc, words.as_slice(), cells, &key) {
            Err(Refused { slots }) => {
                give_cells(slots, pool);
                Err(AllocError)
            }
            Ok((table, seat)) => {
                let mut seat = seat;
                let intake = table.shared.split_seat::<Parted>(&mut seat);
                let ring = Ring {
                    table,
                    size,
                    first,
                    sleepers: AtomicU64::new(0),
                    waiters: AtomicU64::new(0),
                    told: AtomicU64::new(first),
                };
                let intake = Intake {
                    seat: intake,
                    taken: first,
                    freed: first,
                };
                Ok((ring, intake, Pass { seat }))
            }
        }
    }

    /// A pass for another thread, with one of the shares. It has no claims.
    pub fn split(&self, pass: &mut Pass) -> Pass
        requires ring { IsPassOf self.now pass.old }
        requires shares { 2 ≤ (pass_view pass.old).pass.shares }
        ensures ring { IsPassOf self.now pass.new }
        ensures less { let old = pass_view pass.old in pass_view pass.new
            ≡ record old { pass = record old.pass { shares = old.pass.shares - 1 } } }
        ensures new_ring { IsPassOf self.now result }
        ensures new { pass_view result ≡ record {
          found = nothing_found;
          pass = record no_part { shares = 1 };
          intake = no_desk;
          key = ring_key self.now;
        } }
    {
        Pass {
            seat: self.table.shared.split_seat::<Passes>(&mut pass.seat),
        }
    }

    /// Takes another pass in, with its shares, its claims and what it put.
    pub fn join(&self, pass: &mut Pass, other: Pass)
        requires ring { IsPassOf self.now pass.old }
        requires other_ring { IsPassOf self.now other }
        ensures ring { IsPassOf self.now pass.new }
        ensures both { let old = pass_view pass.old in let its = (pass_view other).pass in
            pass_view pass.new ≡ record old {
              pass = record old.pass {
                shares = old.pass.shares + its.shares;
                claims = old.pass.claims ++ its.claims;
                puts = old.pass.puts ++ its.puts;
              };
            } }
    {
        let Pass { seat } = other;
        self.table.shared.join_seat::<Passes>(&mut pass.seat, seat);
    }

    /// Loads `claimed` once, for the intake and the pass together: all that the intake has taken
    /// was claimed. Where the pass has all shares that the intake hasn't, each position from the
    /// ring's first one to the answer is in one claim of the pass or of the intake, and no other
    /// position is in any: so their claims are all that there are.
    pub fn all_claimed(&self, intake: &mut Intake, pass: &mut Pass) -> u64
        requires intake_ring { IsIntakeOf self.now intake.old }
        requires ring { IsPassOf self.now pass.old }
        ensures intake_ring { IsIntakeOf self.now intake.new }
        ensures ring { IsPassOf self.now pass.new }
        ensures all { (pass_view pass.old).pass.shares ≡ 127
            → AreAllClaims (ring_key self.now).first result (pass_view pass.new).pass
            (intake_view intake.new).pass }
        ensures found { let old = pass_view pass.old in pass_view pass.new ≡ record old {
          found = record old.found { steps = old.found.steps + 1; claimed = result };
        } }
        ensures same_copies { IsSamePart (intake_view intake.old).pass
            (intake_view intake.new).pass }
        ensures same_desk { (intake_view intake.new).intake ≡ (intake_view intake.old).intake }
        ensures intake_found { (intake_view intake.new).found ≡ (pass_view pass.new).found }
        ensures rises { (pass_view pass.old).found.claimed ≤ result }
        ensures intake_rises { (intake_view intake.old).found.claimed ≤ result }
        ensures taken { (intake_view intake.old).intake.taken ≤ result }
        ensures most { result ≤ 2 ^ 62 }
    {
        let shared = &self.table.shared;
        let desk = shared.split_seat::<Moved>(&mut intake.seat);
        shared.join_seat::<Handed>(&mut pass.seat, desk);
        let claimed = self.look_claimed(&mut pass.seat);
        let back = shared.split_seat::<Parted>(&mut pass.seat);
        shared.join_seat::<Moved>(&mut intake.seat, back);
        claimed
    }

    /// Ends the ring, and gives the frames in its slots back to their pool. The pass has all shares
    /// that the intake hasn't, so the lists of the two have all claims and all that was put. Each
    /// position that was claimed is in one claim and in no other, each was put once, and what the
    /// intake took is what was put there: users' entries by the pass, and copies by the intake
    /// itself.
    pub fn close(self, intake: Intake, pass: Pass, pool: &mut Pool)
        requires intake_ring { IsIntakeOf self intake }
        requires ring { IsPassOf self pass }
        requires shares { (pass_view pass).pass.shares ≡ 127 }
        requires own { pool.old.region ≡ (ring_key self).origin.region }
        ensures tiled { IsTiled (ring_key self).first (pass_view pass).pass
            (intake_view intake).pass }
        ensures filled { IsFilled (pass_view pass).pass }
        ensures copies_filled { IsFilled (intake_view intake).pass }
        ensures taken { IsAsPut (ring_key self).first (intake_view intake).intake.took
            (pass_view pass).pass (intake_view intake).pass }
        ensures region { pool.new.region ≡ pool.old.region }
        ensures left { count_left pool.new.left + (intake_view intake).intake.taken
            ≡ count_left pool.old.left + (intake_view intake).intake.freed + (ring_key self).size }
        ensures out { count_out pool.new.left + (intake_view intake).intake.freed
            + (ring_key self).size
            ≡ count_out pool.old.left + (intake_view intake).intake.taken }
    {
        let Ring {
            table,
            size,
            first: _,
            sleepers: _,
            waiters: _,
            told: _,
        } = self;
        let Pass { mut seat } = pass;
        let Intake {
            seat: other,
            taken,
            freed,
        } = intake;
        table.shared.join_seat::<Handed>(&mut seat, other);
        let closed = table.close_with(seat);
        give_slots(closed, freed, taken, size, pool);
    }
}
