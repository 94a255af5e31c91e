//! Entries that are taken from the write ring.

ghost use Rattle.std.specs.Prelude.{◌≡◌, ◌≤◌, ◌<◌, ◌+◌, ◌^◌, ℕ, true, None, Some, length, map, slice_index};
ghost use mathlib.Core.List.{IsPrefix};
ghost use Rattle.pblk_world.specs.EngineLog.{takes};
ghost use Rattle.pblk_world.specs.Events.{Decides, Take};
ghost use Rattle.pblk_world.specs.Fronts.{taken};
ghost use Rattle.pblk_world.specs.Orders.{NoneToFree};
ghost use Rattle.chronicle.specs.Prefixes.{AreLegalLogs, logs_of};
ghost use Rattle.write_ring.specs.Handles.{IsIntakeOf};
ghost use Rattle.write_ring.specs.Stock.{HasPut};
ghost use Rattle.write_ring.specs.declared.view.Row.{Row};
ghost use Rattle.pblk_core.specs.Taken.{entry_of, mark_of};
ghost use Rattle.pblk_engine.specs.Asks.{IsRaisedByVictims};
ghost use Rattle.pblk_engine.specs.Hearts.{HasDecided, IsBeating, IsRingOf, IsSettled, parts, ring_row};
ghost use Rattle.pblk_engine.specs.Takes.{HasTakenRow, TakesOn};
ghost use Rattle.pblk_engine.specs.WorkSince.{HasWorkSince};
ghost use Rattle.pblk_engine.specs.declared.taking.Filled.TheVariants as filled;

use crate::engine_author::EngineAuthor;
use crate::heart::Heart;
use crate::mount::Mount;
use crate::settling::settle;
use chronicle::{Chronicle, Event};
use pblk_core::Core;
use pblk_model::Shows;
use sector_pool::Entry;
use write_ring::{Intake, Ring, Taken};

/// How far the entries of a ring were taken.
#[derive(Clone, Copy, Debug, PartialEq, Eq)]
pub(crate) enum Filled {
    /// All that was claimed is taken: the last load of `claimed` found the next position.
    All { claimed: u64 },
    /// The next position is claimed, and isn't filled: the turn word of its slot didn't name it.
    Gap { at: u64 },
}

// An entry that a core takes, with the mark with which it is written.
#[derive(Drop)]
struct Takes<'a> {
    core: &'a Core,
    entry: &'a Entry,
}

impl<'a> Shows for Takes<'a> {
    type Event = Event;

    ghost shown = { λ t.
        Decides (Take (entry_of t.entry.now) (mark_of t.core.now.map t.entry.now)) };
}

// Each byte of a slice is below 256.
fn are_bytes(bytes: &[u8])
    ensures { (k : ℕ) → slice_index bytes.now k < 256 }
{
    let _ = bytes;
}

// Takes the next position's entry, where it is filled. None where it took one.
fn take_next(
    core: &mut Core,
    author: &mut EngineAuthor,
    chronicle: &Chronicle,
    ring: &Ring,
    intake: &mut Intake,
) -> Option<Filled>
    requires of { author.old.chronicle ≡ chronicle.now }
    requires ring { IsIntakeOf ring.now intake.old }
    requires beating { IsBeating (parts core.old author.old intake.old.seat.me.0) }
    requires none { NoneToFree author.old.past.image (logs_of author.old.known) }
    ensures ring { IsIntakeOf ring.now intake.new }
    ensures beating { IsBeating (parts core.new author.new intake.new.seat.me.0) }
    ensures none { NoneToFree author.new.past.image (logs_of author.new.known) }
    ensures takes { TakesOn (parts core.old author.old intake.old.seat.me.0)
        (parts core.new author.new intake.new.seat.me.0) }
    ensures next { result ≡ None → (intake.new.seat.me.0.intake.taken
        ≡ intake.old.seat.me.0.intake.taken + 1)
        × (intake.old.seat.me.0.intake.taken < 2 ^ 62) }
    ensures all { (claimed : ℕ) → result ≡ Some (filled.All claimed)
        → (intake.new.seat.me.0.found.claimed ≡ claimed)
        × (claimed ≡ intake.new.seat.me.0.intake.taken) }
    ensures gap { (at : ℕ) → result ≡ Some (filled.Gap at)
        → (at ≡ intake.new.seat.me.0.intake.taken) × (at < intake.new.seat.me.0.found.claimed) }
{
    match ring.take(intake) {
        Taken::Entry(entry) => {
            are_bytes(entry.frame.bytes());
            author.append(
                chronicle,
                &Takes {
                    core: &*core,
                    entry: &entry,
                },
            );
            core.take(entry);
            None
        }
        Taken::Empty { claimed } => Some(Filled::All { claimed }),
        Taken::Unfilled { at } => Some(Filled::Gap { at }),
    }
}

// Takes entries as long as the next one is filled.
fn take_all(
    core: &mut Core,
    author: &mut EngineAuthor,
    chronicle: &Chronicle,
    ring: &Ring,
    intake: &mut Intake,
) -> Filled
    requires of { author.old.chronicle ≡ chronicle.now }
    requires ring { IsIntakeOf ring.now intake.old }
    requires beating { IsBeating (parts core.old author.old intake.old.seat.me.0) }
    requires none { NoneToFree author.old.past.image (logs_of author.old.known) }
    ensures ring { IsIntakeOf ring.now intake.new }
    ensures beating { IsBeating (parts core.new author.new intake.new.seat.me.0) }
    ensures takes { TakesOn (parts core.old author.old intake.old.seat.me.0)
        (parts core.new author.new intake.new.seat.me.0) }
    ensures all { (claimed : ℕ) → result ≡ filled.All claimed
        → (intake.new.seat.me.0.found.claimed ≡ claimed)
        × (claimed ≡ intake.new.seat.me.0.intake.taken) }
    ensures gap { (at : ℕ) → result ≡ filled.Gap at → (at ≡ intake.new.seat.me.0.intake.taken)
        × (at < intake.new.seat.me.0.found.claimed) }
{
    loop {
        if let Some(filled) = take_next(core, author, chronicle, ring, intake) {
            return filled;
        }
    }
}

// Takes entries as long as the next one is filled, and settles where one was taken.
fn take_and_settle(
    core: &mut Core,
    author: &mut EngineAuthor,
    chronicle: &Chronicle,
    ring: &Ring,
    intake: &mut Intake,
) -> Filled
    requires of { author.old.chronicle ≡ chronicle.now }
    requires ring { IsIntakeOf ring.now intake.old }
    requires beating { IsBeating (parts core.old author.old intake.old.seat.me.0) }
    requires settled { IsSettled author.old.past.image (logs_of author.old.known) core.old
        intake.old.seat.me.0 }
    ensures ring { IsIntakeOf ring.now intake.new }
    ensures legal { AreLegalLogs author.new.past.image author.new.known }
    ensures settled { IsSettled author.new.past.image (logs_of author.new.known) core.new
        intake.new.seat.me.0 }
    ensures takes { TakesOn (parts core.old author.old intake.old.seat.me.0)
        (parts core.new author.new intake.new.seat.me.0) }
    ensures all { (claimed : ℕ) → result ≡ filled.All claimed
        → (intake.new.seat.me.0.found.claimed ≡ claimed)
        × (claimed ≡ intake.new.seat.me.0.intake.taken) }
    ensures gap { (at : ℕ) → result ≡ filled.Gap at → (at ≡ intake.new.seat.me.0.intake.taken)
        × (at < intake.new.seat.me.0.found.claimed) }
{
    let before = core.front().position;
    let filled = take_all(core, author, chronicle, ring, intake);
    if core.front().position == before {
        return filled;
    }
    settle(core, author, chronicle, ring, intake);
    filled
}

impl<M: Mount> Heart<M> {
    /// Takes each entry that is filled, in the order of their positions, up to the first position
    /// that isn't filled. Where none is filled nothing else is done. A copy that the heart put at a
    /// position that was taken is the entry that was taken there.
    pub(crate) fn take_filled(&mut self, chronicle: &Chronicle, ring: &Ring) -> Filled
        requires of { chronicle.now ≡ M.chronicle }
        requires ring { IsRingOf M.ring M.key ring.now }
        ensures all { (claimed : ℕ) → result ≡ filled.All claimed
            → (self.new.intake.found.claimed ≡ claimed)
            × (claimed ≡ self.new.intake.intake.taken) }
        ensures gap { (at : ℕ) → result ≡ filled.Gap at → (at ≡ self.new.intake.intake.taken)
            × (at < self.new.intake.found.claimed) }
        ensures took { IsPrefix self.old.intake.intake.took self.new.intake.intake.took }
        ensures as_put { (r : Row) → HasPut r self.new.intake.pass
            → self.old.intake.intake.taken ≤ r.position
            → r.position < self.new.intake.intake.taken
            → HasTakenRow self.old.intake self.new.intake r }
        ensures takes { self.new.intake.intake.took
            ≡ map ring_row (takes (logs_of self.new.author.known 0)) }
        ensures taken { self.new.intake.intake.taken ≡ taken (logs_of self.new.author.known 0) }
        ensures rises { self.old.intake.intake.taken ≤ self.new.intake.intake.taken }
        ensures count { length self.new.intake.intake.took + self.old.intake.intake.taken
            ≡ length self.old.intake.intake.took + self.new.intake.intake.taken }
        ensures claimed { self.old.intake.found.claimed ≤ self.new.intake.found.claimed }
        ensures worked { self.old.intake.intake.taken < self.new.intake.intake.taken
            → HasWorkSince self.old.author.known self.new.author.known }
        ensures none { self.new.intake.intake.taken ≡ self.old.intake.intake.taken → self.new
            ≡ record self.old {
              intake = record self.old.intake { found = self.new.intake.found };
            } }
        ensures decided { HasDecided self.old.author self.new.author }
        ensures copying { self.new.copying ≡ true → self.old.copying ≡ true }
        ensures same_pass { self.new.intake.pass ≡ self.old.intake.pass }
        ensures granted { self.old.intake.intake.granted ≤ self.new.intake.intake.granted }
        ensures pad { self.old.pad ≤ self.new.pad }
        ensures pads { IsRaisedByVictims M.past.image (logs_of self.new.author.known) self.old.pad
            self.new.pad }
        ensures asked { self.new.asked ≡ self.old.asked }
    {
        take_and_settle(
            &mut self.core,
            &mut self.author,
            chronicle,
            ring,
            &mut self.intake,
        )
    }
}
