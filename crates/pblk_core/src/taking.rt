//! Entries that a core takes.

ghost use Rattle.std.specs.Prelude.{ℕ, ◌≡◌, ◌+◌, ◌%◌, ◌<◌, ◌^◌, true, false, length, slice_set, Some, None, IfSome};
ghost use Rattle.std.specs.List.{All, Contains};
ghost use Rattle.line_table.specs.declared.row.Row.{Row};
ghost use Rattle.line_table.specs.Rows.{IsRow};
ghost use Rattle.core_laws.specs.ChangedTables.{lose_in};
ghost use Rattle.pblk_world.specs.Events.{Take};
ghost use Rattle.sector_pool.specs.declared.entry.Class.TheVariants.{User, Copy};
ghost use Rattle.l2p_map.specs.declared.slot.Slot.TheVariants.{Cached, Media};
ghost use Rattle.std.specs.FinMap as fin;
ghost use Rattle.pblk_core.specs.Keeping.{KeepsStripesTaking, still_copying};
ghost use Rattle.pblk_core.specs.Collecting.{BringsNoneBut, HasPassed, IsCollecting, KeepsCollecting};
ghost use Rattle.pblk_core.specs.Copies.{is_copying};
ghost use Rattle.stripe_placer.specs.Placing.{held, waits};
ghost use Rattle.write_window.specs.Window as view;
ghost use Rattle.pblk_core.specs.Holds.{has_landed_in, line_of_slot, rows_with_taker};
ghost use Rattle.pblk_core.specs.Named.{pad_of};
ghost use Rattle.pblk_core.specs.Mounts.{CollectsAfter, StandsAfter};
ghost use Rattle.pblk_core.specs.Stands.{IsStanding};
ghost use Rattle.pblk_core.specs.Taken.{IsClassed, entry_of, is_latest_in, is_source, mark_of, users_in};
ghost use Rattle.pblk_core.specs.Taking.{CanTake, IsLegalTake, with_waiting};

use crate::hold::{Hold, Holds};
use crate::target_core::Core;
use l2p_map::Slot;
use line_table::Lines;
use pblk_model::Mark;
use sector_pool::{Class, Entry, Source};
use write_window::Window;

// Notes that the entry at position `by` takes over from what was the latest of its sector. The line
// in which that was live has one live sector less, and is given. Where it has landed there, the
// entry took it from the line.
fn supersede(
    slot: Slot,
    window: &Window,
    lines: &mut Lines,
    holds: &mut Holds,
    by: u64,
) -> Option<u32>
    requires room { 0 < length holds.old.rows.items }
    requires inside { (line : ℕ) → line_of_slot holds.old.rows.items slot ≡ Some line
        → line < length lines.old.rows }
    requires live { (line : ℕ) (row : Row) → line_of_slot holds.old.rows.items slot ≡ Some line
        → IsRow lines.old line row → 0 < row.live }
    ensures line { result ≡ line_of_slot holds.old.rows.items slot }
    ensures lines { lines.new ≡ lose_in (line_of_slot holds.old.rows.items slot)
        (has_landed_in window.now slot) by lines.old }
    ensures holds { holds.new.rows.items ≡ rows_with_taker slot by holds.old.rows.items }
{
    let line = line_of_slot(&slot, holds);
    let landed = has_landed(&slot, window);
    match slot {
        Slot::Unwritten => (),
        Slot::Media { .. } => (),
        Slot::Cached(position) => holds.set_taker(position, by),
    }
    if let Some(line) = line {
        if landed {
            lines.lose(line, by);
        } else {
            lines.lower(line);
        }
    }
    line
}

// The line in which the content of a slot is live, if it is in one.
fn line_of_slot(slot: &Slot, holds: &Holds) -> Option<u32>
    requires { 0 < length holds.now.rows.items }
    ensures { result ≡ line_of_slot holds.now.rows.items slot.now }
{
    match *slot {
        Slot::Unwritten => None,
        Slot::Media { line, .. } => Some(line),
        Slot::Cached(position) => holds.get(position).line,
    }
}

// Whether the content of a slot has landed.
fn has_landed(slot: &Slot, window: &Window) -> bool
    ensures { result ≡ has_landed_in window.now slot.now }
{
    match *slot {
        Slot::Unwritten => false,
        Slot::Media { .. } => true,
        Slot::Cached(position) => window.has_landed(position),
    }
}

impl Core {
    /// Takes an entry. Its position is the next, and below 2^62; its sector is below the capacity;
    /// and the window has room for it. A user's entry has no source. A copy names the block that
    /// was copied, which isn't in the buffer.
    ///
    /// A user's entry is the latest of its sector from then on. So is a copy where the map still
    /// names its source; else it is written with the mark Void, and the map stays as it is (this
    /// project's rule "Newest entry wins" in docs/TARGET.md). After a copy none is under way.
    pub fn take(&mut self, entry: Entry)
        requires collecting { IsCollecting self.old }
        requires next { entry.position ≡ view.taken self.old.window }
        requires position { entry.position < 2 ^ 62 }
        requires room { length self.old.window.entries < self.old.window.size }
        requires class { IsClassed self.old.map entry entry.class entry.source }
        requires lba { entry.lba < self.old.layout.capacity }
        ensures stands { let mark = mark_of self.old.map entry
            in StandsAfter self.old (Take (entry_of entry) mark) self.new }
        ensures collects { let mark = mark_of self.old.map entry
            in CollectsAfter self.old (Take (entry_of entry) mark) self.new }
        ensures legal { IsLegalTake self.old entry }
        ensures pushed { self.new.window ≡ with_waiting self.old.window entry }
        ensures kept { KeepsStripesTaking entry.class self.old self.new }
    {
        let class = entry.class;
        let loser = self.enter(entry);
        let may_be = self.may_collect(loser);
        self.look_again(may_be);
        self.end_copy(class);
        self.choose();
    }

    // Takes an entry into the tables. Gives the line that has one live sector less, if one has.
    fn enter(&mut self, entry: Entry) -> Option<u32>
        requires standing { IsStanding self.old }
        requires can { CanTake self.old entry }
        ensures legal { IsLegalTake self.old entry }
        ensures stands { let mark = mark_of self.old.map entry
            in StandsAfter self.old (Take (entry_of entry) mark) self.new }
        ensures pushed { self.new.window ≡ with_waiting self.old.window entry }
        ensures pad { pad_of self.new ≡ pad_of self.old }
        ensures rows { self.new.placer.units ≡ self.old.placer.units }
        ensures collection { self.new.collection ≡ self.old.collection }
        ensures passed { HasPassed self.old → HasPassed self.new }
        ensures inside { IfSome result (λ line. line < self.new.layout.chunks) }
        ensures brings { BringsNoneBut result self.old self.new }
    {
        if self.is_latest(&entry) {
            self.take_latest(entry)
        } else {
            self.take_stale(entry);
            None
        }
    }

    // Notes that an entry of this class was taken: after a copy none is under way.
    fn end_copy(&mut self, class: Class)
        ensures { self.new ≡ record self.old {
          collection = record self.old.collection {
            under_way = still_copying class (is_copying self.old);
          };
        } }
    {
        if let Class::Copy = class {
            self.collection.under_way = false;
        }
    }

    // Whether an entry becomes the latest of its sector.
    fn is_latest(&self, entry: &Entry) -> bool
        requires lba { entry.now.lba < fin.len self.now.map }
        ensures { result ≡ is_latest_in self.now.map entry.now }
    {
        match &entry.source {
            None => true,
            Some(source) => is_source(&self.map.get(entry.lba), source),
        }
    }

    // Takes an entry that becomes the latest of its sector into the tables. Gives the line that has
    // one live sector less, if one has.
    fn take_latest(&mut self, entry: Entry) -> Option<u32>
        requires standing { IsStanding self.old }
        requires can { CanTake self.old entry }
        requires latest { is_latest_in self.old.map entry ≡ true }
        ensures legal { IsLegalTake self.old entry }
        ensures stands { let mark = mark_of self.old.map entry
            in StandsAfter self.old (Take (entry_of entry) mark) self.new }
        ensures pushed { self.new.window ≡ with_waiting self.old.window entry }
        ensures pad { pad_of self.new ≡ pad_of self.old }
        ensures rows { self.new.placer.units ≡ self.old.placer.units }
        ensures map { self.new.map ≡ fin.insert self.old.map entry.lba (Cached entry.position) }
        ensures collection { self.new.collection ≡ self.old.collection }
        ensures inside { IfSome result (λ line. line < self.new.layout.chunks) }
        ensures brings { BringsNoneBut result self.old self.new }
    {
        let position = entry.position;
        let lba = entry.lba;
        self.users += users_in(&entry.class);
        let loser = supersede(
            self.map.get(lba),
            &self.window,
            &mut self.lines,
            &mut self.holds,
            position,
        );
        self.map.set(lba, Slot::Cached(position));
        self.keep(entry, Mark { lba, position });
        loser
    }

    // Takes a copy whose source has become stale into the tables.
    fn take_stale(&mut self, entry: Entry)
        requires standing { IsStanding self.old }
        requires can { CanTake self.old entry }
        requires stale { is_latest_in self.old.map entry ≡ false }
        ensures legal { IsLegalTake self.old entry }
        ensures stands { let mark = mark_of self.old.map entry
            in StandsAfter self.old (Take (entry_of entry) mark) self.new }
        ensures pushed { self.new.window ≡ with_waiting self.old.window entry }
        ensures rows { self.new.placer.units ≡ self.old.placer.units }
        ensures collecting { KeepsCollecting self.old self.new }
    {
        let mark = Mark {
            lba: Mark::VOID_LBA,
            position: entry.position,
        };
        self.keep(entry, mark);
    }

    // Keeps an entry in the window, with the mark with which it is written. It waits.
    fn keep(&mut self, entry: Entry, mark: Mark)
        requires next { entry.position ≡ view.taken self.old.window }
        requires position { entry.position < 2 ^ 63 }
        requires room { length self.old.window.entries < self.old.window.size }
        requires holds { 0 < length self.old.holds.rows.items }
        requires waits_room { length (held self.old.placer) < self.old.placer.shape.ring }
        requires another { ¬ Contains (held self.old.placer) entry.position }
        requires rises { All (λ q. q < entry.position) self.old.placer.entries.fresh }
        ensures window { self.new.window ≡ with_waiting self.old.window entry }
        ensures placer { self.new.placer ≡ waits self.old.placer entry.position false }
        ensures holds { let rows = self.old.holds.rows.items in self.new.holds.rows.items
            ≡ slice_set rows (entry.position % length rows)
            (record { mark = mark; line = None; taker = None }) }
        ensures unchanged { self.new ≡ record self.old {
          window = self.new.window;
          placer = self.new.placer;
          holds = self.new.holds;
        } }
    {
        let position = entry.position;
        self.holds.set(
            position,
            Hold {
                mark,
                line: None,
                taker: None,
            },
        );
        self.window.push(entry);
        self.placer.wait(position, false);
    }
}

// Whether a slot is just this block.
fn is_source(slot: &Slot, source: &Source) -> bool
    ensures { result ≡ is_source (Some slot.now) source.now }
{
    match *slot {
        Slot::Media { line, at, position } => {
            line == source.line && at == source.at && position == source.position
        }
        _ => false,
    }
}

// How many users' writes an entry of this class is.
fn users_in(class: &Class) -> u64
    ensures { result ≡ users_in class.now }
{
    match class {
        Class::User => 1,
        Class::Copy => 0,
    }
}
