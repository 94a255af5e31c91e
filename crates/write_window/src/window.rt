//! The window.
ghost use Rattle.std.specs.Prelude.{ℕ, ◌≡◌, ◌↔◌, ◌+◌, ◌<◌, ◌≤◌, ◌^◌, true, false, length, drop, take};
ghost use Rattle.std.specs.Prelude.{[], ◌∷◌, ◌++◌, Some, IsSome, IsNone, IfSome, IfNone, IfOk, OnSome};
ghost use Rattle.std.specs.VecDeque.{deque_capacity, deque_len};
ghost use Rattle.pblk_model.specs.Frames.{Region, count_left, count_out};
ghost use Rattle.write_window.specs.declared.held.Progress.TheVariants.{Waiting, Landed, Readable};
ghost use Rattle.write_window.specs.Entries.{has_landed, users_in, with_progress, AreFrom};
ghost use Rattle.write_window.specs.Window.{taken, IsHeld, frame_at, sector_at, has_landed_at};
ghost use Rattle.write_window.specs.Window.{is_readable_at, turned, synced, AreOf, given};

use crate::held::{Held, Progress, user_count};
use crate::run::{Run, extended};
use pblk_model::Front;
use sector_pool::{Entry, Frame, Pool};
use std::alloc::{AllocError, Global};
use std::collections::VecDeque;
use std::marker::Model;

/// The entries from the front `freed` to the last that was taken, each with how far it has come.
///
/// A ring of slots: each call but `new` and `close` takes a few steps, whatever its size, and no memory.
/// `landed` also moves the synced front on over what has landed, which passes each position once: so it is a
/// few steps a position on the whole.
///
/// A window can't be dropped or copied: it ends by `close`, which gives its frames back.
pub struct Window {
    entries: VecDeque<Held>,
    size: u32,
    freed: u64,
    // the users' writes before `freed`
    users: u64,
    // of the entries, those below the synced front
    run: Run,
}

// Contracts see for how many entries there is room, the front `freed` with the users' writes below it, and a
// list of the entries. The synced front is a function of these.
impl Model for Window {
    ghost use Rattle.write_window.specs.Window.{WindowView};

    ghost Value = { WindowView };

    ghost use Rattle.write_window.specs.Inside.{window, IsWindow};

    ghost view = { window };

    ghost invariant = { IsWindow };
}

// Puts an entry behind the others, where there is room.
fn append(entries: &mut VecDeque<Held>, held: Held)
    requires room { deque_len entries.old < deque_capacity entries.old }
    ensures items { entries.new.items ≡ entries.old.items ++ held ∷ [] }
    ensures capacity { deque_capacity entries.new ≡ deque_capacity entries.old }
{
    entries.push_back(held).unwrap();
}

// Writes how far the entry at an index has come.
fn turn(entries: &mut VecDeque<Held>, index: usize, to: Progress)
    requires inside { index < length entries.old.items }
    ensures items { entries.new.items ≡ with_progress entries.old.items index to }
    ensures len { length entries.new.items ≡ length entries.old.items }
    ensures capacity { deque_capacity entries.new ≡ deque_capacity entries.old }
{
    entries[index].progress = to;
}

// Gives the frames of all entries back.
fn give_all(entries: VecDeque<Held>, pool: &mut Pool)
    requires own { AreOf pool.old.region entries.items }
    ensures given { pool.new.left ≡ given entries.items pool.old.left }
    ensures region { pool.new.region ≡ pool.old.region }
    ensures more_left { count_left pool.new.left ≡ count_left pool.old.left + length entries.items }
    ensures fewer_out { count_out pool.old.left ≡ count_out pool.new.left + length entries.items }
{
    let mut entries = entries;
    while let Some(held) = entries.pop_front() {
        let Held { entry, progress: _ } = held;
        let Entry {
            position: _,
            class: _,
            lba: _,
            source: _,
            frame,
        } = entry;
        pool.give(frame);
    }
    entries.destroy_empty();
}

impl Window {
    /// A window with room for `n` entries, of which `first` is the first position. It holds none.
    ///
    /// Fails only where there isn't as much memory. No later call takes any.
    pub fn new(alloc: Global, n: u32, first: u64) -> Result<Window, AllocError>
        ensures size { IfOk result (λ w. w.size ≡ n) }
        ensures first { IfOk result (λ w. w.freed ≡ first) }
        ensures empty { IfOk result (λ w. w.entries ≡ []) }
        ensures no_users { IfOk result (λ w. w.users ≡ 0) }
    {
        let entries = VecDeque::with_capacity(alloc, n as usize)?;
        Ok(Window {
            entries,
            size: n,
            freed: first,
            users: 0,
            run: Run { count: 0, users: 0 },
        })
    }

    /// Takes an entry in, behind the others. Its position is the next and below 2^63, and fewer entries are
    /// held than there is room for.
    pub fn push(&mut self, entry: Entry)
        requires next { entry.position ≡ taken self.old }
        requires position { entry.position < 2 ^ 63 }
        requires room { length self.old.entries < self.old.size }
        ensures pushed { self.new ≡ record self.old {
          entries = self.old.entries
              ++ record { entry = entry; progress = Waiting } ∷ [];
        } }
        ensures own { (r : Region) → AreOf r self.old.entries → entry.frame.region ≡ r
            → AreOf r self.new.entries }
        ensures synced { synced self.new ≡ synced self.old }
    {
        append(
            &mut self.entries,
            Held {
                entry,
                progress: Progress::Waiting,
            },
        );
    }

    /// The sector of the entry of a position. None exactly where it isn't held.
    pub fn get(&self, position: u64) -> Option<&[u8]>
        ensures none { IsNone result ↔ (¬ IsHeld self.now position) }
        ensures some { IsHeld self.now position → IsSome result }
        ensures sector { IfSome result (λ s. sector_at self.now position ≡ Some s.now) }
    {
        let index = position.checked_sub(self.freed)?;
        let held = self.entries.get(index as usize)?;
        Some(held.entry.frame.bytes())
    }

    /// Whether the entry of a position has landed. False where it isn't held.
    pub fn has_landed(&self, position: u64) -> bool
        ensures { result ≡ has_landed_at self.now position }
    {
        match position.checked_sub(self.freed) {
            None => false,
            Some(index) => match self.entries.get(index as usize) {
                None => false,
                Some(held) => held.progress.has_landed(),
            },
        }
    }

    /// Notes that a block of a held position has landed. Where one had before, nothing changes.
    pub fn landed(&mut self, position: u64)
        requires held { IsHeld self.old position }
        ensures landed { has_landed_at self.old position ≡ false
            → self.new ≡ turned self.old position Landed }
        ensures again { has_landed_at self.old position ≡ true → self.new ≡ self.old }
        ensures freed { self.new.freed ≡ self.old.freed }
        ensures size { self.new.size ≡ self.old.size }
        ensures as_many { length self.new.entries ≡ length self.old.entries }
        ensures own { (r : Region) → AreOf r self.old.entries → AreOf r self.new.entries }
    {
        let index = (position - self.freed) as usize;
        if self.entries[index].progress.has_landed() {
            return;
        }
        turn(&mut self.entries, index, Progress::Landed);
        self.run = extended(&self.entries, self.run);
    }

    /// Notes that the block of a held position, which has landed, can be read.
    pub fn readable(&mut self, position: u64)
        requires held { IsHeld self.old position }
        requires landed { has_landed_at self.old position ≡ true }
        ensures readable { self.new ≡ turned self.old position Readable }
        ensures as_many { length self.new.entries ≡ length self.old.entries }
        ensures own { (r : Region) → AreOf r self.old.entries → AreOf r self.new.entries }
        ensures synced { synced self.new ≡ synced self.old }
    {
        let index = (position - self.freed) as usize;
        turn(&mut self.entries, index, Progress::Readable);
    }

    /// Lets the frame of the position at `freed` go. None exactly where that position isn't readable.
    pub fn pop_free(&mut self) -> Option<Frame>
        ensures none { IsNone result ↔ (is_readable_at self.old self.old.freed ≡ false) }
        ensures some { IsSome result ↔ (is_readable_at self.old self.old.freed ≡ true) }
        ensures unchanged { IfNone result (self.new ≡ self.old) }

        // The first entry's frame goes, and the front passes it. The synced front stays.
        ensures frame { IfSome result (λ f. frame_at self.old self.old.freed ≡ Some f) }
        ensures freed { OnSome result (self.new.freed ≡ self.old.freed + 1) }
        ensures entries { OnSome result (self.new.entries ≡ drop 1 self.old.entries) }
        ensures users { OnSome result
            (self.new.users ≡ self.old.users + users_in (take 1 self.old.entries)) }
        ensures size { self.new.size ≡ self.old.size }
        ensures own { (r : Region) → AreOf r self.old.entries → AreOf r self.new.entries }
        ensures region { (r : Region) → AreOf r self.old.entries
            → IfSome result (λ f. f.region ≡ r) }
        ensures synced { synced self.new ≡ synced self.old }
    {
        if !self.entries.front()?.progress.is_readable() {
            return None;
        }
        let held = self.entries.pop_front()?;
        let Held { entry, progress: _ } = held;
        let Entry {
            position: _,
            class,
            lba: _,
            source: _,
            frame,
        } = entry;
        let users = user_count(class);
        self.freed += 1;
        self.users += users;
        self.run.count -= 1;
        self.run.users -= users;
        Some(frame)
    }

    /// The synced front: all positions below it have landed, and its own hasn't. It names the users' writes
    /// among those since the first.
    pub fn synced(&self) -> Front
        ensures synced { result ≡ synced self.now }
        ensures below { (p : ℕ) → self.now.freed ≤ p → p < result.position
            → has_landed_at self.now p ≡ true }
        ensures not_its_own { has_landed_at self.now result.position ≡ false }
    {
        Front {
            users: self.users + self.run.users,
            position: self.freed + self.run.count as u64,
        }
    }

    /// The first position that is held, or the next where none is. The entries have the positions from it on.
    pub fn freed(&self) -> u64
        ensures freed { result ≡ self.now.freed }
        ensures numbered { AreFrom self.now.freed self.now.entries }
    {
        self.freed
    }

    /// One past the last position that was taken.
    pub fn taken(&self) -> u64
        ensures { result ≡ taken self.now }
    {
        self.freed + self.entries.len() as u64
    }

    /// Ends the window, and gives the frames of all held entries back to their pool.
    pub fn close(self, pool: &mut Pool)
        requires own { AreOf pool.old.region self.entries }
        ensures given { pool.new.left ≡ given self.entries pool.old.left }
        ensures region { pool.new.region ≡ pool.old.region }
        ensures more_left { count_left pool.new.left
            ≡ count_left pool.old.left + length self.entries }
        ensures fewer_out { count_out pool.old.left
            ≡ count_out pool.new.left + length self.entries }
    {
        let Window {
            entries,
            size: _,
            freed: _,
            users: _,
            run: _,
        } = self;
        give_all(entries, pool);
    }
}
