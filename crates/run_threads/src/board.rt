//! The board of posts: what was told under each name, for all threads of a script.
ghost use Rattle.std.specs.Prelude.{ℕ, List, ◌≡◌, ◌<◌, ◌≤◌, ◌+◌, ◌^◌, [], Some, length, replicate, IfOk, IfSome, IfNone};
ghost use Rattle.run_threads.specs.Board.{IsSeatOf, words_of};
ghost use Rattle.run_threads.specs.Names.{AreNames, HasWord, PostOnce, all_of, told_by, word_of, words_after};
ghost use Rattle.run_threads.specs.Rule.{AreTold, IsConsistent};
ghost use Rattle.run_threads.specs.Steps.{joined, posted, rest_of, share_of, starting};

use crate::names::Names;
use crate::rule::{Deals, Hears, Looks, Meets, Order, Posts, Share};
use crate::view::View;
use atomic_table::{Seat, Table};
use block_port::Note;
use crossbeam_utils::Backoff;
use pblk_model::{Command, Script};
use std::alloc::{AllocError, Global};
use std::marker::Brand;
use std::sync::Wait;
use std::time::Duration;

/// So many milliseconds a thread sleeps that awaits a name and that no post wakes: of a word whose
/// low 32 bits are 0 the system can't tell that it was posted.
const PATIENCE: u64 = 10;

/// What was posted under each name that a script posts, for any number of threads.
///
/// Each name has a word, which is 0 until it is posted, and then the posted position plus one. One
/// more word is 0 for good, so that there is one.
#[derive(Drop)]
pub(crate) struct Board {
    table: Table<(), View, usize, Order, Global>,
    names: Names,
}

// So many words, all 0.
fn blank(alloc: Global, count: usize) -> Result<Vec<u64>, AllocError>
    ensures { IfOk result (λ words. words.items ≡ replicate count 0) }
{
    vec![in alloc; 0; count]
}

impl Board {
    /// A board for the names that a script posts, and its first seat, which may post them all.
    /// Takes all its memory here.
    pub(crate) fn new(alloc: Global, script: &Script) -> Result<(Board, Seat<(), View>), AllocError>
        requires once { PostOnce (all_of script.now) }
        ensures names { IfOk result (λ r. AreNames r.0.names (all_of script.now)) }
        ensures words { IfOk result (λ r. words_of r.0 ≡ words_after 0 (all_of script.now) + 1) }
        ensures of { IfOk result (λ r. IsSeatOf r.0 r.1) }
        ensures seat { IfOk result (λ r. r.1.me.0
            ≡ starting (words_after 0 (all_of script.now))) }
    {
        let names = Names::new(alloc, script)?;
        let count = names.count();
        let words = blank(alloc, count + 1)?;
        let (table, seat) = Table::of_words(alloc, words.as_slice(), &count)?;
        Ok((Board { table, names }, seat))
    }

    // A seat that may post the first of the words that the seat may post. The call picks how many,
    // which is why it is handed the commands.
    fn deal<D: Share>(&self, seat: &mut Seat<(), View>, _commands: &[Command]) -> Seat<(), View>
        requires of { IsSeatOf self.now seat.old }
        requires words { 0 < words_of self.now }
        requires next { seat.old.me.0.next ≤ D.past }
        requires past { D.past ≤ seat.old.me.0.past }
        ensures of { IsSeatOf self.now seat.new }
        ensures rest { seat.new.me.0 ≡ rest_of D.past seat.old.me.0 }
        ensures share_of { IsSeatOf self.now result }
        ensures share { result.me.0 ≡ share_of D.past seat.old.me.0 }
    {
        self.table.shared.split_seat::<Deals<D>>(seat)
    }

    /// A seat that may post the next names, as many as these commands post.
    pub(crate) fn seat_for(&self, seat: &mut Seat<(), View>, commands: &[Command]) -> Seat<(), View>
        requires of { IsSeatOf self.now seat.old }
        requires words { 0 < words_of self.now }
        requires past { words_after seat.old.me.0.next commands.now ≤ seat.old.me.0.past }
        ensures of { IsSeatOf self.now seat.new }
        ensures rest { let past = words_after seat.old.me.0.next commands.now in
            seat.new.me.0 ≡ rest_of past seat.old.me.0 }
        ensures share_of { IsSeatOf self.now result }
        ensures share { let past = words_after seat.old.me.0.next commands.now in
            result.me.0 ≡ share_of past seat.old.me.0 }
    {
        self.deal::<Brand>(seat, commands)
    }

    /// Posts a note under the name whose word is the seat's next one, and wakes all who await it.
    pub(crate) fn post(&self, seat: &mut Seat<(), View>, name: &str, note: Note)
        requires of { IsSeatOf self.now seat.old }
        requires word { word_of self.now.names name.now ≡ Some seat.old.me.0.next }
        requires may { seat.old.me.0.next < seat.old.me.0.past }
        requires within { seat.old.me.0.past ≤ words_of self.now }
        ensures of { IsSeatOf self.now seat.new }
        ensures posted { seat.new.me.0 ≡ posted seat.old.me.0 (note.position + 1) }
    {
        let word = self.names.word(name);
        let shared = &self.table.shared;
        shared.store::<Posts>(seat, word, note.position + 1);
        shared.wake_all(word);
    }

    // What was posted in a word, if anything was.
    fn look_up(&self, seat: &mut Seat<(), View>, word: usize) -> Option<Note>
        requires of { IsSeatOf self.now seat.old }
        requires within { word < words_of self.now }
        ensures of { IsSeatOf self.now seat.new }
        ensures told { IfSome result (λ note. (at : ℕ → ℕ) → AreTold at seat.new.me.0.known
            → (at word ≡ note.position) × AreTold at seat.old.me.0.known) }
        ensures next { seat.new.me.0.next ≡ seat.old.me.0.next }
        ensures past { seat.new.me.0.past ≡ seat.old.me.0.past }
        ensures none { IfNone result (seat.new.me.0 ≡ seat.old.me.0) }
    {
        let found = self.table.shared.load::<Hears>(seat, word);
        if found == 0 {
            return None;
        }
        Some(Note {
            position: found - 1,
        })
    }

    // Waits until something is posted in a word.
    fn wait<R: Wait>(&self, rt: &R, seat: &mut Seat<(), View>, word: usize) -> Note
        requires of { IsSeatOf self.now seat.old }
        requires within { word < words_of self.now }
        ensures of { IsSeatOf self.now seat.new }
        ensures told { (at : ℕ → ℕ) → AreTold at seat.new.me.0.known
            → (at word ≡ result.position) × AreTold at seat.old.me.0.known }
        ensures next { seat.new.me.0.next ≡ seat.old.me.0.next }
        ensures past { seat.new.me.0.past ≡ seat.old.me.0.past }
    {
        let backoff = Backoff::new();
        for _ in rt.forever() {
            if let Some(note) = self.look_up(seat, word) {
                return note;
            }
            if backoff.is_completed() {
                self.table
                    .shared
                    .park_timeout(rt, word, 0, Duration::from_millis(PATIENCE));
            } else {
                backoff.snooze();
            }
        }
        unreachable!()
    }

    /// The note that is posted under a name. Waits until it is.
    pub(crate) fn hear<R: Wait>(&self, rt: &R, seat: &mut Seat<(), View>, name: &str) -> Note
        requires of { IsSeatOf self.now seat.old }
        requires word { HasWord self.now.names (words_of self.now) name.now }
        ensures of { IsSeatOf self.now seat.new }
        ensures told { (at : ℕ → ℕ) → AreTold at seat.new.me.0.known
            → (told_by self.now.names at name.now ≡ result.position)
            × AreTold at seat.old.me.0.known }
        ensures next { seat.new.me.0.next ≡ seat.old.me.0.next }
        ensures past { seat.new.me.0.past ≡ seat.old.me.0.past }
    {
        let word = self.names.word(name);
        self.wait(rt, seat, word)
    }

    /// Takes another seat in, with what it knows.
    pub(crate) fn join(&self, seat: &mut Seat<(), View>, other: Seat<(), View>)
        requires of { IsSeatOf self.now seat.old }
        requires other_of { IsSeatOf self.now other }
        requires words { 0 < words_of self.now }
        ensures of { IsSeatOf self.now seat.new }
        ensures joined { seat.new.me.0 ≡ joined seat.old.me.0 other.me.0 }
    {
        self.table.shared.join_seat::<Meets>(seat, other);
    }

    /// Tells that what a seat knows fits together.
    pub(crate) fn look(&self, seat: &mut Seat<(), View>)
        requires of { IsSeatOf self.now seat.old }
        requires words { 0 < words_of self.now }
        ensures { IsConsistent seat.old.me.0.known }
    {
        self.table.shared.load::<Looks>(seat, 0);
    }
}
