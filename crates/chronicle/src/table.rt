//! The words that the authors of a chronicle share.
ghost use Rattle.std.specs.Prelude.{◌≡◌, ◌+◌, ◌^◌, ◌<◌, ◌≤◌, [], ℕ, IfOk, Some, false, length, map, replicate};
ghost use Rattle.std.specs.List.{Contains, range_with_len};
ghost use mathlib.Core.List.{IsPrefix};
ghost use Rattle.pblk_model.specs.Shape.{units as units_of};
ghost use Rattle.chronicle.specs.Handles.{first_author, first_token};
ghost use Rattle.chronicle.specs.Prefixes.{AreLegalLogs, AreOpeningLogs, ArePrefixes, AreWholeLogs};
ghost use Rattle.chronicle.specs.Prefixes.{logs_of, longer_of};
ghost use Rattle.chronicle.specs.Rule.{IsWhole};
ghost use Rattle.chronicle.specs.Steps.{began, but_first, first_of, joined, lent, named};
ghost use Rattle.chronicle.specs.Steps.{naming_next, noted, seated, starting, without_makers};

use crate::authors::Author;
use crate::rows::Past;
use crate::rule::{Begin, FirstLog, Hear, Lends, Look, Meets, Names, Notes, Order, Start};
use crate::tokens::Token;
use crate::view::View;
use atomic_table::{Seat, Table};
use pblk_model::Shows;
use std::alloc::{AllocError, Global};
use std::marker::{Brand, Model};

/// The logs of a mount, one for the engine and one for each unit, to be shared by any number of
/// threads. They only grow.
///
/// Contracts alone see the logs. Of each there is one word, which counts the events that were
/// appended to it.
#[derive(Drop)]
pub struct Chronicle {
    pub(crate) table: Table<(), View, usize, Order, Global>,
}

// Contracts see which chronicle it is, and how many words it has.
impl Model for Chronicle {
    ghost use Rattle.atomic_table.specs.Seated.{TableId};

    ghost Value = { TableId };

    ghost view = { λ c. c.table.shared.table_id };
}

// A word for each log. Nothing was appended yet.
fn first_words(alloc: Global, count: usize) -> Result<Vec<u64>, AllocError>
    ensures { IfOk result (λ words. words.items ≡ replicate count 0) }
{
    Ok(vec![in alloc; 0u64; count]?)
}

impl Chronicle {
    /// A chronicle for so many units. The value shows the image and the logs so far, and these are
    /// the logs of a legal world over that image. Each command in them says how many its worker had
    /// made before it, and was made by the opening. The authors stand in the order of their
    /// numbers, the engine's first. Each author knows all of these logs, and so does the token,
    /// which alone names workers, from 0 on.
    ///
    /// Fails only where there isn't as much memory. No later call takes any.
    pub fn new<S: Shows<Event = Past>>(
        alloc: Global,
        units: u32,
        begun: &S,
    ) -> Result<(Chronicle, Vec<Author>, Token), AllocError>
        requires units { units ≡ units_of (S.shown begun.now).image.shape }
        requires opening { AreOpeningLogs (S.shown begun.now).image (S.shown begun.now).logs }
        ensures words { IfOk result (λ r. r.0.words ≡ units + 1) }
        ensures authors { IfOk result (λ r. r.1.items
            ≡ map (first_author r.0 (S.shown begun.now)) (range_with_len 0 (units + 1))) }
        ensures token { IfOk result (λ r. r.2 ≡ first_token r.0 (S.shown begun.now)) }
    {
        let count = units as usize + 1;
        let (chronicle, mut seat) = Chronicle::begin::<S, Brand>(alloc, count, begun)?;
        let mut authors = Vec::new(alloc);
        for number in 0..count {
            authors.push(Author {
                seat: chronicle.part(&mut seat),
                number,
                appended: 0,
            })?;
        }
        Ok((chronicle, authors, Token { seat }))
    }

    // The words, and their first seat, which gets the image and the logs so far.
    fn begin<S, B: Start>(
        alloc: Global,
        count: usize,
        _begun: &S,
    ) -> Result<(Chronicle, Seat<(), View>), AllocError>
        requires some { 0 < count }
        requires count { count ≡ units_of B.past.image.shape + 1 }
        requires opening { AreOpeningLogs B.past.image B.past.logs }
        ensures of { IfOk result (λ r. r.1.table_id ≡ r.0) }
        ensures words { IfOk result (λ r. r.0.words ≡ count) }
        ensures seat { IfOk result (λ r. r.1.me ≡ (began (starting count) B.past, [])) }
    {
        let words = first_words(alloc, count)?;
        let (table, mut seat) = Table::of_words(alloc, words.as_slice(), &count)?;
        table.shared.store::<Begin<B>>(&mut seat, 0, 0);
        Ok((Chronicle { table }, seat))
    }

    // A seat for the author of the first log that the seat owns, and knows.
    fn part(&self, seat: &mut Seat<(), View>) -> Seat<(), View>
        requires of { seat.old.table_id ≡ self.now }
        requires words { 0 < self.now.words }
        requires owned { (number count : ℕ) × (seat.old.me.0.mine.owned
            ≡ range_with_len number (count + 1)) }
        ensures of { seat.new.table_id ≡ seat.old.table_id }
        ensures kept { seat.new.me ≡ (but_first seat.old.me.0, seat.old.me.1) }
        ensures new_of { result.table_id ≡ seat.old.table_id }
        ensures new { result.me ≡ (first_of seat.old.me.0, []) }
    {
        self.table.shared.split_seat::<FirstLog>(seat)
    }

    // A seat that owns no log, numbers no commands, and knows as much.
    pub(crate) fn note(&self, seat: &mut Seat<(), View>) -> Seat<(), View>
        requires of { seat.old.table_id ≡ self.now }
        requires words { 0 < self.now.words }
        requires begun { seat.old.me.0.fresh ≡ false }
        ensures of { seat.new.table_id ≡ seat.old.table_id }
        ensures same { seat.new.me ≡ seat.old.me }
        ensures new_of { result.table_id ≡ seat.old.table_id }
        ensures new { result.me ≡ (noted seat.old.me.0, []) }
    {
        self.table.shared.split_seat::<Notes>(seat)
    }

    // A seat that numbers the commands which the seat numbered, and knows as much.
    pub(crate) fn lend(&self, seat: &mut Seat<(), View>) -> Seat<(), View>
        requires of { seat.old.table_id ≡ self.now }
        requires words { 0 < self.now.words }
        requires begun { seat.old.me.0.fresh ≡ false }
        ensures of { seat.new.table_id ≡ seat.old.table_id }
        ensures kept { seat.new.me ≡ (without_makers seat.old.me.0, seat.old.me.1) }
        ensures new_of { result.table_id ≡ seat.old.table_id }
        ensures new { result.me ≡ (lent seat.old.me.0, []) }
    {
        self.table.shared.split_seat::<Lends>(seat)
    }

    // A seat that numbers the commands of the next new worker, and knows as much.
    pub(crate) fn name(&self, seat: &mut Seat<(), View>) -> Seat<(), View>
        requires of { seat.old.table_id ≡ self.now }
        requires words { 0 < self.now.words }
        requires begun { seat.old.me.0.fresh ≡ false }
        requires spare { (n : ℕ) × (seat.old.me.0.mine.spare ≡ Some n) × (n < 2 ^ 64) }
        ensures of { seat.new.table_id ≡ seat.old.table_id }
        ensures kept { seat.new.me ≡ (naming_next seat.old.me.0, seat.old.me.1) }
        ensures new_of { result.table_id ≡ seat.old.table_id }
        ensures new { result.me ≡ (named seat.old.me.0, []) }
    {
        self.table.shared.split_seat::<Names>(seat)
    }

    // Takes another seat in, with what it owns and knows.
    pub(crate) fn hear(&self, seat: &mut Seat<(), View>, other: Seat<(), View>)
        requires of { seat.old.table_id ≡ self.now }
        requires other_of { other.table_id ≡ self.now }
        requires words { 0 < self.now.words }
        requires known { 0 < length seat.old.me.0.mine.known }
        requires other_known { 0 < length other.me.0.mine.known }
        requires other_rests { other.me.1 ≡ [] }
        ensures of { seat.new.table_id ≡ seat.old.table_id }
        ensures heard { seat.new.me
            ≡ (seated (joined seat.old.me.0.mine other.me.0.mine), seat.old.me.1) }
        ensures past { other.me.0.mine.past ≡ seat.old.me.0.mine.past }
        ensures own { (author : ℕ) → Contains seat.old.me.0.mine.owned author
            → IsPrefix (logs_of other.me.0.mine.known author)
            (logs_of seat.old.me.0.mine.known author) }
        ensures other_own { (author : ℕ) → Contains other.me.0.mine.owned author
            → IsPrefix (logs_of seat.old.me.0.mine.known author)
            (logs_of other.me.0.mine.known author) }
        ensures keeps { let mine = seat.old.me.0.mine.known in
            ArePrefixes mine (longer_of mine other.me.0.mine.known) }
        ensures learns { let heard = other.me.0.mine.known in
            ArePrefixes heard (longer_of seat.old.me.0.mine.known heard) }
        ensures legal { let mine = seat.old.me.0.mine in
            AreLegalLogs mine.past.image (longer_of mine.known other.me.0.mine.known) }
    {
        let shared = &self.table.shared;
        shared.join_seat::<Meets>(seat, other);
        shared.load::<Hear>(seat, 0);
    }

    // What a seat is told that owns all logs.
    fn look(&self, seat: &mut Seat<(), View>)
        requires of { seat.old.table_id ≡ self.now }
        requires words { 0 < self.now.words }
        requires begun { seat.old.me.0.fresh ≡ false }
        requires known { 0 < length seat.old.me.0.mine.known }
        ensures whole { IsWhole seat.old.me.0.mine }
    {
        self.table.shared.load::<Look>(seat, 0);
    }

    /// Ends the chronicle, with an author that has joined all the others. What it knows are all
    /// logs whole, and they are those of a legal world, in which each command says how many its
    /// worker had made before it. A worker whose commands the author numbers then made just as many
    /// as the maker of its next command tells, and none was made by one that could still be named.
    /// The opening made none but those with which the chronicle began.
    pub fn close(self, author: Author)
        requires of { author.chronicle ≡ self }
        requires all { (number : ℕ) → number ≤ units_of author.past.image.shape
            → Contains author.owned number }
        ensures legal { AreLegalLogs author.past.image author.known }
        ensures begun { ArePrefixes author.past.logs author.known }
        ensures whole { AreWholeLogs author.past author.known author.makers author.spare }
    {
        let Author {
            mut seat,
            number: _,
            appended: _,
        } = author;
        self.look(&mut seat);
    }
}
