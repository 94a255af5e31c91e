//! Authors of one chronicle at once, and what they have appended together.
ghost use Rattle.std.specs.Prelude.{◌≡◌, ◌+◌, ◌<◌, ◌≤◌, ◌∷◌, [], length, Some};
ghost use Rattle.std.specs.Thread.{IsSync};
ghost use Rattle.chronicle.specs.Handles.{first_author};
ghost use Rattle.chronicle_crew.specs.Ready.{AreFirst, HaveAppended, IsHand, blank_past};

use crate::board::{Board, Which};
use crate::hand::{Hand, Meets, work};
use crate::shown::{Blank, UNITS};
use chronicle::{Author, Chronicle, Token};
use std::alloc::{AllocError, Global};
use std::marker::Brand;
use std::sync::{Mutex, Wait};
use std::thread::{Threads, join};

// The author that has joined all the others, and how many events they had appended, modulo 2^64.
#[derive(Drop)]
struct Joined {
    author: Author,
    count: u64,
}

/// What the authors of units are to do, each in a thread of its own.
#[derive(Clone, Copy, Debug)]
pub struct Job {
    /// How many of them there are, 8 at most.
    pub authors: u32,
    /// How many events each of them appends.
    pub turns: u32,
    /// Whom it tells what it knows.
    pub meets: Meets,
}

// So many of the first authors.
fn few(chronicle: &Chronicle, authors: Vec<Author>, count: usize) -> Vec<Author>
    requires authors { AreFirst chronicle.now authors.items }
    requires enough { count ≤ length authors.items }
    ensures authors { AreFirst chronicle.now result.items }
    ensures count { length result.items ≡ count }
{
    let mut authors = authors;
    authors.truncate(count);
    authors
}

// The last of the first authors.
fn last(chronicle: &Chronicle, authors: &mut Vec<Author>) -> Author
    requires some { 0 < length authors.old.items }
    requires authors { AreFirst chronicle.now authors.old.items }
    ensures author { result
        ≡ first_author chronicle.now blank_past (length authors.new.items) }
    ensures fewer { length authors.old.items ≡ length authors.new.items + 1 }
    ensures authors { AreFirst chronicle.now authors.new.items }
{
    authors.pop().unwrap()
}

// The engine's author, where it is the only one.
fn alone(chronicle: &Chronicle, author: Author, turns: u32) -> Joined
    requires author { author ≡ first_author chronicle.now blank_past 0 }
    ensures joined { HaveAppended chronicle.now 1 turns result.author }
{
    Joined { author, count: 0 }
}

// The author of a unit, which has appended nothing yet, and the worker that the token has the right
// to number commands of.
fn idle(chronicle: &Chronicle, author: Author, token: Token, worker: u64, number: usize) -> Hand
    requires author { author ≡ first_author chronicle.now blank_past number }
    requires token { token.chronicle ≡ chronicle.now }
    requires makers { token.makers ≡ record { worker = worker; made = 0 } ∷ [] }
    requires unit { 0 < number }
    requires within { number ≤ 8 }
    ensures hand { IsHand chronicle.now result }
    ensures number { result.author.number ≡ number }
    ensures count { result.count ≡ 0 }
{
    let mut author = author;
    let mut token = token;
    let lent = token.lend(chronicle);
    author.take_over(chronicle, lent);
    Hand {
        author,
        token,
        worker,
        count: 0,
    }
}

// The author of the next log is joined too.
fn join_next(chronicle: &Chronicle, others: Joined, hand: Hand, number: usize) -> Joined
    requires others { HaveAppended chronicle.now number hand.count others.author }
    requires hand { IsHand chronicle.now hand }
    requires number { hand.author.number ≡ number }
    ensures joined { HaveAppended chronicle.now (number + 1) hand.count result.author }
{
    let Hand {
        author: next,
        token: _,
        worker: _,
        count: more,
    } = hand;
    let Joined { author, count } = others;
    let mut author = author;
    author.join(chronicle, next);
    Joined {
        author,
        count: count.wrapping_add(u64::from(more)),
    }
}

// Each author but the engine's does its work in a thread of its own. Then the engine's author joins
// the others.
fn crew<M: Which + Send + Sync, R: Threads + Wait + Sync>(
    rt: &R,
    chronicle: &Chronicle,
    board: &Mutex<Board<M>>,
    authors: Vec<Author>,
    token: Token,
    worker: u64,
    job: Job,
) -> Joined
    requires of { chronicle.now ≡ M.chronicle }
    requires token { token.chronicle ≡ chronicle.now }
    requires spare { token.spare ≡ Some worker }
    requires named { worker + length authors.items ≤ 9 }
    requires some { 0 < length authors.items }
    requires few { length authors.items ≤ 9 }
    requires authors { AreFirst chronicle.now authors.items }
    ensures joined { HaveAppended chronicle.now (length authors.items) job.turns result.author }
{
    let mut authors = authors;
    let author = last(chronicle, &mut authors);
    let number = authors.len();
    if number == 0 {
        return alone(chronicle, author, job.turns);
    }
    let mut token = token;
    let own = token.name_worker(chronicle);
    let mut hand = idle(chronicle, author, own, worker, number);
    let (hand, others) = join(
        rt,
        || -> Hand
            requires { IsSync R.row × (chronicle.now ≡ M.chronicle) × IsHand chronicle.now hand
                × (hand.count ≡ 0) }
            ensures { IsHand chronicle.entry.now result
                × (result.author.number ≡ hand.author.number) × (result.count ≡ job.turns) }
        {
            work(rt, chronicle, board, &mut hand, job.meets, job.turns);
            hand
        },
        || -> Joined
            requires { IsSync R.row × (chronicle.now ≡ M.chronicle)
                × (token.chronicle ≡ chronicle.now) × (token.spare ≡ Some (worker + 1))
                × (worker + 1 + length authors.items ≤ 9) × (0 < length authors.items)
                × (length authors.items ≤ 9) × AreFirst chronicle.now authors.items }
            ensures { HaveAppended chronicle.entry.now (length authors.items) job.turns
                result.author }
        { crew(rt, chronicle, board, authors, token, worker + 1, job) },
    );
    join_next(chronicle, others, hand, number)
}

// Ends the chronicle.
fn close(chronicle: Chronicle, author: Author, turns: u32)
    requires all { HaveAppended chronicle 9 turns author }
{
    chronicle.close(author);
}

// Does a job with the authors and the token with which a chronicle begins.
fn run_with<M: Which + Send + Sync, R: Threads + Wait + Sync>(
    rt: &R,
    chronicle: Chronicle,
    authors: Vec<Author>,
    token: Token,
    job: Job,
) -> u64
    requires of { chronicle ≡ M.chronicle }
    requires token { token.chronicle ≡ chronicle }
    requires spare { token.spare ≡ Some 0 }
    requires all { length authors.items ≡ 9 }
    requires authors { AreFirst chronicle authors.items }
    requires few { job.authors ≤ 8 }
{
    let mut token = token;
    let shared = token.split(&chronicle);
    let board = Mutex::new(Board::<M>::new(shared));
    let authors = few(&chronicle, authors, job.authors as usize + 1);
    let Joined { author, count } = crew(rt, &chronicle, &board, authors, token, 0, job);
    if job.authors == UNITS {
        close(chronicle, author, job.turns);
    }
    count
}

/// Begins a chronicle over a blank drive of eight units, and does the job. Then the engine's author
/// joins all that took part, and closes the chronicle where these are all. Tells how many events
/// were appended.
pub fn run<R: Threads + Wait + Sync>(rt: &R, alloc: Global, job: Job) -> Result<u64, AllocError>
    requires few { job.authors ≤ 8 }
{
    let (chronicle, authors, token) = Chronicle::new(alloc, UNITS, &Blank)?;
    Ok(run_with::<Brand, R>(rt, chronicle, authors, token, job))
}
