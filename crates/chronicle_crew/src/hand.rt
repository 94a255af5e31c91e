//! What one thread has, and does.
ghost use Rattle.std.specs.Prelude.{◌≡◌, ◌+◌, ◌<◌, ◌^◌};
ghost use Rattle.chronicle_crew.specs.Ready.{IsHand};

use crate::board::{Board, Which};
use crate::shown::StoppedFetch;
use chronicle::{Author, Chronicle, Token};
use std::sync::{Mutex, Wait};

/// The author of a unit's log, and how many events it has appended; the worker that makes the
/// unit's commands; and a token beside it.
#[derive(Drop)]
pub(crate) struct Hand {
    /// The author.
    pub(crate) author: Author,
    /// The token.
    pub(crate) token: Token,
    /// The number of the worker.
    pub(crate) worker: u64,
    /// How many events it has appended.
    pub(crate) count: u32,
}

/// Whom an author tells what it knows once it has appended an event.
#[derive(Clone, Copy, Debug, PartialEq, Eq)]
pub enum Meets {
    /// Nobody.
    Nobody,
    /// The token beside it.
    Own,
    /// The token on the board, after every eighth event. The author learns what that token knows,
    /// too.
    Board,
}

// Appends one event.
fn append(chronicle: &Chronicle, hand: &mut Hand)
    requires hand { IsHand chronicle.now hand.old }
    requires room { hand.old.count + 1 < 2 ^ 32 }
    ensures hand { IsHand chronicle.now hand.new }
    ensures number { hand.new.author.number ≡ hand.old.author.number }
    ensures count { hand.new.count ≡ hand.old.count + 1 }
{
    let made = u64::from(hand.count);
    let worker = hand.worker;
    hand.author
        .append(chronicle, &StoppedFetch { worker, made });
    hand.count += 1;
}

// The token beside an author learns what it knows.
fn tell(chronicle: &Chronicle, hand: &mut Hand)
    requires hand { IsHand chronicle.now hand.old }
    ensures hand { IsHand chronicle.now hand.new }
    ensures number { hand.new.author.number ≡ hand.old.author.number }
    ensures count { hand.new.count ≡ hand.old.count }
{
    let note = hand.author.note(chronicle);
    hand.token.meet(chronicle, note);
}

// What an author does after an event of this number, counted from 0.
fn meet<M: Which + Send + Sync, R: Wait>(
    rt: &R,
    chronicle: &Chronicle,
    board: &Mutex<Board<M>>,
    hand: &mut Hand,
    meets: Meets,
    turn: u32,
)
    requires of { chronicle.now ≡ M.chronicle }
    requires hand { IsHand chronicle.now hand.old }
    ensures hand { IsHand chronicle.now hand.new }
    ensures number { hand.new.author.number ≡ hand.old.author.number }
    ensures count { hand.new.count ≡ hand.old.count }
{
    match meets {
        Meets::Nobody => {}
        Meets::Own => tell(chronicle, hand),
        Meets::Board => {
            if turn % 8 == 7 {
                board.lock(rt).meet(chronicle, hand);
            }
        }
    }
}

/// Appends so many events.
pub(crate) fn work<M: Which + Send + Sync, R: Wait>(
    rt: &R,
    chronicle: &Chronicle,
    board: &Mutex<Board<M>>,
    hand: &mut Hand,
    meets: Meets,
    turns: u32,
)
    requires of { chronicle.now ≡ M.chronicle }
    requires hand { IsHand chronicle.now hand.old }
    requires first { hand.old.count ≡ 0 }
    ensures hand { IsHand chronicle.now hand.new }
    ensures number { hand.new.author.number ≡ hand.old.author.number }
    ensures count { hand.new.count ≡ turns }
{
    for turn in 0..turns {
        append(chronicle, hand);
        meet(rt, chronicle, board, hand, meets, turn);
    }
}
