//! What the commands of a script were answered.
ghost use Rattle.std.specs.Prelude.{◌≡◌, ◌∷◌, ◌++◌, [], OnOk, OnErr};

use pblk_model::{Front, Place};
use std::alloc::{AllocError, Global};
use std::marker::Model;

/// Why a command, an opening or a close didn't do its work.
#[derive(Clone, Copy, Debug, PartialEq, Eq)]
pub enum Trouble {
    /// This event of this unit's log, from 1, was a failed fetch or a stopped command.
    Drive { unit: u32, event: u64 },
    /// `wanted` was asked for, and there is `have`.
    Worn { wanted: u64, have: u64 },
}

/// What a sector shows: its tag where it has the tag's eight little-endian bytes again and again,
/// else `Mixed`.
#[derive(Clone, Copy, Debug, PartialEq, Eq)]
pub enum Word {
    Tag(u64),
    Mixed,
}

/// The words of sectors, by rising lba. Contracts see their list.
#[derive(Debug, Drop)]
pub struct Words {
    list: Vec<Word>,
}

impl Model for Words {
    ghost use Rattle.std.specs.Prelude.{List};
    ghost use Rattle.run_threads.specs.declared.records.Word.{Word};

    ghost Value = { List Word };

    ghost view = { λ a. a.list.items };
}

impl Words {
    /// The words of a list.
    pub fn new(list: Vec<Word>) -> Words
        ensures { result ≡ list.items }
    {
        Words { list }
    }

    /// The words, in their order.
    pub fn as_slice(&self) -> &[Word]
        ensures { result.now ≡ self.now }
    {
        self.list.as_slice()
    }
}

/// What a command was answered.
#[derive(Debug, Drop)]
pub enum Answer {
    /// A write: where it stands.
    Placed(Place),
    /// A read: its front, and the words of its sectors there.
    Words { front: Front, words: Words },
    /// A flush: its front.
    Synced(Front),
    /// A post or an await.
    Done,
    /// A write or a read of sectors that aren't all below the capacity.
    Range,
    /// A write, a read or a flush that wasn't made.
    Refused(Trouble),
}

/// What the commands of a thread were answered, in their order. Contracts see their list.
#[derive(Debug, Drop)]
pub struct Answers {
    list: Vec<Answer>,
}

impl Model for Answers {
    ghost use Rattle.std.specs.Prelude.{List};
    ghost use Rattle.run_threads.specs.declared.records.Answer.{Answer};

    ghost Value = { List Answer };

    ghost view = { λ a. a.list.items };
}

impl Answers {
    /// The answers of a list.
    pub fn new(list: Vec<Answer>) -> Answers
        ensures { result ≡ list.items }
    {
        Answers { list }
    }

    /// The answers, by command.
    pub fn as_slice(&self) -> &[Answer]
        ensures { result.now ≡ self.now }
    {
        self.list.as_slice()
    }
}

/// The answers of each thread of a script, in their order, or none at all where nothing was run.
/// Contracts see their lists.
#[derive(Debug, Drop)]
pub struct ThreadRows {
    threads: Vec<Answers>,
}

impl Model for ThreadRows {
    ghost use Rattle.std.specs.Prelude.{List};
    ghost use Rattle.run_threads.specs.declared.records.Answer.{Answer};

    ghost Value = { List (List Answer) };

    ghost view = { λ a. a.threads.items };
}

impl ThreadRows {
    /// The threads of a list.
    pub fn new(threads: Vec<Answers>) -> ThreadRows
        ensures { result ≡ threads.items }
    {
        ThreadRows { threads }
    }

    /// The answers of each thread, by its number.
    pub fn as_slice(&self) -> &[Answers]
        ensures { result.now ≡ self.now }
    {
        self.threads.as_slice()
    }
}

/// What a script was answered: each command of each thread, the opening of the device and its
/// close. None is no trouble.
#[derive(Debug, Drop)]
pub struct Records {
    pub threads: ThreadRows,
    pub opening: Option<Trouble>,
    pub closing: Option<Trouble>,
}
