//! What recovery by scanning finds on an image (Bjørling, González, Bonnet, FAST 2017, recovery).

ghost use Rattle.std.specs.Prelude.{◌≡◌, [], ◌∷◌, ◌++◌, OnOk, OnErr};

use crate::chunk::ChunkState;
use std::alloc::{AllocError, Global};
use std::marker::Model;

/// A list of values that owns them. Contracts see the list.
#[derive(Debug, Drop)]
pub struct Items<T> {
    list: Vec<T>,
}

impl<T> Model for Items<T> {
    ghost use Rattle.std.specs.Prelude.{List};

    ghost Value = { List T };

    ghost view = { λ a. a.list.items };
}

impl<T> Items<T> {
    /// The empty list.
    pub fn new(alloc: Global) -> Items<T>
        ensures { result ≡ [] }
    {
        Items {
            list: Vec::new(alloc),
        }
    }

    /// The list of a vector's values. It takes no memory.
    pub fn from_vec(list: Vec<T>) -> Items<T>
        ensures { result ≡ list.items }
    {
        Items { list }
    }

    /// The values, as a vector. It takes no memory.
    pub fn into_vec(self) -> Vec<T>
        ensures { result.items ≡ self }
    {
        self.list
    }

    /// The values, in their order.
    pub fn as_slice(&self) -> &[T]
        ensures { result.now ≡ self.now }
    {
        self.list.as_slice()
    }
}

impl<T: Drop> Items<T> {
    /// Adds a value at the end. After want of memory the list is as it was.
    pub fn push(&mut self, value: T) -> Result<(), AllocError>
        ensures ok { OnOk result (self.new ≡ self.old ++ value ∷ []) }
        ensures err { OnErr result (self.new ≡ self.old) }
    {
        self.list.push(value)?;
        Ok(())
    }
}

/// The winning record of a sector: the newest of its records that count.
#[derive(Clone, Copy, Debug, PartialEq, Eq)]
pub struct Winner {
    /// The sector, below the capacity.
    pub lba: u64,
    pub position: u64,
    /// The line in which it is written.
    pub line: u32,
    /// The line address of its block.
    pub at: u32,
}

/// What is found of a line.
#[derive(Clone, Copy, Debug, PartialEq, Eq)]
pub struct LineRow {
    /// The line's sequence number, where its start record is whole.
    pub seq: Option<u64>,
    /// The bound of the row for this line and sequence number in the head, and 0 where there is none.
    pub bound: u64,
    /// One past the greatest position of the line's records that count, and 0 where it has none.
    pub top: u64,
    /// Whether the line's end record is whole.
    pub full: bool,
    /// Whether the line's sequence number is at least the head's first one.
    pub young: bool,
}

/// What recovery by scanning finds on an image: the newest counted record of each sector, and where the
/// next mount begins (Bjørling, González, Bonnet, FAST 2017, recovery).
#[derive(Debug, Drop)]
pub struct Found {
    /// The winning records, by rising lba.
    pub winners: Items<Winner>,
    /// The line of the head: the whole start record of the greatest sequence number.
    pub head: Option<u32>,
    /// The head's front, and 0 without a head.
    pub front: u64,
    /// The least position from the head's front on that no record bears, and 0 without a head.
    pub end: u64,
    /// The lines without a sequence number that have a chunk neither Free nor Offline, rising.
    pub strays: Items<u32>,
    /// Each chunk's state, by unit, then by chunk, with Open taken as Closed.
    pub chunks: Items<ChunkState>,
    /// A row for each line, by its number.
    pub lines: Items<LineRow>,
}
