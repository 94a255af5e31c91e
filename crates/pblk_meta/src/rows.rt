//! The rows of a start record.

ghost use Rattle.std.specs.Prelude.{◌≡◌, ◌+◌, ◌<◌, ◌≤◌, [], ◌∷◌, ◌++◌, length, take, drop, OnOk, OnErr};
ghost use Rattle.std.specs.Str.{bytes_eq};
ghost use Rattle.pblk_model.specs.StartRecord.{row_bytes};
ghost use Rattle.pblk_meta.specs.Records.{row_numbers, row_in};

use crate::bytes::{are_zeros, put_u32, put_u64, put_zeros, u32_at, u64_at};
use std::alloc::{AllocError, Global};
use std::marker::Model;

/// A line of an older mount: its number, its sequence number, and the position below which its
/// records count.
#[derive(Clone, Copy, Debug, PartialEq, Eq)]
pub struct Row {
    pub line: u32,
    pub seq: u64,
    pub bound: u64,
}

/// The rows of a start record. Contracts see their list.
#[derive(Debug, Drop)]
pub struct Rows {
    list: Vec<Row>,
}

impl Model for Rows {
    ghost use Rattle.std.specs.Prelude.{List};
    ghost use Rattle.pblk_meta.specs.declared.rows.Row.{Row};

    ghost Value = { List Row };

    ghost view = { λ a. a.list.items };
}

impl Rows {
    /// No rows.
    pub fn new(alloc: Global) -> Rows
        ensures { result ≡ [] }
    {
        Rows {
            list: Vec::new(alloc),
        }
    }

    /// Adds a row at the end. After want of memory the rows are as they were.
    pub fn push(&mut self, row: Row) -> Result<(), AllocError>
        ensures ok { OnOk result (self.new ≡ self.old ++ row ∷ []) }
        ensures err { OnErr result (self.new ≡ self.old) }
    {
        self.list.push(row)?;
        Ok(())
    }

    /// Takes out the row at an index, which is below the number of rows. The others keep their
    /// order. It takes no memory.
    pub fn remove(&mut self, index: usize)
        requires { index < length self.old }
        ensures { self.new ≡ take index self.old ++ drop (index + 1) self.old }
    {
        self.list.remove(index);
    }

    /// The rows in their order.
    pub fn as_slice(&self) -> &[Row]
        ensures { result.now ≡ self.now }
    {
        self.list.as_slice()
    }
}

impl Row {
    /// The row whose numbers stand at the places of the first 24 bytes.
    pub(crate) fn in_bytes(bytes: &[u8]) -> Row
        requires { 24 ≤ length bytes.now }
        ensures { row_numbers result ≡ row_in bytes.now }
    {
        Row {
            line: u32_at(bytes, 0),
            seq: u64_at(bytes, 8),
            bound: u64_at(bytes, 16),
        }
    }

    /// Whether the first 24 bytes are the spelling of the row that stands in them.
    pub(crate) fn is_spelled(bytes: &[u8]) -> bool
        requires { 24 ≤ length bytes.now }
        ensures { result ≡ bytes_eq (row_bytes (row_in bytes.now)) (take 24 bytes.now) }
    {
        are_zeros(&bytes[4..8])
    }

    /// Writes the row's spelling to the 24 bytes from a place on.
    pub(crate) fn write(&self, out: &mut [u8], at: usize)
        requires { at + 24 ≤ length out.old }
        ensures placed { take (at + 24) out.new
            ≡ take at out.old ++ row_bytes (row_numbers self.now) }
        ensures len { length out.new ≡ length out.old }
    {
        put_u32(out, at, self.line);
        put_zeros(out, at + 4, at + 8);
        put_u64(out, at + 8, self.seq);
        put_u64(out, at + 16, self.bound);
    }
}
