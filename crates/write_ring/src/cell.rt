//! What a slot holds.

use sector_pool::{Entry, Frame};

/// What a slot holds. Like the frames it can't be dropped or copied.
pub enum Cell {
    /// A frame that waits for a writer.
    Free(Frame),
    /// The entry of a position that was put and isn't taken yet.
    Filled(Entry),
    /// Nothing: the entry was taken, and no frame has come back yet.
    Empty,
}
