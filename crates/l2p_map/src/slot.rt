//! Where a sector's latest content is.

/// Where the latest content of a user sector is.
#[derive(Clone, Copy, Debug, PartialEq, Eq)]
pub enum Slot {
    /// The sector was never written. Its content is zeros.
    Unwritten,
    /// In the write buffer, in the entry of this position.
    Cached(u64),
    /// On the drive.
    Media {
        /// The line of its block.
        line: u32,
        /// The line address of its block.
        at: u32,
        /// The position that the block's mark names.
        position: u64,
    },
}
