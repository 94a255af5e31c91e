//! What an engine's calls did.

use pblk_core::Why;
use pblk_model::Front;

/// Which work a pump does.
#[derive(Clone, Copy, Debug, PartialEq, Eq)]
pub enum Role {
    /// All that there is.
    All,
    /// All but copies.
    Lane,
    /// Copies alone.
    Collector,
}

/// What a pump did.
#[derive(Clone, Copy, Debug, PartialEq, Eq)]
pub enum Did {
    /// It had a stripe programmed, and the program was done.
    Programmed,
    /// It had a stripe programmed on this unit, and the program failed. The entries of the stripe
    /// wait again.
    Lost(u32),
    /// It had a chunk reset. The reset was done, or failed.
    Reset,
    /// It copied a sector: the copy was put into the write ring, and taken from there.
    Copied,
    /// A sector is to be copied, and no copy of it was taken. The write ring had no room for it, or
    /// another claim came first. Or the copy is in the ring, and an entry before it isn't filled
    /// yet.
    NotCopied,
    /// It opened a line.
    Opened,
    /// There is work, and none of it is for this role.
    Other,
    /// There was nothing to do at its look, and this is why.
    Nothing(Why),
}

/// What a look of a flush found.
#[derive(Clone, Copy, Debug, PartialEq, Eq)]
pub enum Flushed {
    /// All below the position is on the drive. This is the synced front.
    Synced(Front),
    /// Not all of it was on the drive yet, and this was done.
    Pumped(Did),
}

/// What a look for room found.
#[derive(Clone, Copy, Debug, PartialEq, Eq)]
pub enum Roomed {
    /// So much is granted.
    There,
    /// It wasn't granted yet, and this was done.
    Pumped(Did),
}
