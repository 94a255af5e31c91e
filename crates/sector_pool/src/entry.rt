//! Entries: sectors on their way from a writer to the drive (Bjørling, González, Bonnet, FAST 2017,
//! write buffering).

use crate::Frame;

/// Who claimed a position.
#[derive(Clone, Copy, Debug, PartialEq, Eq, Drop)]
pub enum Class {
    /// A user's write.
    User,
    /// A copy that the collector makes of a live sector.
    Copy,
}

/// The block from which a copy was made.
#[derive(Clone, Copy, Debug, PartialEq, Eq, Drop)]
pub struct Source {
    /// Its line.
    pub line: u32,
    /// Its line address there, in blocks.
    pub at: u32,
    /// The position that its mark names.
    pub position: u64,
}

/// A sector with its position. Like its frame it can't be dropped or copied.
pub struct Entry {
    /// Its place in the order of claims.
    pub position: u64,
    /// Who claimed it.
    pub class: Class,
    /// Which sector of the target's capacity it is.
    pub lba: u64,
    /// None for a user's write.
    pub source: Option<Source>,
    /// Its bytes.
    pub frame: Frame,
}
