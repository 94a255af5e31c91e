//! Certificates.

use pblk_model::{Items, Winner};

/// What a certificate says of a line with a sequence number.
#[derive(Clone, Copy, Debug, PartialEq, Eq)]
pub struct LineEntry {
    /// The line, by number from 0.
    pub line: u32,
    /// Its sequence number.
    pub seq: u64,
    /// Whether its end record is whole.
    pub full: bool,
}

/// Where a position is borne.
#[derive(Clone, Copy, Debug, PartialEq, Eq)]
pub struct Bearer {
    pub position: u64,
    /// The line in which a record bears it.
    pub line: u32,
    /// The line address of the record's block.
    pub at: u32,
}

/// How many sectors have their newest counted record in a line.
#[derive(Clone, Copy, Debug, PartialEq, Eq)]
pub struct LiveCount {
    pub line: u32,
    pub count: u64,
}

/// A certificate: what somebody says that an image holds. Nothing is right of it before it is
/// checked.
#[derive(Debug, Drop)]
pub struct Certificate {
    /// The line of the newest start record; none where no start record is whole.
    pub head: Option<u32>,
    /// Where the positions of the head's mount end.
    pub end: u64,
    /// The lines with a sequence number, by number.
    pub lines: Items<LineEntry>,
    /// The positions from the head's front up to the end, each with a record that bears it.
    pub bears: Items<Bearer>,
    /// The sectors that have a counted record, by lba, each with its newest.
    pub wins: Items<Winner>,
    /// For each line with a sequence number how many of the newest records it has.
    pub lives: Items<LiveCount>,
}
