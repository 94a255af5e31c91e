//! What a port answers.

/// Where a write stands in the order of all writes: its first position, and how many it has.
#[derive(Clone, Copy, Debug, PartialEq, Eq)]
pub struct Place {
    pub first: u64,
    pub count: u32,
}

/// Sequence numbers of lines and positions of fronts in start records are below this, `2^61`. A start record with a
/// greater number isn't whole.
pub const NUMBER_LIMIT: u64 = 1 << 61;

/// A front: all positions below `position`, which hold the first `users` lines of the history.
#[derive(Clone, Copy, Debug, PartialEq, Eq)]
pub struct Front {
    pub users: u64,
    pub position: u64,
}
