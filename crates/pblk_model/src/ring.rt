//! What a write ring's contracts speak of. No value of it is ever made.

/// Positions of a write ring that one step claimed: `count` of them, from `first` on.
pub struct Claim {
    /// The first of them.
    pub first: u64,
    /// How many they are.
    pub count: u64,
    /// Whether they were claimed for copies.
    pub copy: bool,
}
