//! What a seat knows. No value of it is ever made: it is there in contracts alone.

/// What a seat has of the slots, whose numbers begin with 0. The place `p` has the slot `p + 1`.
pub struct View {
    /// All slots below this one are the seat's, and nothing lies in them.
    pub below: u64,
    /// The slot that is out with it, where one is.
    pub held: Option<u64>,
}
