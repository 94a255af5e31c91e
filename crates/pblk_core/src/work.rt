//! What a core names as its next work.

/// What a target does next.
#[derive(Clone, Copy, Debug, PartialEq, Eq)]
pub enum Work {
    /// A chunk of a line that was given up is reset: the one of this unit, which is neither Free
    /// nor Offline. Both numbers count from 0.
    Reset { line: u32, unit: u32 },
    /// A stripe is placed and programmed.
    Program,
    /// A line is opened.
    Open,
    /// A sector of the victim at work is copied.
    Copy,
    /// Nothing can be done now.
    Nothing(Why),
}

/// Why nothing can be done now.
#[derive(Clone, Copy, Debug, PartialEq, Eq)]
pub enum Why {
    /// Something is in flight.
    Busy,
    /// Something waits to be placed, no open line has an address left and no line is Free. Nothing
    /// is in flight.
    NoLine,
    /// Nothing is to be made, and nothing is in flight.
    Rest,
}
