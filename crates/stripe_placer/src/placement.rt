//! What is placed where.

/// What the blocks of a stripe hold.
#[derive(Clone, Copy, Debug, PartialEq, Eq)]
pub enum StripeKind {
    /// A part of the line's start record.
    Start,
    /// Entries, and Pad blocks behind them where they are fewer than a stripe holds.
    Data,
    /// Pad blocks alone, in a line of which a stripe was lost.
    Pad,
    /// A part of the line's end record.
    End,
}

/// The place of a stripe, and what it holds: WS_OPT consecutive blocks of one chunk, which one
/// program writes (Open-Channel SSD Specification 2.0, Geometry).
///
/// Once the stripe is placed, [`crate::Placer::positions`] gives the positions of its entries.
#[derive(Clone, Copy, Debug, PartialEq, Eq)]
pub struct Placement {
    /// The line.
    pub line: u32,
    /// The line address of its first block.
    pub at: u32,
    /// The parallel unit in whose chunk it lies.
    pub unit: u32,
    /// The number of its first block in that chunk.
    pub block: u32,
    /// What its blocks hold.
    pub kind: StripeKind,
    /// How many entries it holds, at most WS_OPT. Only a data stripe holds any.
    pub count: u32,
}
