//! Chunks as a host sees them (Open-Channel SSD Specification 2.0, Chunk states and write pointer).

use thiserror::Error;

/// What stands beside a block's sector: the sector's logical address, and its position.
///
/// Three addresses name no sector: [`Mark::PAD_LBA`], [`Mark::VOID_LBA`] and [`Mark::META_LBA`]
/// (Bjørling, González, Bonnet, FAST 2017: addresses are kept beside the sectors).
#[derive(Clone, Copy, Debug, PartialEq, Eq)]
pub struct Mark {
    pub lba: u64,
    pub position: u64,
}

impl Mark {
    /// The address of a block that only fills up a stripe, `2^64 - 1`. Its position is 0.
    pub const PAD_LBA: u64 = u64::MAX;

    /// The address of a copy that had become stale before it was written, `2^64 - 2`. Its position bears no sector.
    pub const VOID_LBA: u64 = u64::MAX - 1;

    /// The address of a block of a line's start or end record, `2^64 - 3`. Its position is the line's sequence number.
    pub const META_LBA: u64 = u64::MAX - 2;

    /// The mark of a block that only fills up a stripe.
    pub const PAD: Mark = Mark {
        lba: Mark::PAD_LBA,
        position: 0,
    };
}

/// The state of a chunk.
#[derive(Clone, Copy, Debug, PartialEq, Eq)]
pub enum ChunkState {
    Free,
    Open,
    Closed,
    Offline,
}

/// What a read of a block gave.
#[derive(Clone, Copy, Debug, PartialEq, Eq)]
pub enum Got {
    /// The block was readable, and this is its mark.
    Sector(Mark),
    /// The block isn't readable yet.
    Empty,
}

/// Why a chunk refuses a command. After a refusal the chunk is as it was.
#[derive(Clone, Copy, Debug, PartialEq, Eq, Error)]
pub enum ChunkErr {
    /// A write that doesn't begin at the write pointer.
    #[error("the write does not begin at the write pointer")]
    NotAtPointer,
    /// A write of no block, or not of a multiple of WS_MIN.
    #[error("the number of blocks is no positive multiple of the minimum write size")]
    NotMultiple,
    /// A write or a read past the chunk's last block.
    #[error("past the end of the chunk")]
    PastEnd,
    /// A write to or a read of an Offline chunk.
    #[error("the chunk is offline")]
    Offline,
    /// A reset of a Free or an Offline chunk.
    #[error("the chunk can't be reset")]
    NotResettable,
    /// A write to a Closed chunk.
    #[error("the chunk is closed")]
    Closed,
}

/// Why bytes are no chunk descriptor: the first reason in this order.
#[derive(Clone, Copy, Debug, PartialEq, Eq, Error)]
pub enum DescriptorErr {
    /// There aren't 32 bytes.
    #[error("a chunk descriptor has 32 bytes")]
    Length,
    /// The state is none of the four.
    #[error("the state is unknown")]
    State,
    /// The kind isn't that of a chunk that is written sequentially.
    #[error("the chunk is not written sequentially")]
    Kind,
    /// The write pointer can't stand there in this state.
    #[error("the write pointer does not fit the state")]
    Pointer,
}
