//! What a parity keeps of a chunk.

use pblk_model::ChunkState;

/// What a parity keeps of a chunk: its state, and its write pointer, from 0 to CLBA (Open-Channel
/// SSD Specification 2.0, Chunk states and write pointer).
#[derive(Clone, Copy, Debug, PartialEq, Eq)]
pub struct KeptChunk {
    pub state: ChunkState,
    pub pointer: u32,
}
