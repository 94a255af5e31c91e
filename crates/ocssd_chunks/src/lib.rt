//! Chunks of a drive in memory: what is written is appended, and stays in order until the chunk is
//! reset (Open-Channel SSD Specification 2.0, Chunk states and write pointer).
//!
//! Contracts see a chunk as the model's chunk, with the shape of its drive.
#![tactic(auto)]

mod blocks;
mod chunk;
mod descriptor;
mod rules;

pub use blocks::{are_blocks, has_sectors};
pub use chunk::Chunk;
pub use descriptor::{Descriptor, read_descriptor};
pub use pblk_model::{ChunkErr, ChunkState, DescriptorErr, Got, Mark, Shape};
