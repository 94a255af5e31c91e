//! A pool of sector frames: one region of memory, cut into ranges of one size that move by value.
//!
//! A range is either left in the pool or out as exactly one frame. All memory is taken when a pool
//! is made; to take a frame or to give it back costs a few words, however many there are.
#![tactic(auto)]

mod entry;
mod frame;
pub mod laws;
mod memory;
mod pool;

pub use entry::{Class, Entry, Source};
pub use frame::Frame;
pub use memory::Origin;
pub use pool::Pool;
