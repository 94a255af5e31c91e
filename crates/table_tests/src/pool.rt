//! Tests of `sector_pool`: pools, frames, and frames in several threads.

mod frames;
mod harness;
mod pools;
mod threads;
