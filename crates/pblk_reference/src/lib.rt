//! The plain program beside the definitions of `pblk_model`: each function answers what its
//! definition says, step by step.
//!
//! It is made for comparison and for hand-made images, and not for speed.
#![tactic(auto)]

mod bytes;
mod end_record;
mod image;
mod order;
mod record;
mod recovery;
mod start;

pub use end_record::{EndRecord, end_bytes, end_of};
pub use image::{Block, Chunk, Image};
pub use order::{block_at, data_len, end_len, start_len, width};
pub use record::{Record, records};
pub use recovery::{contents, counted, end, head};
pub use start::{Row, StartRecord, start_bytes, start_of};
