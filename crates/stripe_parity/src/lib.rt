//! Parity against the loss of a unit: for each chunk number the exclusive ors of the blocks that
//! the units have written there, and of each chunk its state and its write pointer (the exclusive
//! or over units is that of RAID level 4; what is kept beside it is this project's).
//!
//! `make` gives the parity of a drive without Open chunks. `Parity::block` makes a block of a lost
//! unit anew from it and from the other units, and `rebuild` all chunks of the unit in a drive. A
//! law, `rebuilt_blocks_are_the_lost_ones`, says why that is what was lost.
#![tactic(auto)]

mod adding;
mod differing;
mod drives;
mod error;
mod keeping;
mod kept;
mod law;
mod making;
mod parity;
mod reading;
mod rebuilding;
mod writing;
mod xoring;

pub use drives::{make_for, pad_drive};
pub use error::ParityErr;
pub use kept::KeptChunk;
pub use law::rebuilt_blocks_are_the_lost_ones;
pub use parity::{Parity, make};
pub use pblk_model::{ChunkState, Mark, Shape};
pub use rebuilding::rebuild;
