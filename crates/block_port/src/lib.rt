//! The port of a block device: sectors are written, read and flushed, and each answer says at which
//! front of the history of all writes it was given.
//!
//! A law says that the writes of several threads, in the order of their places, are the history.
#![tactic(auto)]

mod laws;
mod port;
mod rows;

pub use laws::writes_by_place_are_the_history;
pub use pblk_model::{Front, Place};
pub use port::{FlushErr, Note, Port, ReadErr, WriteErr};
pub use rows::{DriveAnswer, OwnWrite, WornAnswer, Written};
