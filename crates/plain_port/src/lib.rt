//! A port in memory: plain, and enough to stand for a device in tests of what is above a port.
#![tactic(auto)]

mod plain;
mod sectors;

pub use block_port::{FlushErr, Front, Note, Place, Port, ReadErr, WriteErr};
pub use plain::{PlainPort, Planned};
