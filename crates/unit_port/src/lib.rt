//! The port to a parallel unit of a drive: its commands, what they leave, and the log of them.
#![tactic(auto)]

mod armed;
mod log;
mod unit;

pub use armed::{Armed, CommandKind, FaultPlan, Fuse};
pub use log::Log;
pub use pblk_model::{ChunkState, Got, Mark, Shows, UnitEvent};
pub use unit::{Unit, UnitErr};
