//! Up to 64 addresses of a drive in one command, with a bit of status for each (Open-Channel SSD
//! Specification 2.0, Vector read, write and reset).
#![tactic(auto)]

mod addresses;
mod laws;
mod reads;
mod resets;
mod runs;
mod status;
mod unit_calls;
mod vector;
mod writes;

pub use laws::{each_unit_has_its_events, programs_have_each_address};
pub use pblk_model::{Address, Mark};
pub use status::Status;
pub use vector::{Vector, VectorErr};
