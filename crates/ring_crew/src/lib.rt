//! Makers that put entries into one ring, each in a thread of its own, while another thread takes them. Tests
//! and measurements use them.
#![tactic(auto)]

mod crew;
mod maker;
mod sectors;
mod taker;

pub use crew::{Job, make_and_take};
pub use sectors::{has_number, number};
pub use taker::{Got, Tally, end, grant, take};
