//! Authors of one chronicle, each in a thread of its own, who append events and tell each other
//! what they know. Tests and measurements use them.
#![tactic(auto)]

mod board;
mod crew;
mod hand;
mod shown;

pub use crew::{Job, run};
pub use hand::Meets;
