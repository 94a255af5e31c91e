//! Sessions of one target, each in a thread of its own. Tests and measurements use them.
#![tactic(auto)]

mod crew;
mod units;
mod work;

pub use crew::{Closed, serve};
pub use units::armed;
pub use work::Work;
