//! The state of each line of a target, and how much of it is still live.
//!
//! A line is the chunks of one index over all units (Bjørling, González, Bonnet, FAST 2017).
#![tactic(auto)]

mod line_set;
mod lines;
mod opening;
mod row;

pub use line_set::LineSet;
pub use lines::Lines;
pub use row::{LineState, Row};
