//! Where the blocks of a line lie, and how many of them each part of the line has.
#![tactic(auto)]

mod image_units;
mod layout;
mod line_units;
mod online;
mod places;

pub use image_units::online_units_are_the_lines;
pub use layout::Layout;
pub use line_units::{LineUnits, is_online};
