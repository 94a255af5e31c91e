//! Images of the small drive that are made step by step, as the chunks of each unit and as a drive
//! in memory; and the text of the lines that are told of them. Tests use both.
#![tactic(auto)]

mod drive;
mod image;
mod lines;

pub use drive::restored;
pub use image::{Step, Units, made, sector, small};
pub use lines::joined;
