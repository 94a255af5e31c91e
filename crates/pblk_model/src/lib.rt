//! The definitions that every contract of this repository cites, and the plain types that go with them.
//!
//! The definitions stand in `specs/`, one module for each subject; `docs/MODEL.md` says them in words.
#![tactic(auto)]

mod checks;
mod chunk;
mod found;
mod image;
mod least_lengths;
mod lengths;
mod line_order;
mod number;
mod ring;
mod run;
mod script;
mod shape;
mod shows;
mod unit_log;

pub use chunk::{ChunkErr, ChunkState, DescriptorErr, Got, Mark};
pub use found::{Found, Items, LineRow, Winner};
pub use image::{DESCRIPTOR_LEN, DESCRIPTORS_AT, HEADER_LEN, ImageErr};
pub use least_lengths::{a_line_is_short, end_len_is_least, start_len_is_least};
pub use line_order::{address_is_of, line_order_is, one_to_one};
pub use number::is_padded;
pub use ring::Claim;
pub use run::{Front, NUMBER_LIMIT, Place};
pub use script::{Command, Commands, PostName, Script, ScriptErr};
pub use shape::{Address, GeometryErr, Shape, ShapeErr};
pub use shows::Shows;
pub use unit_log::UnitEvent;
