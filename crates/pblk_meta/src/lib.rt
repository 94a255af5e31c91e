//! The records that stand at a line's front and at its end, and their one spelling in bytes.
#![tactic(auto)]

mod bytes;
mod end_record;
mod pairs;
mod rows;
mod start_header;
mod start_record;

pub use end_record::{EndRecord, an_end_record_has_room, write_end};
pub use pairs::Pairs;
pub use rows::{Row, Rows};
pub use start_record::{StartRecord, a_start_record_has_room};
