//! The engine of a target: what lies under its locks, for any number of threads.
//!
//! The heart lies under the engine's lock, and each unit with its author, which is an arm, under a
//! lock of its own. Nothing is known of what lies under a lock but what its type keeps. So each of
//! these types keeps that it is of one mount, which the trait [`Mount`] names.
#![tactic(auto)]

mod answering;
mod arm;
mod beginning;
mod begun;
mod chunk_resetting;
mod closing;
mod collecting;
mod commands;
mod copying;
mod ending;
mod engine;
mod engine_author;
mod errors;
mod fetching;
mod heart;
mod idle;
mod laws;
mod line_opening;
mod lone_copies;
mod lone_pumps;
mod looking;
mod made;
mod mount;
mod outcomes;
mod places;
mod placing;
mod programming;
mod pumping;
mod reading;
mod reset_chunks;
mod reset_notes;
mod resetting;
mod sector_looks;
mod settling;
mod shared;
mod shown;
mod steps;
mod taking;
mod waiting;
mod winding_down;
mod worker;

pub use arm::{Arm, Programmed};
pub use beginning::HeartParts;
pub use closing::{Closing, IsSet, LaneEnd};
pub use commands::Ended;
pub use engine::Engine;
pub use errors::{DriveErr, FetchErr, SettleErr};
pub use idle::Idle;
pub use laws::{
    an_opening_is_a_past, each_command_stands_in_its_list,
    each_pump_that_did_something_is_a_piece_of_work, what_has_just_begun_is_mounted,
};
pub use made::Made;
pub use mount::Mount;
pub use outcomes::{Did, Flushed, Role, Roomed};
pub use places::ArmPlaces;
pub use steps::Steps;
pub use worker::Worker;
