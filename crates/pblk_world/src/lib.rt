//! The events of a mount on a drive, the worlds that they make, and which of these are legal.
//!
//! The definitions stand in `specs/`, a module for each. The functions are laws over them.
#![tactic(auto)]

mod events;
mod laws;

pub use events::{EngineEvent, Image, Logged, Step};
pub use laws::{
    a_front_is_synced, a_prefix_is_legal, an_event_is_added, answers_are_of_stripes,
    knowledge_never_falls, logs_only_grow, one_front_is_synced, the_numbers_of_a_worker_rise,
    what_has_not_landed_is_not_taken, what_landed_was_done,
};
