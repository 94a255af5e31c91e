//! The law that bounds a settling of a tidy drive, as the close makes one: what an engine's worker
//! that goes on alone does, by the laws of its engine's log.
//!
//! - Each of its pumps did something, or lost a command, which only the last may, or found the ring
//!   full where a copy was due and nothing else could be done. On a tidy drive there is room then.
//! - Where no program was stopped, each pump that did something is a piece of work of the log.
//! - Meanwhile no user's entry is taken, and each copy is begun where no reset is left to be made.
//!   So the log gets as many pieces of work at most as `settle_laws` tells.
//!
//! What such a settling is `specs/Alone.antt` of `pblk_engine` says.
#![tactic(auto)]

mod closing;
mod settling;

pub use closing::a_close_of_a_tidy_drive_has_a_bound;
pub use settling::a_settling_of_a_tidy_drive_has_a_bound;
