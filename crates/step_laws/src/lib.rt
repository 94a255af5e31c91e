//! Laws on one more step of a world: what may be done next in a mount, and what stays as it was.
//!
//! Each step is made by the engine or by a unit. Its author knows every log to its end. Units may
//! fail and stop. The steps themselves are defined in `specs/Whole.antt`, and what a unit can do
//! next in `specs/NextEvents.antt`.
//!
//! The slot of a sector leads to its latest content: to its block on the drive, or to its entry in
//! the window. A block that is met later in the place that a slot named has that content still, if
//! its mark names the sector and bears the slot's position; and while a slot names the same place
//! and position, its block stays the same.
#![tactic(auto)]

mod fetching;
mod looks;
mod openings;
mod slots;

pub use fetching::a_fetch_gives_what_landed;
pub use looks::{
    a_marked_block_has_what_was_looked_up, a_slot_on_the_drive_is_readable,
    a_source_keeps_its_block,
};
pub use openings::an_opening_is_a_legal_mount;
pub use slots::a_slot_has_the_latest_sector;
