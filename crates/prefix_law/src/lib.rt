//! The law that a drive's contents are those after a prefix of the history, in every legal world
//! over a sealed drive: units may fail and stop, and the engine may copy sectors and free lines.
//!
//! - The contents that recovery defines are those before, changed by the lines of the history below
//!   the end. The end is at the front synced or above it, and once the mount has begun at most the
//!   front taken.
//! - The same holds after a stop that cuts any of the units.
//! - Where each placed stripe is answered and what was lost was placed again, the end is the front
//!   synced. So it is wherever no stripe that was placed holds the position at that front.
//! - A world in which no mount has begun leaves the contents as they were.
//! - The drive stays sealed.
//!
//! `specs/` says, without logs, what an image is after a mount, and what its contents are assembled
//! from.
#![tactic(auto)]

mod laws;

pub use laws::{
    a_cut_of_each_unit_leaves_a_prefix, an_unplaced_front_is_the_end, contents_are_after_a_prefix,
    no_mount_changes_nothing, the_end_is_the_front_synced, the_media_are_sealed,
};
