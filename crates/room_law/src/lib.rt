//! The law that what waits has room, by counting: it speaks of a few numbers and of the steps that
//! change them (`specs/Counting.antt`), and of no log, unit or file. The steps are meant as those
//! of a target on a tidy drive, as long as no command of a unit fails; one may be stopped.
//!
//! - Where no line is to be reset, fewer entries wait than data addresses are left. While lines are
//!   to be reset, no more wait than are left.
//! - The space limit never falls, and users' entries lie below it. So in the zone, where the
//!   addresses of two lines are left at most, no user's entry waits or is taken.
//! - The copies of a victim that were begun and its live sectors leave a stripe of a line.
//! - What is missing of two lines in the zone is being reset, or went to copies of the victim at
//!   work, but for less than two stripes.
//! - In the zone all is placed up to where pads were asked for while collection wasn't due.
//! - Where less than a stripe waits, and the space limit is less than 16 past what is taken,
//!   collection is due.
//!
//! A second law bounds a settling, also by counting (`specs/Settling.antt`): how many pumps one
//! worker makes until all is on the drive and collection isn't due, while nobody else works or
//! claims.
//!
//! - A settling ends. What is left to be done is worth a number that each pump makes less, and that
//!   nothing else makes more.
#![tactic(auto)]

mod laws;
mod settling;

pub use laws::{
    asks_before_due_are_placed, collection_is_due_where_space_is_short,
    copies_of_a_victim_fit_a_line, no_user_waits_in_the_zone, the_space_limit_never_falls,
    what_is_missing_is_reset_or_copied, what_waits_has_room,
};
pub use settling::a_settling_ends;
