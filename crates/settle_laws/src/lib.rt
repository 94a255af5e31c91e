//! Laws on what a mount over a tidy drive does once no user's entry is taken any more, as in a
//! close: it comes to an end, in a number of pieces of work that is told by the logs as it begins.
//!
//! - What is left to be done is worth a number that each piece of work makes less, and that nothing
//!   else makes more. It counts the addresses that are missing: all that lines could have, less
//!   those that are left or come by resets, and less what waits or is live in the victim at work.
//! - A line that comes to work as the victim has a stripe's addresses less of live sectors than it
//!   has data addresses. So it gives a stripe's addresses at least, less those that pads take.
//! - A stripe is padded once for a victim: copies are begun where no reset is left to be made and
//!   collection is due, and pads are asked for only where no copy is due. So a stripe with copies
//!   alone is padded where no sector of the victim is live, or where another line was freed since.
//! - A victim that is freed has its copies placed, all that were begun since.
//!
//! How many pieces these are at most is told by the shape and by how many entries wait.
//!
//! `specs/` says what is a piece of work, and how many there are at most.
#![tactic(auto)]

mod quiet;

pub use quiet::{a_quiet_mount_comes_to_an_end, the_most_work_is_told_by_the_shape};
