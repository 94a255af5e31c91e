//! What is printed of a run and of an image: the transcript of a run or the line that sums it up,
//! the listing of an image's contents, and a report.
#![tactic(auto)]

mod counts;
mod history;
mod laws;
mod listings;
mod numbers;
mod outcomes;
mod rows;
mod transcripts;

pub use counts::totals;
pub use history::has_history;
pub use laws::{a_run_is_recorded, a_run_that_was_not_opened, a_run_through_ports};
pub use listings::{listing, one_listing};
pub use numbers::report;
pub use transcripts::transcript;
