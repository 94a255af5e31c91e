//! Which line of a target is collected next.
//!
//! Lines are what a target opens, fills and frees as a whole (Bjørling, González, Bonnet, FAST 2017). Which of
//! them may be collected is for the caller to say.
#![tactic(auto)]

mod candidate;
mod held;
mod tournament;
mod victims;

pub use candidate::Candidate;
pub use victims::Victims;
