//! The core of a target: the steps that one session, or an engine's lock, makes over its tables.
#![tactic(auto)]

mod answering;
mod collecting;
mod filling;
mod freeing;
mod growth;
mod hold;
mod line_notes;
mod line_turns;
mod losing;
mod naming;
mod open_lines;
mod opening;
mod reading;
mod records;
mod resets;
mod space;
mod stripe;
mod stripes;
mod taking;
mod target_core;
mod work;

pub use collecting::CopyJob;
pub use growth::a_core_stands_for_what_was_told;
pub use records::{LineRecords, records_are_an_openings};
pub use stripe::Stripe;
pub use target_core::{
    Core, a_line_is_empty_once_it_was_reset,
    a_stripe_waits_while_its_turn_is_the_number_of_answers, a_turn_tells_which_stripe_waits,
    a_world_of_no_events_is_legal,
};
pub use work::{Why, Work};
