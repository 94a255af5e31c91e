//! The program behind the command `pblk`: it reads its words, makes images (`create`), tells their
//! numbers (`geometry`) and what they hold (`show` and `report`), keeps their parity and makes lost
//! units anew (`parity` and `rebuild`), makes and checks certificates of what they hold (`certify`
//! and `check`), and runs scripts (`run`) and loads (`soak`) on them.
#![tactic(auto)]

mod certificates;
mod create;
mod drive_run;
mod geometry;
mod input;
mod laws;
mod main_call;
mod output;
mod parity;
mod parity_line;
mod refusal;
mod run;
mod serving;
mod show;
mod soak;
mod status;

pub use drive_run::run_drive;
pub use laws::{
    a_run_keeps_the_numbers, a_run_loses_only_what_is_planned,
    a_run_that_leaves_the_head_keeps_nothing, a_run_without_a_stop_or_plans_is_faultless,
    a_stopped_opening_changes_nothing, a_thread_alone_is_refused_for_its_own,
    a_worn_flush_tells_the_end, an_event_line_has_its_cause, the_drive_left_is_found,
    the_first_run_is_on_the_drive_made, the_next_run_is_on_the_drive_left,
};
pub use main_call::{pblk_main, pblk_program};
pub use serving::serve;
