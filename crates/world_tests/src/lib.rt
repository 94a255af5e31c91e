//! Worlds made by hand, on the small drive: which are legal, and which aren't.
#![tactic(auto)]

mod collected;
mod crowded;
mod filled;
mod fronts;
mod left;
mod older;
mod other;
mod overwritten;
mod rewritten;
mod simple;
mod takers;
mod wrong;

pub use collected::a_world_with_a_freed_line_is_legal;
pub use crowded::{a_line_comes_to_work, what_is_live_is_copied};
pub use filled::{
    a_world_with_a_full_line_is_legal, what_a_full_line_leaves_is_read, wrong_ends_are_refused,
};
pub use fronts::{a_waiting_sector_rests, its_fronts_are_known};
pub use left::{ends_are_the_fronts, what_landed_is_held};
pub use older::{a_world_with_an_older_line_is_legal, wrong_rows_are_refused};
pub use other::{
    a_halted_world_is_legal, a_world_with_a_stray_is_legal, wrong_halts_are_refused,
    wrong_strays_are_refused,
};
pub use overwritten::{a_world_with_an_overwritten_line_is_legal, needed_lines_are_kept};
pub use rewritten::{
    a_block_isnt_told_by_its_sector_alone, a_world_with_a_rewritten_block_is_legal,
};
pub use simple::a_world_is_legal;
pub use takers::{
    a_taker_counts_from_the_landing_on, worlds_with_a_sector_taken_in_flight_are_legal,
};
pub use wrong::{
    wrong_answers_are_refused, wrong_beginnings_are_refused, wrong_commands_are_refused,
    wrong_frees_are_refused, wrong_knowledge_is_refused, wrong_openings_are_refused,
    wrong_stripes_are_refused, wrong_takes_are_refused,
};
