//! Laws over the definitions of `pblk_model`: each is the contract of a function without parameters
//! that does nothing.
//!
//! - Transcripts: for a script, contents before and a text, at most one contents after meets the
//!   transcript relation. The text determines the history and how much of it is kept.
//! - Chunks and logs: a step never loses or rewrites a block but by a reset, and a refusal and a
//!   read change nothing. A command has one answer. Whatever a stop or a failure may leave, a
//!   stopped or failed event leaves.
//! - Formats: what is spelled is read back, and what is read is spelled so. This holds for
//!   geometries, descriptors, images, start and end records, and scripts. Bytes are an image of at
//!   most one fit drive, and at most one script.
//! - Recovery: the functions `end`, `head` and `winner` are what their facts say. A block bears at
//!   most one record. A blank image holds zeros, and one with a line filled from its front holds
//!   what the history leaves of zeros.
//! - Sealed images: a blank image is one, and so is an image with a filled line.
//! - Premises that can be met: some shape is accepted, some line is filled, some drive is spelled,
//!   some script is read.
#![tactic(auto)]

mod accepted;
mod blank;
mod chunk_step;
mod contents;
mod descriptor;
mod end_record;
mod filled_line;
mod history;
mod image;
mod image_file;
mod line_order;
mod marks;
mod script;
mod sealed;
mod start_record;
mod transcript;
mod unit_log;

pub use accepted::a_shape_is_accepted;
pub use blank::{blank_has_no_block, blank_has_no_record, blank_holds_zeros, blank_is_fit};
pub use chunk_step::{
    failure_appends, failure_keeps_chunk, read_changes_nothing, refused_changes_nothing,
    step_appends, step_is_determined, step_keeps_chunk, stop_appends, stop_keeps_chunk,
};
pub use contents::{a_block_bears_one_record, end_is_least, head_is_greatest, winner_is_newest};
pub use descriptor::pointer_rules_agree;
pub use end_record::{
    end_read_is_spelled, end_spelled_is_read, end_spelling_fills_its_blocks, found_end_is_written,
    written_end_is_found,
};
pub use filled_line::{a_line_is_filled, filled_contents, no_end_record};
pub use history::users_are_the_first;
pub use image::width_is_within_units;
pub use image_file::{
    a_drive_is_spelled, descriptor_is_read_back, geometry_is_read_back, image_is_of_one_drive,
    spelled_image_is_read,
};
pub use line_order::{block_at_is, line_units_are};
pub use marks::{marks_bear_records, marks_name_sectors};
pub use script::{
    a_line_is_spelled, a_read_script_is_spelled, a_spelled_line_is_read, a_spelled_script_is_read,
    a_stuck_script_has_no_times, bytes_are_one_script, three_posts_are_a_script,
    two_awaits_are_stuck,
};
pub use sealed::{
    a_filled_line_is_sealed, blank_is_sealed, filled_line_is_sealed, start_records_begin_once,
};
pub use start_record::{
    found_is_written, read_is_spelled, spelled_is_read, spelling_fills_its_blocks,
    unwritten_is_none, written_is_found,
};
pub use transcript::{one_contents_after, one_history, one_transcript};
pub use unit_log::{
    a_log_grows, a_log_keeps_chunks, cuts_are_logs, events_follow_the_table, failures_are_events,
    stops_are_events,
};
