//! Laws for tidy drives: a mount in which no command of a unit fails, though one may be stopped,
//! never gets stuck for want of room, as long as numbers are left, and leaves a tidy drive. With
//! them stand the laws that this rests on.
//!
//! - A blank image is tidy. Where no unit event failed, a tidy image is found tidy, no stripe was
//!   lost, and no line is narrower than the drive.
//! - Each sector is live in one line at most. So what is live in all lines together is at most what
//!   the drive holds, and not all lines but five can have too many live sectors to be collected.
//! - Once all stripes of a line have landed, all its positions are below the front synced.
//! - Each line is Free, or was opened last, or is behind the newest start record; but for one line
//!   that had a stripe left when the last one was opened.
//! - So where few lines are Free and the newest start record has landed, some line may be
//!   collected, and a victim is at work.
//! - The victim that comes to work then has few live sectors, unless it is failed. So a line of
//!   addresses is soon made of it.
//! - Where no stripe is under way and none of an end record is left, only the line that was opened
//!   last may be written to. Then the front taken is near the front freed.
//! - Where no stripe is under way, none is to be placed and no line is to be opened, a copy that is
//!   due has room in the ring. In a mount over a tidy image in which nothing failed it was so at
//!   each length of the engine's log.
//! - As long as more data addresses are left than entries wait, a mount at rest has nothing left to
//!   do. Then all that was taken below the pad target has landed, collection isn't due, and there
//!   is room for sixteen more sectors.
//! - Where the engine did its work in order, and all that it took and padded had its reason, its
//!   log makes a run of crate `room_law`. So where nothing is left to be reset, fewer entries wait
//!   than data addresses are left, at each length of the log.
//! - So a mount over a tidy image in which nothing fails refuses no command for want of room, as
//!   long as numbers are left. It leaves a tidy image, once collection isn't due.
//! - Numbers are left where the image that a mount leaves has low ones: the sequence number of its
//!   head, and the end of its contents. The front taken is near the front synced, since users'
//!   entries were granted within the ring, and copies were begun where data addresses were left.
//! - A stripe with an entry takes as many data addresses as it has blocks. The last reset of a line
//!   that was given up gives back the line's. All else leaves them as they are. So the Free lines'
//!   are known, how many lines are to be reset, and how many chunks of them, what
//!   waits, and how many stripes are left to the opened lines.
//! - In every legal mount, whatever fails, is stopped or is lost: let each copy have been begun
//!   while its source was the place of its sector's latest, in the victim that was at work then,
//!   and let one be under way at a time. Let the victim at work have no live sector, and let all
//!   that took a sector from it be below the front synced. Then at most one of the copies that were
//!   taken isn't below that front: the last one, and it is Void. Where a copy is under way, there
//!   is none.
//! - A line comes to work as the victim with a stripe's addresses less of live sectors than it has
//!   data addresses. From then on no stripe is placed in it, and each copy of it lowers its live
//!   sectors. So its copies and its live sectors leave a stripe of its data addresses. While it is
//!   at work its live sectors change by entries alone: an entry of a sector that is live there
//!   makes it one less.
//!
//! `specs/` says what a tidy image and a tidy mount are, and which states of a run of `room_law`
//! the engine's log makes.
#![tactic(auto)]

mod answers;
mod collecting;
mod copying;
mod faultless;
mod never_stuck;
mod resting;
mod room;

pub use answers::{
    a_blank_image_is_tidy, a_tidy_image_is_left_tidy, a_tidy_mount_has_room, a_tidy_mount_is_wide,
    a_tidy_mount_refuses_nothing, the_numbers_left_are_told_by_the_image,
};
pub use collecting::{
    a_sector_is_live_in_one_line, a_victim_is_at_work, all_but_two_lines_are_behind,
    some_line_may_be_collected, the_last_line_has_begun, the_next_victim_has_few_live_sectors,
    what_has_landed_whole_is_synced,
};
pub use copying::{
    a_begun_copy_is_overtaken, a_copied_sector_is_live_until_it_is_taken,
    a_victim_came_to_work_with_room, a_victim_that_may_be_freed_is_emptied,
    an_entry_takes_one_live_sector, copies_of_a_victim_were_live, copies_of_the_victim_have_room,
    live_sectors_of_the_victim_fall, one_copy_at_most_is_not_synced,
    one_position_at_most_is_left_to_copies, what_is_synced_was_placed,
};
pub use faultless::{a_faultless_mount_loses_nothing, a_tidy_image_is_found_tidy};
pub use never_stuck::what_waits_is_less_than_the_addresses;
pub use resting::{
    a_copy_that_is_due_has_room, at_rest_all_is_done, at_rest_there_is_room,
    only_the_last_line_is_open, the_front_freed_is_near,
};
pub use room::{
    a_reset_not_noted_is_of_a_line_to_be_reset, each_reset_leaves_one_chunk_less,
    each_stripe_leaves_one_less, free_lines_are_opened_and_come_by_resets,
    freed_lines_are_to_be_reset, stripes_take_addresses_and_resets_give_them,
    what_waits_was_taken_and_not_placed,
};
