//! Laws of every legal mount, whatever stops, fails, is copied or is freed.
//!
//! - What is known of the logs is a legal world by itself. What the engine's tables hold depends on
//!   its log and on the unit events that it names, and on nothing that a unit did since. Earlier
//!   logs say of their time what later ones say of it.
//! - Where logs grow by what units do alone, each event of the engine names the same, and the logs
//!   are the same at each length of the engine's log. So are the orders and the reasons of its
//!   work.
//! - A line is opened with a start record that fits it, and no block that is written in it begins a
//!   narrower one.
//! - What a unit writes are the stripes that were placed on it, in their order. The next program of
//!   a unit is taken, unless the unit was stopped.
//! - A chunk as the engine knows it is what some first events of its unit left. A chunk stays as it
//!   is after a stop, and where it is empty and nothing is programmed in it.
//! - That the engine has noted each reset that wasn't stopped holds of what two authors know
//!   together where it holds of each of them, and each step but such a reset keeps it. With it a
//!   chunk that the engine knows to be used is used, unless a reset of it was stopped.
//! - A chunk of an opened line has blocks of the stripes of this life alone, and those of each
//!   program that was done. The stripes of an opening stand one behind another in each chunk, at
//!   the line's addresses.
//! - In a line that was opened, and maybe freed since, a block whose mark names a sector is that of
//!   the entry at the mark's position. In one that wasn't opened each block is the one found there.
//! - A line that wasn't opened has the start record and the records that it had; one that was freed
//!   has these or less. A line that was opened has no start record but its opening's, and no record
//!   but of entries that were placed in it.
//! - What has landed stays where it counts: a line is freed once its positions are below the newest
//!   start record's front, and the latest entry of each sector below the front synced stands in a
//!   line that wasn't freed.
//! - A sector holds its latest entry, whether a user wrote it or it was copied. The media stay
//!   sealed.
//! - Before it writes, a mount pads the Open chunks of an image, and resets the chunks of lines
//!   without a start record. What padding, and the loss of such chunks, leave of a sealed image is
//!   sealed, and holds what it held. The image that a mount finds holds it too, and so do the media
//!   until a unit knows that the mount has begun.
//! - Where chunks of any line are emptied or go Offline, the line has the start record that it had,
//!   or none, and no record that it hadn't.
//! - What recovery finds of an image fits the shape of the drive. A mount may begin with it where
//!   no chunk is Open, and then begins with the end, the sequence number and the strays that were
//!   found.
#![tactic(auto)]

mod blocks;
mod chunks;
mod found;
mod growth;
mod mounts;
mod noted;
mod preparing;

pub use blocks::{a_marked_block_is_of_its_entry, earlier_logs_say_the_same};
pub use chunks::{
    a_chunk_has_stripes_of_its_last_opening, a_chunk_stays, a_known_chunk_is_an_earlier_one,
    a_line_has_what_was_placed_in_it, a_sector_holds_its_latest_entry, a_stripe_has_its_place,
    a_units_programs_are_of_its_stripes, an_opened_chunk_has_its_stripes,
    an_unopened_line_has_what_it_had, the_media_stay_sealed, the_next_program_is_taken,
    what_has_landed_is_kept_while_it_counts,
};
pub use found::{a_mount_begins_with_what_is_found, what_is_found_fits};
pub use growth::{
    orders_are_by_what_was_named, reasons_are_by_what_was_named, the_victim_is_by_what_was_told,
    what_the_engine_named_stays,
};
pub use mounts::{
    a_line_is_opened_with_a_record_of_it, no_stripe_begins_a_narrower_line,
    tables_are_by_what_was_told, what_is_known_is_a_legal_world,
};
pub use noted::{a_chunk_is_as_it_is_known, resets_stay_noted};
pub use preparing::{
    lost_chunks_add_nothing, padding_keeps_the_contents, the_found_image_holds_the_same,
};
