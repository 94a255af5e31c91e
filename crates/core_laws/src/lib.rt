//! Laws on what the tables of a target hold by the logs of its mount.
//!
//! The definitions in `specs/` say what each table holds by the logs. The lemmas in `proofs/` say
//! what one more event changes there.
//!
//! - In the table of lines: its rows, the data addresses of the opened lines, and the front placed.
//!   The line of the least Free row may be opened. Logs by which the engine knows as much say as
//!   much of the table.
//! - In the placer: what it offers may be placed. Where it offers nothing and each placed stripe is
//!   answered, no stripe is to be placed. An opened line keeps its units.
//! - Positions are placed in their order, and one is placed again only where its stripe was lost. A
//!   unit has at most one stripe under way. A line has a stripe left until all its stripes are
//!   answered, and a mark for each block of a data stripe.
//! - In the window and the map: a landed stripe lands its positions, gives back those whose blocks
//!   can now be read, and moves their sectors to these blocks. No front ever falls, and after the
//!   history a sector holds what its last entry has.
//! - A line may be freed exactly where it is spent: no sector is live in it, the newest start record
//!   is beyond all that counts there, and what took its sectors is below the front synced.
//! - What each event makes of the closed lines, to which nothing more is written before they are
//!   reset, and of the newest start record that has landed. By these a target tells which lines may
//!   be freed, and which is collected next: that line stays closed until it is freed, and what is
//!   live in it is what the map names there.
//! - What the tables hold, and which lines are spent, depends on what the engine was told alone. So
//!   it is the same however the logs grow by what units do that the engine hasn't named.
//! - When a mount has just begun, each line, each sector and the units of each line are as they
//!   were found. Each front is at the end that was found, and nothing was taken, opened or placed.
#![tactic(auto)]

mod growth;
mod laws;

pub use growth::{a_targets_tables_are_by_what_was_told, spent_lines_are_by_what_was_told};
pub use laws::{
    a_line_may_be_freed_where_it_is_spent, the_front_synced_never_falls, the_history_is_the_latest,
};
