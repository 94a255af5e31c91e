//! Recovery by scanning: what a drive holds when a mount begins (Bjørling, González, Bonnet, FAST
//! 2017, recovery).
//!
//! `pad` closes the chunks that a mount left Open, and `scan` tells what a mount begins with on a
//! drive without Open chunks. `make_ready` does both. `contents` tells what the image of any drive
//! holds for its user, and `summary` all of that but the sectors. `is_written` and `fetch_into` are
//! the steps that all of them take at a block.
#![tactic(auto)]

mod counting;
mod ending;
mod error;
mod fetching;
mod finding;
mod holding;
mod line_buffer;
mod line_records;
mod media;
mod mount;
mod padding;
mod reading;
mod readying;
mod scanning;
mod sectors;
mod starts;
mod survey;
mod trace;
mod unit_calls;

pub use error::ScanErr;
pub use fetching::{fetch_into, is_written};
pub use holding::{contents, summary};
pub use padding::pad;
pub use readying::make_ready;
pub use scanning::scan;
pub use sectors::{Contents, Head, Sectors, Summary};
