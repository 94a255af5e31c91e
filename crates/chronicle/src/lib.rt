//! A chronicle: for the engine of a mount, and for each of its units, a log that only grows, to be
//! shared by threads.
//!
//! Each log has one author, who alone appends events to it. What an author knows of the other logs,
//! and a token of all logs, is a prefix of each, which grows as notes are met. An event may be
//! appended where it is legal by what its author knows. So at every moment the logs are those of a
//! legal world, and so are the prefixes that anybody knows.
//!
//! A command of a unit names its worker, and how many commands that worker had made before, of all
//! units. The right to number a worker's commands is with one token. It is lent to the author that
//! notes the next command, and given back.
//!
//! The logs are there in contracts alone. Code shares one word for each, which counts the events
//! that were appended to the log.
#![tactic(auto)]

mod authors;
mod laws;
mod rows;
mod rule;
mod table;
mod tokens;
mod view;

pub use authors::Author;
pub use laws::{an_event_names_what_is_known, what_is_known_is_closed};
pub use rows::{Event, Past};
pub use table::Chronicle;
pub use tokens::{Lent, Note, Token};
