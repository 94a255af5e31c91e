//! What a program reads and writes outside itself: its words, whole files by name, and a sink for
//! its output.
//!
//! Code above is generic over `Files` and `Sink`. The kinds in memory tell what they hold and fail
//! at chosen calls; the real ones stand over the system and tell nothing.
#![tactic(auto)]

mod fault_count;
mod file_fault;
mod files;
mod memory_files;
mod memory_sink;
mod plan;
mod real_files;
mod real_out;
mod replace;
mod sink;
mod words;

pub use file_fault::{FileCall, FileFault};
pub use files::{FileErr, Files};
pub use memory_files::MemoryFiles;
pub use memory_sink::MemorySink;
pub use real_files::RealFiles;
pub use real_out::RealOut;
pub use sink::{Sink, SinkErr};
pub use words::{WordsErr, real_words};
