//! The words of the command line: which words are which command.
//!
//! It takes no memory: what is read borrows the words.
#![tactic(auto)]

mod command;
mod create;
mod fault;
mod fuse;
mod item;
mod number;
mod options;
mod plans;
mod rebuild;
mod run;
mod soak;
mod words;

pub use command::{CommandLine, CreateNumbers, RunOptions};
pub use plans::FaultPlans;
pub use unit_port::{CommandKind, FaultPlan, Fuse};
pub use words::read_words;
