//! Runs the threads of a script through ports, and records what each command was answered.
#![tactic(auto)]

mod board;
mod command;
mod desk;
mod names;
mod records;
mod rule;
mod runner;
mod sectors;
mod view;

pub use block_port::{Front, Place, Port};
pub use records::{Answer, Answers, Records, ThreadRows, Trouble, Word, Words};
pub use runner::{Prepared, prepare, run};
pub use sectors::word;
