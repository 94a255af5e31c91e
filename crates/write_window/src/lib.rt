//! The window of the write buffer: the entries that were taken and whose blocks can't all be read yet
//! (Bjørling, González, Bonnet, FAST 2017, write buffering).
//!
//! An entry's sector stays in its frame, which moves in and out by value.
#![tactic(auto)]

mod held;
mod run;
mod window;

pub use held::{Held, Progress};
pub use window::Window;
