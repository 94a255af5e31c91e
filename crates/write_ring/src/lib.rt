//! A write ring: many writers put entries at positions, each once, without a lock, and one intake
//! takes them in their order (Bjørling, González, Bonnet, FAST 2017, write buffering).
//!
//! A position is a number that the ring hands out. A writer claims positions for users below what
//! the intake has granted, and the intake itself claims some for copies, wherever the ring has
//! room: so users never take the reserve. A claim is one compare-exchange on the word `claimed`.
//! Position `p` has the slot `p` modulo the ring's size. Who claimed it exchanges the free frame
//! there for its entry, and then the slot's turn word names the position.
#![tactic(auto)]

mod batch;
mod cell;
mod claims;
mod closing;
mod copying;
mod draft;
mod laws;
mod opening;
mod putting;
mod ring;
mod rule;
mod seats;
mod sleeping;
mod table;
mod taking;
mod view;
mod writing;

pub use batch::Batch;
pub use laws::a_ring_is_in_a_ring_state;
pub use seats::{Full, Intake, Pass, Place, Taken, TryPut};
pub use table::Ring;
