//! Which stripe of the open lines comes next, and which entries it takes.
//!
//! The entries of the write buffer are gathered into stripes, which go round the parallel units of
//! a line (Bjørling, González, Bonnet, FAST 2017, write buffering).
#![tactic(auto)]

mod next;
mod placement;
mod placer;
mod queue;
mod rules;
mod slot;
mod unit_state;

pub use placement::{Placement, StripeKind};
pub use placer::Placer;
pub use rules::{a_line_takes, a_unit_takes};
