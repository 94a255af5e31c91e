//! What `stripe_placer` tells, once more in plain steps: lists of stripes, of entries and of units, and a look
//! through all of them at each call. Its contracts are the definitions of `stripe_placer` themselves, and it is
//! there to be compared with.
#![tactic(auto)]

mod entries;
mod line;
mod placer;
mod row;
mod stripe;

pub use placer::PlainPlacer;
