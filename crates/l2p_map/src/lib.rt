//! Where the latest content of each user sector is (Bjørling, González, Bonnet, FAST 2017, the mapping table
//! from logical to physical addresses).
#![tactic(auto)]

mod sectors;
mod slot;

pub use sectors::Map;
pub use slot::Slot;
