//! Tests of recovery on images made by hand, through its public calls: of padding and scans of
//! drives in memory, and of the plain recovery.
#![tactic(auto)]

#[cfg(test)]
mod finds;
#[cfg(test)]
mod harness;
#[cfg(test)]
mod pads;
#[cfg(test)]
mod recovery;
#[cfg(test)]
mod sums;
