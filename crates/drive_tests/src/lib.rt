//! Tests of the drive in memory, of its parts and of its vectors, on their public calls.
#![tactic(auto)]

#[cfg(test)]
mod alone;
#[cfg(test)]
mod chunks;
#[cfg(test)]
mod codecs;
#[cfg(test)]
mod units;
#[cfg(test)]
mod vector;
