//! Tests of `pblk_outside` on its public calls: files and sinks in memory, the system's files, and
//! words.
#![tactic(auto)]

#[cfg(test)]
mod failing;
#[cfg(test)]
mod folder;
#[cfg(test)]
mod harness;
#[cfg(test)]
mod memory;
#[cfg(test)]
mod real;
#[cfg(test)]
mod words;
