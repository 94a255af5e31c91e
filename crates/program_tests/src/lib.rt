//! Tests of the whole program on its public calls, over files and an output in memory.
#![tactic(auto)]

#[cfg(test)]
mod blocks;
#[cfg(test)]
mod certificates;
#[cfg(test)]
mod copies;
#[cfg(test)]
mod create;
#[cfg(test)]
mod drives;
#[cfg(test)]
mod failing;
#[cfg(test)]
mod failures;
#[cfg(test)]
mod geometry;
#[cfg(test)]
mod harness;
#[cfg(test)]
mod images;
#[cfg(test)]
mod loads;
#[cfg(test)]
mod mounts;
#[cfg(test)]
mod parities;
#[cfg(test)]
mod run;
#[cfg(test)]
mod scripts;
#[cfg(test)]
mod show;
#[cfg(test)]
mod soak;
#[cfg(test)]
mod stops;
#[cfg(test)]
mod words;
