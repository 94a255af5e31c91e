//! Tests of a target with several sessions, each in a thread of its own, over units in memory.
#![tactic(auto)]

#[cfg(test)]
mod crowds;
#[cfg(test)]
mod deeds;
#[cfg(test)]
mod drives;
#[cfg(test)]
mod gate;
#[cfg(test)]
mod gated_reads;
#[cfg(test)]
mod history;
#[cfg(test)]
mod lists;
#[cfg(test)]
mod roamers;
#[cfg(test)]
mod rows;
#[cfg(test)]
mod stops;
