//! Tests of the write ring on its public calls.
#![tactic(auto)]

#[cfg(test)]
mod rows;
#[cfg(test)]
mod sleeping;
#[cfg(test)]
mod steps;
#[cfg(test)]
mod threads;
