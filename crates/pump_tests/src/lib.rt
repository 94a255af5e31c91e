//! Tests of pumps, one after another, over units in memory.
#![tactic(auto)]

#[cfg(test)]
mod worn;
