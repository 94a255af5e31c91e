//! Tests of locks by number on their public calls.
#![tactic(auto)]

#[cfg(test)]
mod counters;
#[cfg(test)]
mod turns;
