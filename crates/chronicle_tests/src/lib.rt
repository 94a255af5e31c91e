//! Tests of the chronicle on its public calls.
#![tactic(auto)]

#[cfg(test)]
mod threads;
