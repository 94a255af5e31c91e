//! Tests of parities through their public calls.
#![tactic(auto)]

#[cfg(test)]
mod drives;
#[cfg(test)]
mod files;
#[cfg(test)]
mod rebuilds;
