//! Tests of certificates on images made by hand, through the public calls of `image_check`.
#![tactic(auto)]

#[cfg(test)]
mod harness;
#[cfg(test)]
mod rows;
