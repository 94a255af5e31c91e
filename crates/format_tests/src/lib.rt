//! Tests of the formats: lengths, places and records on worked examples, and images of drives.
#![tactic(auto)]

#[cfg(test)]
mod drives;
#[cfg(test)]
mod image;
#[cfg(test)]
mod layout;
#[cfg(test)]
mod meta;
