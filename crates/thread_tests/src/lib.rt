//! Tests of scripts whose threads run at once, through plain ports.
#![tactic(auto)]

#[cfg(test)]
mod gate;
#[cfg(test)]
mod meeting;
#[cfg(test)]
mod ring;
