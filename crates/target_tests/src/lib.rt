//! Tests of a target with one session over units in memory, of the stripes of its core, and of the
//! plain port.
#![tactic(auto)]

#[cfg(test)]
mod answers;
#[cfg(test)]
mod calls;
#[cfg(test)]
mod harness;
#[cfg(test)]
mod port;
#[cfg(test)]
mod records;
#[cfg(test)]
mod shapes;
