//! Tests of scripts of several threads, of lanes and of the collector, on the program's public
//! calls.
#![tactic(auto)]

#[cfg(test)]
mod gate;
#[cfg(test)]
mod harness;
#[cfg(test)]
mod held;
#[cfg(test)]
mod judge;
#[cfg(test)]
mod rounds;
#[cfg(test)]
mod scripts;
#[cfg(test)]
mod stops;
