//! Tests of the plain port, and of scripts that are run through it.

mod harness;
mod ports;
mod runs;
