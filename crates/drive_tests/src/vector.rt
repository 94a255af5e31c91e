//! Tests of `vector_io`: vectors on the units of a drive in memory.

mod harness;
mod vectors;
