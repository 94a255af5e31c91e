//! Tests of scripts: those that are read and refused by `run_script`, and those that `load_maker` makes.

mod harness;
mod limits;
mod lines;
mod loads;
