//! Tests of `write_window`.

mod harness;
mod windows;
