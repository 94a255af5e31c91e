//! Tests of `line_table`.

mod blank;
mod harness;
mod lines;
mod used;
