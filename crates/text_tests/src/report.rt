//! Tests of `run_report`: transcripts of records, and listings and reports of images.

mod contents;
mod fitting;
mod harness;
mod images;
mod texts;
