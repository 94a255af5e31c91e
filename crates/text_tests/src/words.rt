//! Tests of `command_words` and `command_text`: commands, their texts, and the lines of refusals.

mod harness;
mod lines;
mod refusals;
