//! What commands print beside transcripts: the lines of refusals, and the texts of `create`,
//! `geometry`, `certify` and `check`.
//!
//! The lines of refusals take no memory: they are written in pieces, up to the first one that isn't
//! taken.
#![tactic(auto)]

mod certificate;
mod file_line;
mod line;
mod number_line;
mod numbers;
mod refusal;

pub use certificate::{certified_text, checked_text, tell_certificate, tell_check};
pub use file_line::{tell_failed, tell_missing};
pub use line::tell;
pub use number_line::tell_number;
pub use numbers::{chunks_in, created_text, geometry_text};
pub use refusal::{tell_image, tell_memory, tell_script, tell_words};
