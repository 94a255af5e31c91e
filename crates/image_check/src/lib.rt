//! Certificates of what an image holds, and their checker.
#![tactic(auto)]

mod bearers;
mod block;
mod certificate;
mod checker;
mod compare;
mod cut;
mod error;
mod line;
mod maker;
mod number;
mod read;
mod record;
mod said;
mod survey;
mod table;
mod tidy;
mod winners;
mod write;

pub use certificate::{Bearer, Certificate, LineEntry, LiveCount};
pub use checker::check;
pub use error::CheckErr;
pub use maker::certify;
pub use read::CertErr;
