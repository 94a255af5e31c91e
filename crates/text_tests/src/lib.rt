//! Tests of the texts that the program reads and prints, on public calls: scripts, words, lines of
//! refusals, transcripts, listings and reports.
#![tactic(auto)]

#[cfg(test)]
mod report;
#[cfg(test)]
mod script;
#[cfg(test)]
mod words;
