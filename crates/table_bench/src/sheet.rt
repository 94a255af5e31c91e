//! What was measured.

use anyhow::Result;
use std::alloc::Global;
use std::rt::Clock;
use std::time::Duration;

/// What was measured of a call.
#[derive(Clone, Copy, Debug)]
struct Row {
    name: &'static str,
    turns: u64,
    /// What its answers in a round sum up to.
    answers: u64,
    /// Of the quickest round.
    nanos: u64,
}

/// What was measured of each call.
#[derive(Debug, Drop)]
pub(crate) struct Sheet {
    rows: Vec<Row>,
    start: Duration,
}

fn nanos(time: Duration) -> u64 {
    time.as_secs()
        .saturating_mul(1_000_000_000)
        .saturating_add(u64::from(time.subsec_nanos()))
}

impl Sheet {
    pub(crate) fn new(alloc: Global) -> Sheet {
        Sheet {
            rows: Vec::new(alloc),
            start: Duration::ZERO,
        }
    }

    /// A loop begins now.
    pub(crate) fn start<C: Clock>(&mut self, clock: &C) -> Result<()> {
        self.start = clock.monotonic()?;
        Ok(())
    }

    /// The loop that began last ends now. It made so many calls of this name, whose answers sum up to this.
    pub(crate) fn stop<C: Clock>(
        &mut self,
        clock: &C,
        name: &'static str,
        turns: u64,
        answers: u64,
    ) -> Result<()> {
        let nanos = nanos(clock.monotonic()?.saturating_sub(self.start));
        for row in self.rows.as_mut_slice() {
            if row.name == name {
                row.nanos = row.nanos.min(nanos);
                return Ok(());
            }
        }
        self.rows.push(Row {
            name,
            turns,
            answers,
            nanos,
        })?;
        Ok(())
    }

    pub(crate) fn print<R: Print>(&self, rt: &R, has_times: bool) -> Result<()> {
        for row in self.rows.as_slice() {
            let last = if has_times { row.nanos } else { row.answers };
            println!(rt; "{} {} {last}", row.name, row.turns)?;
        }
        Ok(())
    }
}
