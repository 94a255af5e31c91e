//! The lines that may be collected.

ghost use Rattle.std.specs.Prelude.{◌≡◌, ◌+◌, ◌<◌, ◌^◌, length, replicate, slice_set, Some, None, IfOk, IfSome, IfNone};
ghost use Rattle.victim_index.specs.Choice.{IsBest, HoldsNone};

use crate::candidate::Candidate;
use crate::held::Held;
use crate::tournament::{named, settle};
use std::alloc::{AllocError, Global};
use std::marker::Model;

/// The lines that may be collected, each with what the choice looks at.
///
/// Contracts see a list of as many rows as the drive has lines, by the lines' numbers: what is held of a line,
/// and None where it isn't held.
#[derive(Drop)]
pub struct Victims {
    // what is held of each line
    rows: Vec<Option<Candidate>>,
    // the better of each two lines, of each two of these, and so on up to the best of all
    winners: Vec<Option<Held>>,
}

impl Model for Victims {
    ghost use Rattle.std.specs.Prelude.{◌<◌, ◌^◌, List, length, Option};
    ghost use Rattle.victim_index.specs.declared.candidate.Candidate.{Candidate};
    ghost use Rattle.victim_index.specs.Tournament.{IsTournament};

    ghost Value = { List (Option Candidate) };

    ghost view = { λ v. v.rows.items };

    ghost invariant = { λ v. IsTournament v.rows.items v.winners.items };
}

impl Victims {
    /// Holds none of so many lines.
    ///
    /// Fails only where there isn't the memory for them, a few words each. No later call takes any.
    pub fn new(alloc: Global, lines: u32) -> Result<Victims, AllocError>
        ensures { IfOk result (λ v. v ≡ replicate lines None) }
    {
        let rows = vec![in alloc; None; lines as usize]?;
        let winners = vec![in alloc; None; lines as usize]?;
        Ok(Victims { rows, winners })
    }

    /// Holds a line with this, whether or not it was held before. The line is one of the drive's.
    pub fn set(&mut self, line: u32, failed: bool, live: u32, seq: u64)
        requires { line < length self.old }
        ensures { self.new ≡ slice_set self.old line
            (Some (record { failed = failed; live = live; seq = seq })) }
    {
        self.put(line, Some(Candidate { failed, live, seq }));
    }

    /// Holds a line no more, if it was held. The line is one of the drive's.
    pub fn remove(&mut self, line: u32)
        requires { line < length self.old }
        ensures { self.new ≡ slice_set self.old line None }
    {
        self.put(line, None);
    }

    // Makes this what is held of a line.
    fn put(&mut self, line: u32, row: Option<Candidate>)
        requires { line < length self.old }
        ensures { self.new ≡ slice_set self.old line row }
    {
        self.rows[line as usize] = row;
        settle(&self.rows, &mut self.winners, line);
    }

    /// The line that is collected first of those that are held. None exactly where none is held.
    ///
    /// It is a failed line before another, then the one of fewest live sectors, then the one of least sequence
    /// number. Of lines that agree in all three it is the one of least number.
    pub fn best(&self) -> Option<u32>
        ensures best { IfSome result (IsBest self.now) }
        ensures none { IfNone result (HoldsNone self.now) }
    {
        if self.rows.is_empty() {
            return None;
        }
        let best = named(&self.rows, &self.winners, 1)?;
        Some(best.line)
    }
}
