//! What the lines of a drive bear, one after another.

ghost use Rattle.std.specs.Prelude.{◌≡◌, ◌+◌, ◌<◌, ℕ, length, IfOk, OnOk};
ghost use Rattle.pblk_model.specs.Image.{Image};
ghost use Rattle.scan_recovery.specs.Survey.{IsSeen, IsSurvey, seen_line};
ghost use Rattle.pblk_model.specs.Tables.{IsTable};

use crate::counting::Count;
use crate::starts::LineStart;
use std::alloc::{AllocError, Global};

/// What is found of a line: its sequence number where its start record is whole, whether its end
/// record is whole, and whether it has a chunk that is neither Free nor Offline.
#[derive(Clone, Copy, Debug)]
pub(crate) struct SeenLine {
    pub seq: Option<u64>,
    pub full: bool,
    pub used: bool,
}

/// What is found of the lines that were read so far: a row for each, and what their records come
/// to.
#[derive(Debug, Drop)]
pub(crate) struct Survey {
    pub lines: Vec<SeenLine>,
    pub count: Count,
}

impl Survey {
    /// That of no lines, on a drive of so many user sectors and lines.
    pub(crate) fn new(alloc: Global, sectors: u64, lines: u32) -> Result<Survey, AllocError>
        ensures { (i : Image) → i.shape.capacity ≡ sectors → i.shape.chunks ≡ lines
            → IfOk result (IsSurvey i 0) }
    {
        Ok(Survey {
            lines: Vec::new(alloc),
            count: Count::new(alloc, sectors, lines)?,
        })
    }
    /// Adds the row of the next line, whose front told this.
    pub(crate) fn push(&mut self, start: LineStart, full: bool) -> Result<(), AllocError>
        ensures row { (i : Image) (line : ℕ) → IsSeen i line start full
            → IsTable line (seen_line i) self.old.lines.items
            → OnOk result (IsTable (line + 1) (seen_line i) self.new.lines.items) }
        ensures count { self.new.count ≡ self.old.count }
    {
        let LineStart { seq, used } = start;
        self.lines.push(SeenLine { seq, full, used })?;
        Ok(())
    }
}
