//! The start records of the lines of a drive, one after another.

ghost use Rattle.std.specs.Prelude.{◌≡◌, ◌+◌, ◌<◌, ◌≤◌, OnOk};
ghost use Rattle.std.specs.Option.{option_map};
ghost use Rattle.pblk_model.specs.Accepted.{IsAccepted};
ghost use Rattle.pblk_model.specs.Image.{Image, IsFit};
ghost use Rattle.pblk_model.specs.Shape.{units};
ghost use Rattle.pblk_meta.specs.Records.{start_numbers};
ghost use Rattle.scan_recovery.specs.Starts.{IsFront, IsStarts, is_later};

use crate::line_records::{Block, start_in};
use pblk_layout::Layout;
use pblk_meta::StartRecord;
use std::alloc::{AllocError, Global};

/// What the front of a line tells: its sequence number where its start record is whole, and whether
/// it has a chunk that is neither Free nor Offline.
#[derive(Clone, Copy, Debug)]
pub(crate) struct LineStart {
    pub seq: Option<u64>,
    pub used: bool,
}

/// What the fronts of the lines tell that were read so far, and the newest of their start records.
#[derive(Debug, Drop)]
pub(crate) struct Starts {
    pub lines: Vec<LineStart>,
    pub head: Option<StartRecord>,
}

// Whether a start record of this sequence number is later than the best so far.
fn is_later(best: &Option<StartRecord>, seq: u64) -> bool
    ensures { result ≡ is_later (option_map start_numbers best.now) seq }
{
    match best {
        None => true,
        Some(best) => best.seq < seq,
    }
}

impl Starts {
    /// That of no lines.
    pub(crate) fn new(alloc: Global) -> Starts
        ensures { (i : Image) → IsStarts i 0 result }
    {
        Starts {
            lines: Vec::new(alloc),
            head: None,
        }
    }

    /// Adds the next line, which has this width, and these blocks at its front: as many as a start
    /// record has, or all where it has fewer. `used` says whether it has a chunk that is neither
    /// Free nor Offline.
    pub(crate) fn add(
        &mut self,
        alloc: Global,
        layout: &Layout,
        line: u32,
        width: u32,
        used: bool,
        blocks: &[Option<Block<'_>>],
    ) -> Result<(), AllocError>
        requires accepted { IsAccepted layout.now }
        requires line { line < layout.now.chunks }
        requires width { width ≤ units layout.now }
        ensures { (i : Image) → i.shape ≡ layout.now → IsFit i
            → IsFront i line width used blocks.now
            → IsStarts i line self.old
            → OnOk result (IsStarts i (line + 1) self.new) }
    {
        let Some(start) = start_in(alloc, layout, line, width, blocks)? else {
            self.lines.push(LineStart { seq: None, used })?;
            return Ok(());
        };
        let seq = Some(start.seq);
        self.lines.push(LineStart { seq, used })?;
        if is_later(&self.head, start.seq) {
            self.head = Some(start);
        }
        Ok(())
    }
}
