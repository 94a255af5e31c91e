//! The lines with a sequence number, and the newest start record among them.

ghost use Rattle.std.specs.Prelude.{◌≡◌, ◌+◌, IfOk, OnOk, nat_lt, true};
ghost use Rattle.std.specs.Option.{option_map, option_map_or};
ghost use Rattle.pblk_model.specs.Contents.{head};
ghost use Rattle.pblk_model.specs.Image.{Image};
ghost use Rattle.pblk_model.specs.ImageFile.{image_of};
ghost use Rattle.pblk_meta.specs.Records.{start_numbers};
ghost use Rattle.ocssd_drive.specs.Drive.{stored};
ghost use Rattle.image_check.specs.Right.{entries_of};
ghost use Rattle.image_check.specs.Surveys.{IsSurvey};

use crate::certificate::LineEntry;
use crate::line::Line;
use ocssd_drive::Drive;
use pblk_meta::StartRecord;
use std::alloc::{AllocError, Global};

/// The rows of the lines with a sequence number, and the head: the newest start record.
#[derive(Debug, Drop)]
pub(crate) struct Survey {
    pub lines: Vec<LineEntry>,
    pub head: Option<StartRecord>,
}

/// Those of a drive.
pub(crate) fn survey_of(alloc: Global, drive: &Drive) -> Result<Survey, AllocError>
    ensures lines { IfOk result (λ s. s.lines.items ≡ entries_of (image_of (stored drive.now))) }
    ensures head { IfOk result (λ s.
        option_map start_numbers s.head ≡ head (image_of (stored drive.now))) }
{
    let mut survey = Survey {
        lines: Vec::new(alloc),
        head: None,
    };
    for number in 0..drive.shape().chunks {
        survey.add(alloc, &Line::new(drive, number))?;
    }
    Ok(survey)
}

// Whether a start record is later than the best so far.
fn is_later(best: &Option<StartRecord>, start: &StartRecord) -> bool
    ensures { result ≡ option_map_or (λ b. nat_lt b.seq start.now.seq) best.now true }
{
    match best {
        None => true,
        Some(best) => best.seq < start.seq,
    }
}

impl Survey {
    // Adds the next line.
    fn add(&mut self, alloc: Global, line: &Line<'_>) -> Result<(), AllocError>
        ensures { IsSurvey line.now.image line.now.number self.old
            → OnOk result (IsSurvey line.now.image (line.now.number + 1) self.new) }
    {
        let Some(start) = line.start(alloc)? else {
            return Ok(());
        };
        let full = line.end(alloc, start.seq)?.is_some();
        self.lines.push(LineEntry {
            line: line.number(),
            seq: start.seq,
            full,
        })?;
        if is_later(&self.head, &start) {
            self.head = Some(start);
        }
        Ok(())
    }
}
