//! The transcript of a run.
ghost use Rattle.std.specs.Prelude.{◌≡◌, IfOk};
ghost use Rattle.pblk_model.specs.Text.{text_of};
ghost use Rattle.run_report.specs.Recorded.{IsRecorded};
ghost use Rattle.run_report.specs.Report.{transcript_of};

use crate::history::{kept, put_history};
use crate::outcomes::{put_closing, put_opening, put_threads};
use crate::rows::rows;
use pblk_model::Script;
use run_threads::Records;
use std::alloc::{AllocError, Global};

/// The text of a run's transcript, by its script, its records, and the end of what the image that the run left
/// holds. Fails only for want of memory.
///
/// The history has a line for each sector of each write that was placed, by rising positions. Its lines at
/// positions below the end are kept.
pub fn transcript(
    alloc: Global,
    script: &Script,
    records: &Records,
    end: u64,
) -> Result<Vec<u8>, AllocError>
    requires { IsRecorded script.now records.now }
    ensures { IfOk result (λ bytes.
        bytes.items ≡ text_of (transcript_of script.now records.now end)) }
{
    let threads = records.threads.as_slice();
    let rows = rows(alloc, script.as_slice(), threads)?;
    let mut out = String::new(alloc);
    put_history(&mut out, &rows)?;
    put_threads(&mut out, threads)?;
    put_opening(&mut out, records.opening)?;
    put_closing(&mut out, records.closing)?;
    let kept = kept(&rows, end);
    writeln!(out, "kept {kept}")?;
    Ok(out.into_bytes())
}
