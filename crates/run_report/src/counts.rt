//! What `soak` prints of a run.
ghost use Rattle.std.specs.Prelude.{◌≡◌, ◌≤◌, ◌<◌, ◌^◌, IfOk};
ghost use Rattle.run_report.specs.Recorded.{IsRecorded};
ghost use Rattle.run_report.specs.Report.{transcript_of};
ghost use Rattle.run_report.specs.Totals.{count_of, thread_total, total, totals_line};

use crate::history::kept;
use crate::rows::rows;
use pblk_model::{Command, Commands, Script};
use run_threads::Records;
use std::alloc::{AllocError, Global};

/// What of a script is counted.
#[derive(Clone, Copy, Debug)]
pub(crate) enum Counted {
    Commands,
    Writes,
    /// The sectors that its writes have.
    Sectors,
    Reads,
    Flushes,
}

/// The line that sums up a run of a script: how many commands the script has, how many of them are
/// writes, how many sectors these have, how many are reads and flushes, and how many lines of the
/// history of the run's transcript are kept. It is by the script, the run's records, and the end of
/// what the image that the run left holds. Fails only for want of memory.
pub fn totals(
    alloc: Global,
    script: &Script,
    records: &Records,
    end: u64,
) -> Result<Vec<u8>, AllocError>
    requires { IsRecorded script.now records.now }
    ensures { IfOk result (λ bytes. bytes.items
        ≡ totals_line script.now (transcript_of script.now records.now end).kept) }
{
    let threads = script.as_slice();
    let rows = rows(alloc, threads, records.threads.as_slice())?;
    let kept = kept(&rows, end);
    let commands = count(threads, Counted::Commands);
    let writes = count(threads, Counted::Writes);
    let sectors = count(threads, Counted::Sectors);
    let reads = count(threads, Counted::Reads);
    let flushes = count(threads, Counted::Flushes);
    let mut out = String::new(alloc);
    writeln!(
        out,
        "soak commands {commands} writes {writes} sectors {sectors} reads {reads} flushes {flushes} kept {kept}"
    )?;
    Ok(out.into_bytes())
}

// How much of this a script has.
fn count(script: &[Commands], what: Counted) -> u64
    requires { total what script.now < 2 ^ 64 }
    ensures { result ≡ total what script.now }
{
    let mut count = 0;
    for commands in script {
        count += count_in(commands.as_slice(), what);
    }
    count
}

// How much of this a thread has.
fn count_in(commands: &[Command], what: Counted) -> u64
    requires { thread_total what commands.now < 2 ^ 64 }
    ensures { result ≡ thread_total what commands.now }
{
    let mut count = 0;
    for command in commands {
        count += u64::from(count_of(command, what));
    }
    count
}

// How much of this a command is.
fn count_of(command: &Command, what: Counted) -> u32
    ensures { result ≡ count_of what command.now }
{
    match (what, command) {
        (Counted::Sectors, Command::Write { count, .. }) => *count,
        (Counted::Commands, _)
        | (Counted::Writes, Command::Write { .. })
        | (Counted::Reads, Command::Read { .. })
        | (Counted::Flushes, Command::Flush) => 1,
        _ => 0,
    }
}
