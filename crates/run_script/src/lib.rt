//! Scripts, read from bytes.
#![tactic(auto)]

ghost use Rattle.std.specs.Prelude.{◌≡◌, ◌==◌, [], ◌∷◌, ℕ, List, IfOk, IfErr, Ok, Err};
ghost use Rattle.pblk_laws.specs.ScriptLines.{AreLinesOf};
ghost use Rattle.pblk_model.specs.declared.script.Command.{Command};
ghost use Rattle.pblk_model.specs.Script.{NeverStuck, ScriptFits};
ghost use Rattle.pblk_model.specs.ScriptText.{IsScript, Heard, heard_after, is_skipped, spoken, read_script};
ghost use Rattle.run_script.specs.Heard.{IsRead};
ghost use Rattle.run_script.specs.Reading.{BeginsWell, Gives, Refuses};

mod names;
mod number;
mod reader;
mod said;
mod thread;
mod turns;
mod words;

use crate::reader::Reader;
use pblk_laws::{a_read_script_is_spelled, a_spelled_script_is_read};
use pblk_model::{Script, ScriptErr};
use std::alloc::Global;

/// A line must begin before this offset.
const MOST_BYTES: u64 = 4_194_304;

/// Reads the script that these bytes are, for a target of this capacity in sectors.
///
/// A script is lines, each ended by a newline, which the last one may lack. They are numbered from
/// 1, and a number stands still at 2^32 - 1. Empty lines and those that begin with `#` are
/// skipped. Every other line is `thread`, `w LBA COUNT TAG`, `r LBA COUNT`, `f`, `post NAME` or
/// `await NAME`, its words parted by one space. A number is spelled without a leading 0 and is
/// below 2^64, and a name has 1 to 16 lower-case letters or digits.
///
/// The first line that is refused decides, by the first of these that holds of it: `Form` where it
/// has no such form, or is a command before the first thread, or posts a name a second time;
/// `Limit` where it is the seventeenth thread or the 200,001st command, has a COUNT that isn't 1
/// to 16, or begins past the first 4,194,304 bytes; `Range` where LBA + COUNT is above the
/// capacity. Then come `NeverPosted`, with the least line that awaits a name that nobody posts,
/// and `Stuck`, with the least line at which a thread waits for ever when the threads are run on,
/// in turns, until nothing moves. `Memory` where there was none to keep what a line says, which
/// then isn't refused, or for a script that isn't refused. Once all lines are kept, no memory is
/// taken to judge the awaits and to run the threads on.
pub fn read_script(alloc: Global, bytes: &[u8], capacity: u64) -> Result<Script, ScriptErr>
    // The answer is what the definition gives, unless memory ran out.
    ensures read { Gives result (read_script capacity bytes.now) }
    // Memory runs out only after a line that isn't refused.
    ensures memory { result ≡ Err ScriptErr.Memory → BeginsWell capacity bytes.now }
    ensures script { IfOk result (λ script. IsScript capacity bytes.now script) }

    // What is read is spelled so, fits the target, and its threads never get stuck.
    ensures spelled { IfOk result (λ script. AreLinesOf bytes.now script) }
    ensures fits { IfOk result (λ script. ScriptFits capacity script) }
    ensures flows { IfOk result (λ script. NeverStuck script) }

    // What is spelled so is read, where it fits and its threads never get stuck.
    ensures only { (script : List (List Command)) → AreLinesOf bytes.now script
        → ScriptFits capacity script → NeverStuck script → Gives result (Ok script) }
{
    a_read_script_is_spelled();
    a_spelled_script_is_read();
    judge(alloc, bytes, capacity)
}

// The script, or the first refusal.
fn judge(alloc: Global, bytes: &[u8], capacity: u64) -> Result<Script, ScriptErr>
    ensures read { Gives result (read_script capacity bytes.now) }
    ensures memory { result ≡ Err ScriptErr.Memory → BeginsWell capacity bytes.now }
{
    read_lines(alloc, bytes, capacity)?.finish(alloc)
}

// Reads the lines, up to the first that is refused.
fn read_lines(alloc: Global, bytes: &[u8], capacity: u64) -> Result<Reader, ScriptErr>
    ensures read { IfOk result (λ reader. (heard : Heard)
        × IsRead reader heard × (heard_after capacity [] (spoken bytes.now) ≡ Ok heard)) }
    ensures refused { IfErr result (λ e. Refuses e (heard_after capacity [] (spoken bytes.now))) }
    ensures memory { result ≡ Err ScriptErr.Memory → BeginsWell capacity bytes.now }
{
    let mut reader = Reader::new(alloc, capacity);
    let mut number: u32 = 1;
    let mut offset: u64 = 0;
    for line in bytes.split(|byte| *byte == b'\n') {
        if !is_skipped(line) {
            reader.read_line(alloc, number, offset < MOST_BYTES, line)?;
        }
        number = number.saturating_add(1);
        offset = offset.saturating_add(line.len() as u64).saturating_add(1);
    }
    Ok(reader)
}

// Whether a line is empty or begins with `#`.
fn is_skipped(line: &[u8]) -> bool
    ensures { result ≡ is_skipped line.now }
{
    matches!(line, [] | [b'#', ..])
}
