//! The call that the program is.

ghost use Rattle.std.specs.Prelude.{◌≡◌, ◌≤◌, map, string_bytes};
ghost use Rattle.std.specs.Process.{exit_status};
ghost use Rattle.command_words.specs.Words.{seen};
ghost use Rattle.pblk_cli.specs.Commands.{CallEnds, ComesTo, IsWithinLimits};
ghost use Rattle.pblk_cli.specs.Endings.{ending_of};
ghost use Rattle.pblk_cli.specs.Program.{ProgramEnds};

use crate::certificates::{certify, check};
use crate::create::create;
use crate::geometry::geometry;
use crate::output::Output;
use crate::parity::{make_parity, rebuild_unit};
use crate::refusal::{Refusal, finish};
use crate::run::run;
use crate::show::{report_numbers, show};
use crate::soak::soak;
use command_text::{tell_memory, tell_words};
use command_words::{CommandLine, read_words};
use pblk_outside::{Files, Sink, WordsErr};
use std::alloc::Global;
use std::process::ExitCode;
use std::sync::Wait;
use std::thread::Threads;

/// Runs the command that the words are, and answers its status.
///
/// | Status | Comes |
/// |---|---|
/// | 0 | the command did all its work, and its text was written |
/// | 1 | the words are no command; `soak` on under 32 sectors; `rebuild` of no unit of the drive |
/// | 2 | the script is refused |
/// | 3 | the image is refused, or what `create` is to make; or the parity, or the certificate |
/// | 4 | a file could not be read or written, or isn't there |
/// | 5 | a run's text has an `e` line, which names an event of a unit; the text was written |
/// | 6 | a run's text has no `e` line, but a `worn` line: there was no room; the text was written |
/// | 7 | there was no memory: of `create`, only for numbers that aren't refused |
/// | 8 | the command did its work, and its text could not be written whole |
///
/// With each status but 0, 5, 6 and 8 one line says why. The words are judged first; then files are
/// read, the image before the script, the parity or the certificate; then the image is judged, then
/// the unit that is to be made anew, then the other file. Files are written before the text, the
/// image before its parity. A run may wait: nothing says that its call returns.
///
/// `parity` closes the Open chunks of the image, which leaves what a sealed one holds, and makes a
/// file of its parity. `rebuild` makes a unit anew from that file and from the other units. Where
/// the parity is that of a drive with which the one found agrees on all other units, the image left
/// is that drive's, chunk by chunk.
///
/// `certify` makes a certificate that is right for the image. `check` says yes only where the
/// certificate is right for the image, and refuses none that is; it tells whether the image is
/// tidy. Neither changes the image.
///
/// `soak` makes the load of a number, of so many rounds, for the drive of the image, and runs it as
/// `run` runs a script, with two lanes and a collector. In place of the transcript it writes one
/// line that sums the run up. It names no stop and no plan, so its status isn't 5. All that is said
/// of a run holds of it. Over a sealed image, with status 0, the image left holds what it held,
/// after the load's writes, thread after thread.
///
/// Whether the image is sealed or not, an `f` line counts lines of the history that are synced in
/// the end, and no others. Where neither opening nor the close has a line, all of the history is
/// synced.
///
/// An `e` line comes only where a stop was named, or a plan by which a fetch of that line's unit
/// fails. A program or a reset that fails is no error, and has no line.
///
/// Over a tidy image a run in which no command fails, and whose text names no event of a unit, does
/// all that its script says, and its text has no line of an error, as long as the numbers of the
/// image left are far from their ends. So does one that is told of no stop and of no plan. The
/// image left is tidy again, and the one that `create` makes is tidy.
pub fn pblk_main<R: Threads + Wait + Sync, F: Files, O: Sink>(
    rt: &R,
    alloc: Global,
    words: &[String],
    files: &mut F,
    out: &mut O,
) -> u8
    ensures ends { CallEnds (map string_bytes words.now) (record {
      status = result;
      files = F.view files.old;
      files_after = F.view files.new;
      out = O.view out.old;
      out_after = O.view out.new;
    }) }
    ensures files_tell { (F.view files.new).told ≡ (F.view files.old).told }
    ensures out_tells { (O.view out.new).told ≡ (O.view out.old).told }
    ensures never_falls { (O.view out.old).faults ≤ (O.view out.new).faults }
{
    let Some(command) = read_words(words) else {
        tell_words(out);
        return 1;
    };
    match do_command(rt, alloc, command, files) {
        Ok(output) => finish(&output, out),
        Err(refusal) => refusal.refuse(out),
    }
}

// What a command comes to.
fn do_command<'a, R: Threads + Wait + Sync, F: Files>(
    rt: &R,
    alloc: Global,
    command: CommandLine<'a>,
    files: &mut F,
) -> Result<Output, Refusal<'a>>
    requires limits { IsWithinLimits (seen command) }
    ensures comes { ComesTo (seen command.entry) (ending_of result)
        (F.view files.old) (F.view files.new) }
    ensures told { (F.view files.new).told ≡ (F.view files.old).told }
{
    match command {
        CommandLine::Create { image, numbers } => create(alloc, image, &numbers, files),
        CommandLine::Geometry { image } => geometry(alloc, image, files),
        CommandLine::Show { image } => show(alloc, image, files),
        CommandLine::Report { image } => report_numbers(alloc, image, files),
        CommandLine::Parity { image, parity } => make_parity(alloc, image, parity, files),
        CommandLine::Rebuild {
            image,
            parity,
            unit,
        } => rebuild_unit(alloc, image, parity, unit, files),
        CommandLine::Certify { image, certificate } => certify(alloc, image, certificate, files),
        CommandLine::Check { image, certificate } => check(alloc, image, certificate, files),
        CommandLine::Run {
            image,
            script,
            options,
        } => run(rt, alloc, image, script, &options, files),
        CommandLine::Soak {
            image,
            number,
            rounds,
        } => soak(rt, alloc, image, number, rounds, files),
    }
}

/// Runs the command that the words are, as `pblk_main` does, and gives its status as the program's
/// exit code. Words that could not be had are answered here: 1 where one is no text, and 7 for want
/// of memory, each with its line.
pub fn pblk_program<R: Threads + Wait + Sync, F: Files, O: Sink>(
    rt: &R,
    alloc: Global,
    words: Result<Vec<String>, WordsErr>,
    files: &mut F,
    out: &mut O,
) -> ExitCode
    ensures ends { ProgramEnds words (record {
      status = exit_status result;
      files = F.view files.old;
      files_after = F.view files.new;
      out = O.view out.old;
      out_after = O.view out.new;
    }) }
    ensures files_tell { (F.view files.new).told ≡ (F.view files.old).told }
    ensures out_tells { (O.view out.new).told ≡ (O.view out.old).told }
    ensures never_falls { (O.view out.old).faults ≤ (O.view out.new).faults }
{
    match words {
        Ok(words) => ExitCode::from(pblk_main(rt, alloc, &words, files, out)),
        Err(WordsErr::NotText) => {
            tell_words(out);
            ExitCode::from(1)
        }
        Err(WordsErr::Memory) => {
            tell_memory(out);
            ExitCode::from(7)
        }
    }
}
