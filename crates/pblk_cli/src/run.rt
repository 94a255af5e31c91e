//! `run`: a script on the drive of an image.

ghost use Rattle.std.specs.Prelude.{◌≡◌, ◌≤◌, List, IfOk, IfErr};
ghost use Rattle.pblk_model.specs.Contents.{end};
ghost use Rattle.pblk_model.specs.ImageFile.{image_of};
ghost use Rattle.pblk_model.specs.Script.{NeverStuck, ScriptFits};
ghost use Rattle.pblk_model.specs.declared.script.Command.{Command};
ghost use Rattle.drive_image.specs.Quiet.{IsQuiet};
ghost use Rattle.ocssd_drive.specs.Drive.{stored};
ghost use Rattle.run_report.specs.Recorded.{IsRecorded};
ghost use Rattle.run_report.specs.Report.{transcript_of};
ghost use Rattle.pblk_cli.specs.Commands.{RunComesTo};
ghost use Rattle.pblk_cli.specs.Endings.{ending_of, reason_of};
ghost use Rattle.pblk_cli.specs.Reading.{ReadsFile};
ghost use Rattle.command_words.specs.Words.{options_seen};
ghost use Rattle.pblk_cli.specs.Running.{CannotReadBoth, RefusesScript, IsRunOfScript, IsRunTo, IsStored, said_by};

use crate::drive_run::run_drive;
use crate::input::{drive_of, read_file};
use crate::output::Output;
use crate::refusal::Refusal;
use crate::status::status_of;
use command_words::RunOptions;
use drive_image::into_image;
use ocssd_drive::Drive;
use pblk_model::{Script, ScriptErr};
use pblk_outside::Files;
use run_report::{has_history, totals, transcript};
use run_script::read_script;
use run_threads::Records;
use scan_recovery::summary;
use std::alloc::{AllocError, Global};
use std::sync::Wait;
use std::thread::Threads;

/// What is told of a run.
#[derive(Clone, Copy, Debug)]
pub(crate) enum Telling {
    /// Its transcript.
    Transcript,
    /// The line that sums it up.
    Totals,
}

/// Reads an image and a script, runs the script on the image's drive, stores the drive under the
/// image's name, and gives the transcript.
pub(crate) fn run<'a, R: Threads + Wait + Sync, F: Files>(
    rt: &R,
    alloc: Global,
    image: &'a str,
    script: &'a str,
    options: &RunOptions,
    files: &mut F,
) -> Result<Output, Refusal<'a>>
    requires few_lanes { options.now.lanes ≤ 8 }
    ensures comes { RunComesTo image.now script.now (options_seen options.now) (ending_of result)
        (F.view files.old) (F.view files.new) }
    ensures told { (F.view files.new).told ≡ (F.view files.old).told }
{
    let (image_bytes, script_bytes) = match read_both(alloc, image, script, files) {
        Ok(read) => read,
        Err(refusal) => return Err(refusal),
    };
    // The file's bytes are let go before those to be stored are made.
    let drive = match drive_of(alloc, image_bytes) {
        Ok(drive) => drive,
        Err(refusal) => return Err(refusal),
    };
    let (stored, output) = match read_and_run(rt, alloc, drive, options, &script_bytes) {
        Ok(made) => made,
        Err(refusal) => return Err(refusal),
    };
    match files.write(image, &stored) {
        Ok(()) => Ok(output),
        Err(_) => Err(Refusal::Failed(image)),
    }
}

/// The bytes of both files, of the image's first.
pub(crate) fn read_both<'a, F: Files>(
    alloc: Global,
    image: &'a str,
    script: &'a str,
    files: &mut F,
) -> Result<(Vec<u8>, Vec<u8>), Refusal<'a>>
    ensures image { IfOk result (λ read. ReadsFile image.now read.0.items
        (F.view files.old) (F.view files.new)) }
    ensures script { IfOk result (λ read. ReadsFile script.now read.1.items
        (F.view files.old) (F.view files.new)) }
    ensures refused { IfErr result (λ refusal.
        CannotReadBoth image.now script.now (reason_of refusal)
        (F.view files.old) (F.view files.new)) }
    ensures told { (F.view files.new).told ≡ (F.view files.old).told }
{
    let image_bytes = match read_file(alloc, image, files) {
        Ok(bytes) => bytes,
        Err(refusal) => return Err(refusal),
    };
    match read_file(alloc, script, files) {
        Ok(script_bytes) => Ok((image_bytes, script_bytes)),
        Err(refusal) => Err(refusal),
    }
}

// Reads the script that these bytes are and runs it, with these options: the bytes of the image
// afterwards, and the status and the text of the transcript.
fn read_and_run<'a, R: Threads + Wait + Sync>(
    rt: &R,
    alloc: Global,
    drive: Drive,
    options: &RunOptions,
    script: &[u8],
) -> Result<(Vec<u8>, Output), Refusal<'a>>
    requires quiet { IsQuiet drive }
    requires few_lanes { options.now.lanes ≤ 8 }
    ensures run { IfOk result (λ made. IsRunOfScript (stored drive) (options_seen options.now)
        script.now made.1.status made.1.text.items made.0.items) }
    ensures refused { IfErr result (λ refusal.
        RefusesScript (stored drive).capacity script.now (reason_of refusal)) }
{
    let script = match read_script(alloc, script, drive.capacity) {
        Ok(script) => script,
        Err(e) => return Err(script_refusal_of(e)),
    };
    match run_and_store(rt, alloc, drive, options, &script, Telling::Transcript) {
        Ok(made) => Ok(made),
        Err(_) => Err(Refusal::Memory),
    }
}

// The refusal of a script.
fn script_refusal_of<'a>(e: ScriptErr) -> Refusal<'a>
    ensures memory { e ≡ ScriptErr.Memory → result ≡ Refusal.Memory }
    ensures script { (e ≡ ScriptErr.Memory → ⊥) → result ≡ Refusal.Script e }
{
    match e {
        ScriptErr::Memory => Refusal::Memory,
        e => Refusal::Script(e),
    }
}

/// Runs a script on a drive whose commands fail and stop as the options say, and makes what is
/// stored and what is told.
pub(crate) fn run_and_store<R: Threads + Wait + Sync>(
    rt: &R,
    alloc: Global,
    mut drive: Drive,
    options: &RunOptions,
    script: &Script,
    telling: Telling,
) -> Result<(Vec<u8>, Output), AllocError>
    requires quiet { IsQuiet drive }
    requires fits { ScriptFits drive.capacity script.now }
    requires flows { NeverStuck script.now }
    requires few_lanes { options.now.lanes ≤ 8 }
    ensures { IfOk result (λ made. IsRunTo (stored drive) (options_seen options.now)
        script.now telling made.1.status made.1.text.items made.0.items) }
{
    drive.arm(alloc, options.plans.as_slice(), options.stop)?;
    match run_drive(rt, alloc, drive, script, options.lanes, options.collector) {
        Ok((drive, records)) => store_run(alloc, drive, script, &records, telling),
        Err((e, _)) => Err(e),
    }
}

// What is stored of a drive after a run, and what is told of that.
fn store_run(
    alloc: Global,
    drive: Drive,
    script: &Script,
    records: &Records,
    telling: Telling,
) -> Result<(Vec<u8>, Output), AllocError>
    requires { IsRecorded script.now records.now }
    ensures { IfOk result (λ made. IsStored drive script.now records.now telling
        made.1.status made.1.text.items made.0.items) }
{
    let text = run_text(alloc, script, &drive, records, telling)?;
    let status = status_of(records);
    // The drive is let go unit by unit, so that it and its image aren't held whole beside each
    // other.
    let bytes = into_image(alloc, drive)?;
    Ok((bytes, Output { status, text }))
}

// What is told of a run, by what the drive then holds.
fn run_text(
    alloc: Global,
    script: &Script,
    drive: &Drive,
    records: &Records,
    telling: Telling,
) -> Result<Vec<u8>, AllocError>
    requires { IsRecorded script.now records.now }
    ensures { let left = image_of (stored drive.now) in
        IfOk result (λ text. text.items
        ≡ said_by telling script.now (transcript_of script.now records.now (end left))) }
{
    let end = end_for(alloc, drive, records)?;
    match telling {
        Telling::Transcript => transcript(alloc, script, records, end),
        Telling::Totals => totals(alloc, script, records, end),
    }
}

// An end by which a run's transcript is the one by the end of what the drive holds. Where the
// history is empty any is, and the drive isn't read.
fn end_for(alloc: Global, drive: &Drive, records: &Records) -> Result<u64, AllocError>
    ensures { let left = image_of (stored drive.now) in (script : List (List Command))
        → IfOk result (λ e.
        transcript_of script records.now e ≡ transcript_of script records.now (end left)) }
{
    if has_history(records) {
        let held = summary(alloc, drive)?;
        Ok(held.end)
    } else {
        Ok(0)
    }
}
