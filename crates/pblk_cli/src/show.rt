//! `show` and `report`: what an image holds.

ghost use Rattle.std.specs.Prelude.{◌≡◌, IfOk, string_bytes};
ghost use Rattle.ocssd_drive.specs.Drive.{stored};
ghost use Rattle.pblk_cli.specs.Commands.{ReportComesTo, ShowComesTo};
ghost use Rattle.pblk_cli.specs.Contents.{numbers_text, show_text};
ghost use Rattle.pblk_cli.specs.Endings.{ending_of};

use crate::input::read_drive;
use crate::output::Output;
use crate::refusal::Refusal;
use ocssd_drive::Drive;
use pblk_outside::Files;
use run_report::{listing, report};
use scan_recovery::{contents, summary};
use std::alloc::{AllocError, Global};

/// Reads an image and lists the sectors that it holds.
pub(crate) fn show<'a, F: Files>(
    alloc: Global,
    image: &'a str,
    files: &mut F,
) -> Result<Output, Refusal<'a>>
    ensures comes { ShowComesTo image.now (ending_of result) (F.view files.old) (F.view files.new) }
    ensures told { (F.view files.new).told ≡ (F.view files.old).told }
{
    let drive = match read_drive(alloc, image, files) {
        Ok(drive) => drive,
        Err(refusal) => return Err(refusal),
    };
    match sectors_text(alloc, drive) {
        Ok(text) => Ok(Output { status: 0, text }),
        Err(_) => Err(Refusal::Memory),
    }
}

/// Reads an image and tells its numbers as one object of JSON: those of its chunks, and of what it
/// holds.
pub(crate) fn report_numbers<'a, F: Files>(
    alloc: Global,
    image: &'a str,
    files: &mut F,
) -> Result<Output, Refusal<'a>>
    ensures comes { ReportComesTo image.now (ending_of result)
        (F.view files.old) (F.view files.new) }
    ensures told { (F.view files.new).told ≡ (F.view files.old).told }
{
    let drive = match read_drive(alloc, image, files) {
        Ok(drive) => drive,
        Err(refusal) => return Err(refusal),
    };
    match numbers_text(alloc, &drive) {
        Ok(text) => Ok(Output::done(text)),
        Err(_) => Err(Refusal::Memory),
    }
}

// The listing of a drive's sectors. The drive is let go before it is made.
fn sectors_text(alloc: Global, drive: Drive) -> Result<Vec<u8>, AllocError>
    ensures { IfOk result (λ text. text.items ≡ show_text (stored drive)) }
{
    let held = contents(alloc, &drive)?;
    drop(drive);
    listing(alloc, &held)
}

// The numbers of a drive and of what its image holds.
fn numbers_text(alloc: Global, drive: &Drive) -> Result<String, AllocError>
    ensures { IfOk result (λ text. string_bytes text ≡ numbers_text (stored drive.now)) }
{
    let held = summary(alloc, drive)?;
    report(alloc, drive, &held)
}
