//! `parity` and `rebuild`: an image and the parity of its drive.

ghost use Rattle.std.specs.Prelude.{ℕ, ◌≡◌, ◌<◌, IfOk, IfErr, string_bytes};
ghost use Rattle.pblk_model.specs.CommandText.{number_line};
ghost use Rattle.pblk_model.specs.Shape.{units as unit_count};
ghost use Rattle.drive_image.specs.Quiet.{IsQuiet};
ghost use Rattle.ocssd_drive.specs.Drive.{IsWhole, shape_of, stored};
ghost use Rattle.stripe_parity.specs.Rebuilding.{drive_image};
ghost use Rattle.pblk_cli.specs.Commands.{ParityComesTo, RebuildComesTo};
ghost use Rattle.pblk_cli.specs.Endings.{ending_of, reason_of};
ghost use Rattle.pblk_cli.specs.Rebuilding.{IsAnew, IsParityStored, IsRefusedAs, IsRebuiltStored, RefusesRebuild};

use crate::input::{drive_of, read_drive};
use crate::output::Output;
use crate::refusal::Refusal;
use crate::run::read_both;
use drive_image::into_image;
use ocssd_drive::Drive;
use pblk_outside::Files;
use std::alloc::{AllocError, Global};
use stripe_parity::{Parity, ParityErr, make_for, pad_drive, rebuild};

/// Reads an image and closes the Open chunks of its drive. Stores the drive under the image's name,
/// and then the file of its parity under the other one.
pub(crate) fn make_parity<'a, F: Files>(
    alloc: Global,
    image: &'a str,
    parity: &'a str,
    files: &mut F,
) -> Result<Output, Refusal<'a>>
    ensures comes { ParityComesTo image.now parity.now (ending_of result)
        (F.view files.old) (F.view files.new) }
    ensures told { (F.view files.new).told ≡ (F.view files.old).told }
{
    let drive = match read_drive(alloc, image, files) {
        Ok(drive) => drive,
        Err(refusal) => return Err(refusal),
    };
    let Ok((stored, made, text)) = padded_parity(alloc, drive) else {
        return Err(Refusal::Memory);
    };
    match files.write(image, &stored) {
        Ok(()) => {}
        Err(_) => return Err(Refusal::Failed(image)),
    }
    match files.write(parity, &made) {
        Ok(()) => Ok(Output::done(text)),
        Err(_) => Err(Refusal::Failed(parity)),
    }
}

// The bytes of a drive whose Open chunks were closed, those of its parity, and what is told.
fn padded_parity(alloc: Global, drive: Drive) -> Result<(Vec<u8>, Vec<u8>, String), AllocError>
    requires quiet { IsQuiet drive }
    requires whole { IsWhole drive }
    ensures { IfOk result (λ made. IsParityStored (stored drive) made.0.items made.1.items
        (string_bytes made.2)) }
{
    let mut drive = drive;
    match pad_drive(alloc, &mut drive) {
        Ok(()) => {}
        Err(_) => return Err(AllocError),
    }
    let Ok(parity) = make_for(alloc, &mut drive) else {
        return Err(AllocError);
    };
    let mut made = Vec::new(alloc);
    parity.write(&mut made)?;
    drop(parity);
    let text = told(alloc, "parity", made.len() as u64)?;
    let stored = into_image(alloc, drive)?;
    Ok((stored, made, text))
}

// The line of a word and a number.
fn told(alloc: Global, word: &str, number: u64) -> Result<String, AllocError>
    ensures { IfOk result (λ text. string_bytes text ≡ number_line word.now number) }
{
    let mut text = String::new(alloc);
    writeln!(text, "{word} {number}")?;
    Ok(text)
}

/// Reads an image and the file of a parity, makes a unit of the image's drive anew, and stores the
/// drive under the image's name.
pub(crate) fn rebuild_unit<'a, F: Files>(
    alloc: Global,
    image: &'a str,
    parity: &'a str,
    unit: u32,
    files: &mut F,
) -> Result<Output, Refusal<'a>>
    ensures comes { RebuildComesTo image.now parity.now unit (ending_of result)
        (F.view files.old) (F.view files.new) }
    ensures told { (F.view files.new).told ≡ (F.view files.old).told }
{
    let (image_bytes, bytes) = match read_both(alloc, image, parity, files) {
        Ok(read) => read,
        Err(refusal) => return Err(refusal),
    };
    let drive = match drive_of(alloc, image_bytes) {
        Ok(drive) => drive,
        Err(refusal) => return Err(refusal),
    };
    let (stored, output) = match rebuilt(alloc, drive, &bytes, unit) {
        Ok(made) => made,
        Err(refusal) => return Err(refusal),
    };
    match files.write(image, &stored) {
        Ok(()) => Ok(output),
        Err(_) => Err(Refusal::Failed(image)),
    }
}

// The bytes of a drive whose unit was made anew from the file of a parity, and what is told.
fn rebuilt<'a>(
    alloc: Global,
    drive: Drive,
    bytes: &[u8],
    unit: u32,
) -> Result<(Vec<u8>, Output), Refusal<'a>>
    requires quiet { IsQuiet drive }
    requires whole { IsWhole drive }
    ensures made { IfOk result (λ made. IsRebuiltStored (stored drive) bytes.now unit
        made.1.status made.1.text.items made.0.items) }
    ensures refused { IfErr result (λ refusal.
        RefusesRebuild (stored drive) bytes.now unit (reason_of refusal)) }
{
    let shape = drive.shape();
    if unit >= shape.units() {
        return Err(Refusal::Words);
    }
    rebuilt_unit(alloc, drive, bytes, unit)
}

// The same of a unit that the drive has.
fn rebuilt_unit<'a>(
    alloc: Global,
    drive: Drive,
    bytes: &[u8],
    unit: u32,
) -> Result<(Vec<u8>, Output), Refusal<'a>>
    requires quiet { IsQuiet drive }
    requires whole { IsWhole drive }
    requires within { unit < unit_count (shape_of drive) }
    ensures made { IfOk result (λ made. IsRebuiltStored (stored drive) bytes.now unit
        made.1.status made.1.text.items made.0.items) }
    ensures refused { IfErr result (λ refusal.
        RefusesRebuild (stored drive) bytes.now unit (reason_of refusal)) }
{
    let mut drive = drive;
    match rebuild_from(alloc, &mut drive, bytes, unit) {
        Ok(blocks) => {
            let text = told(alloc, "rebuilt", u64::from(blocks))?;
            let stored = into_image(alloc, drive)?;
            Ok((stored, Output::done(text)))
        }
        Err(e) => Err(refusal_of(e)),
    }
}

// Makes a unit of a drive anew from the file of a parity, and tells how many blocks it has.
fn rebuild_from(alloc: Global, drive: &mut Drive, bytes: &[u8], unit: u32) -> Result<u32, ParityErr>
    requires quiet { IsQuiet drive.old }
    requires within { unit < unit_count (shape_of drive.old) }
    ensures anew { IfOk result (λ blocks. IsAnew drive.old drive.new bytes.now unit blocks) }
    ensures refused { IfErr result (IsRefusedAs (drive_image drive.old) unit bytes.now) }
{
    let shape = drive.shape();
    let parity = Parity::read(alloc, bytes, &shape)?;
    // the parity is one of this shape
    let _ = parity.shape();
    match rebuild(alloc, drive, &parity, unit) {
        Ok(blocks) => Ok(blocks),
        Err(e) => Err(e),
    }
}

// The refusal of a parity.
fn refusal_of<'a>(e: ParityErr) -> Refusal<'a>
    ensures memory { e ≡ ParityErr.Memory → result ≡ Refusal.Memory }
    ensures parity { (e ≡ ParityErr.Memory → ⊥) → result ≡ Refusal.Parity e }
{
    match e {
        ParityErr::Memory => Refusal::Memory,
        e => Refusal::Parity(e),
    }
}
