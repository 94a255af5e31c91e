//! `certify` and `check`: certificates of what images hold.

ghost use Rattle.std.specs.Prelude.{ℕ, ◌≡◌, IfOk, IfErr, length, string_bytes};
ghost use Rattle.pblk_model.specs.ImageFile.{image_of};
ghost use Rattle.ocssd_drive.specs.Drive.{stored};
ghost use Rattle.command_text.specs.Certificates.{certified_text};
ghost use Rattle.pblk_cli.specs.Certifying.{IsChecked, RefusesChecked};
ghost use Rattle.pblk_cli.specs.Commands.{CertifyComesTo, CheckComesTo, IsMadeOf};
ghost use Rattle.pblk_cli.specs.Endings.{ending_of, reason_of};

use crate::input::{drive_of, read_drive};
use crate::output::Output;
use crate::refusal::Refusal;
use crate::run::read_both;
use command_text::{certified_text, checked_text};
use image_check::{CertErr, Certificate, CheckErr};
use ocssd_drive::Drive;
use pblk_outside::Files;
use std::alloc::{AllocError, Global};

/// Reads an image, makes the certificate of what it holds, and stores it under the certificate's
/// name.
pub(crate) fn certify<'a, F: Files>(
    alloc: Global,
    image: &'a str,
    certificate: &'a str,
    files: &mut F,
) -> Result<Output, Refusal<'a>>
    ensures comes { CertifyComesTo image.now certificate.now (ending_of result)
        (F.view files.old) (F.view files.new) }
    ensures told { (F.view files.new).told ≡ (F.view files.old).told }
{
    let drive = match read_drive(alloc, image, files) {
        Ok(drive) => drive,
        Err(refusal) => return Err(refusal),
    };
    let (made, text) = match certified(alloc, &drive) {
        Ok(made) => made,
        Err(_) => return Err(Refusal::Memory),
    };
    match files.write(certificate, &made) {
        Ok(()) => Ok(Output::done(text)),
        Err(_) => Err(Refusal::Failed(certificate)),
    }
}

// The bytes of the certificate of a drive, and what is told of them.
fn certified(alloc: Global, drive: &Drive) -> Result<(Vec<u8>, String), AllocError>
    ensures made { IfOk result (λ made. IsMadeOf (image_of (stored drive.now)) made.0.items) }
    ensures text { IfOk result (λ made. string_bytes made.1
        ≡ certified_text (length made.0.items)) }
{
    let certificate = image_check::certify(alloc, drive)?;
    let mut bytes = Vec::new(alloc);
    certificate.write(&mut bytes)?;
    let text = certified_text(alloc, bytes.as_slice().len())?;
    Ok((bytes, text))
}

/// Reads an image and a certificate, and tells whether the certificate is right for the image, and
/// whether the image is tidy.
pub(crate) fn check<'a, F: Files>(
    alloc: Global,
    image: &'a str,
    certificate: &'a str,
    files: &mut F,
) -> Result<Output, Refusal<'a>>
    ensures comes { CheckComesTo image.now certificate.now (ending_of result)
        (F.view files.old) (F.view files.new) }
    ensures told { (F.view files.new).told ≡ (F.view files.old).told }
{
    let (bytes, text) = match read_both(alloc, image, certificate, files) {
        Ok(read) => read,
        Err(refusal) => return Err(refusal),
    };
    checked(alloc, bytes, &text)
}

// What is told of an image of these bytes, and of a certificate with that text.
fn checked<'a>(alloc: Global, bytes: Vec<u8>, text: &[u8]) -> Result<Output, Refusal<'a>>
    ensures checked { IfOk result (λ output.
        IsChecked bytes.items text.now output.status output.text.items) }
    ensures refused { IfErr result (λ refusal.
        RefusesChecked bytes.items text.now (reason_of refusal)) }
{
    let drive = match drive_of(alloc, bytes) {
        Ok(drive) => drive,
        Err(refusal) => return Err(refusal),
    };
    let certificate = match Certificate::read(alloc, text) {
        Ok(certificate) => certificate,
        Err(e) => return Err(unread(e)),
    };
    let tidy = match image_check::check(alloc, &drive, &certificate) {
        Ok(tidy) => tidy,
        Err(e) => return Err(unlike(e)),
    };
    match checked_text(alloc, tidy) {
        Ok(text) => Ok(Output::done(text)),
        Err(_) => Err(Refusal::Memory),
    }
}

// The refusal of bytes that are no certificate.
fn unread<'a>(e: CertErr) -> Refusal<'a>
    ensures memory { e ≡ CertErr.Memory → result ≡ Refusal.Memory }
    ensures form { (line : ℕ) → e ≡ CertErr.Form line → result ≡ Refusal.Certificate line }
{
    match e {
        CertErr::Form(line) => Refusal::Certificate(line),
        CertErr::Memory => Refusal::Memory,
    }
}

// The refusal of a certificate that isn't right.
fn unlike<'a>(e: CheckErr) -> Refusal<'a>
    ensures memory { e ≡ CheckErr.Memory → result ≡ Refusal.Memory }
    ensures check { (e ≡ CheckErr.Memory → ⊥) → result ≡ Refusal.Check e }
{
    match e {
        CheckErr::Memory => Refusal::Memory,
        e => Refusal::Check(e),
    }
}
