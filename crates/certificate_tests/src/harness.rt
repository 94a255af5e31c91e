//! Images, their certificates, and what is told of them.

ghost use Rattle.image_check.specs.Right.{IsInOrder};

use image_check::{CertErr, Certificate, CheckErr, certify, check};
use image_crew::{Step, joined, restored};
use ocssd_drive::Drive;
use std::alloc::{AllocError, Global};
use std::process::Abort;

/// An image, the lines of a certificate, and what is told of it: what the refusal is, or whether
/// the image is tidy.
#[derive(Clone, Copy)]
pub(crate) struct Case {
    pub(crate) steps: &'static [Step],
    pub(crate) lines: &'static [&'static str],
    pub(crate) told: &'static str,
}

/// Checks each certificate against its image.
pub(crate) fn compare(rt: &impl Abort, alloc: Global, cases: &[Case]) -> Result<(), AllocError> {
    for case in cases {
        let told = told(alloc, case)?;
        assert_eq!(rt; told.as_str(), case.told);
    }
    Ok(())
}

/// The certificate that is made of an image, as its lines.
pub(crate) fn certified(alloc: Global, steps: &[Step]) -> Result<String, AllocError> {
    let drive = restored(alloc, steps)?;
    let certificate = certify(alloc, &drive)?;
    let mut out = Vec::new(alloc);
    certificate.write(&mut out)?;
    match String::from_utf8(out) {
        Ok(text) => Ok(text),
        Err(_) => Err(AllocError),
    }
}

/// What is told of an image by these lines with one of them replaced, or left out where the other
/// is empty.
pub(crate) fn swapped(
    alloc: Global,
    steps: &[Step],
    lines: &[&str],
    line: &str,
    other: &str,
) -> Result<String, AllocError> {
    let mut text = String::new(alloc);
    for kept in lines {
        let put = if *kept == line { other } else { *kept };
        if !put.is_empty() {
            text.push_str(put)?;
            text.push('\n')?;
        }
    }
    told_of(alloc, steps, &text)
}

/// Why the first bytes of a text are no certificate, for each number of them: the number of the
/// refused line, or 0 where they are one.
pub(crate) fn refusals(alloc: Global, text: &[u8]) -> Result<Vec<u32>, AllocError> {
    let mut lines = Vec::new(alloc);
    for count in 0..text.len() {
        lines.push(match Certificate::read(alloc, &text[..count]) {
            Ok(_) => 0,
            Err(CertErr::Form(line)) => line,
            Err(CertErr::Memory) => return Err(AllocError),
        })?;
    }
    Ok(lines)
}

fn told(alloc: Global, case: &Case) -> Result<String, AllocError> {
    let text = joined(alloc, case.lines)?;
    told_of(alloc, case.steps, &text)
}

fn told_of(alloc: Global, steps: &[Step], text: &str) -> Result<String, AllocError> {
    let drive = restored(alloc, steps)?;
    let mut out = String::new(alloc);
    match Certificate::read(alloc, text.as_bytes()) {
        Ok(certificate) => put_check(alloc, &mut out, &drive, &certificate)?,
        Err(CertErr::Form(line)) => write!(out, "certificate Form {line}")?,
        Err(CertErr::Memory) => return Err(AllocError),
    }
    Ok(out)
}

fn put_check(
    alloc: Global,
    out: &mut String,
    drive: &Drive,
    certificate: &Certificate,
) -> Result<(), AllocError>
    requires { IsInOrder certificate.now }
{
    match check(alloc, drive, certificate) {
        Ok(true) => write!(out, "tidy yes"),
        Ok(false) => write!(out, "tidy no"),
        Err(CheckErr::Line(line)) => write!(out, "check Line {line}"),
        Err(CheckErr::Head) => write!(out, "check Head"),
        Err(CheckErr::Bearer(position)) => write!(out, "check Bearer {position}"),
        Err(CheckErr::End) => write!(out, "check End"),
        Err(CheckErr::Winner(lba)) => write!(out, "check Winner {lba}"),
        Err(CheckErr::Live(line)) => write!(out, "check Live {line}"),
        Err(CheckErr::Memory) => Err(AllocError),
    }
}
