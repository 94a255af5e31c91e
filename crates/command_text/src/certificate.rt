//! What is told of certificates.

ghost use Rattle.std.specs.Prelude.{◌≡◌, ◌≤◌, IfOk, string_bytes};
ghost use Rattle.command_text.specs.Certificates.{certificate_line, certified_text, check_line, checked_text};
ghost use Rattle.command_text.specs.Says.{Says};

use crate::line::tell;
use crate::number_line::tell_number;
use crate::numbers::put_line;
use crate::refusal::tell_memory;
use image_check::CheckErr;
use pblk_outside::Sink;
use std::alloc::{AllocError, Global};

/// What `certify` prints: the length of the certificate's text in bytes. Fails only for want of
/// memory.
pub fn certified_text(alloc: Global, bytes: usize) -> Result<String, AllocError>
    ensures { IfOk result (λ text. string_bytes text ≡ certified_text bytes) }
{
    let mut out = String::new(alloc);
    put_line(&mut out, "certified", bytes as u64)?;
    Ok(out)
}

/// What `check` prints of a certificate that is right: whether its image is tidy. Fails only for
/// want of memory.
pub fn checked_text(alloc: Global, tidy: bool) -> Result<String, AllocError>
    ensures { IfOk result (λ text. string_bytes text ≡ checked_text tidy) }
{
    let mut out = String::new(alloc);
    out.push_str(if tidy {
        "yes\ntidy yes\n"
    } else {
        "yes\ntidy no\n"
    })?;
    Ok(out)
}

/// Writes the line of bytes that are no certificate, with the first line that isn't of one.
pub fn tell_certificate<O: Sink>(out: &mut O, line: u32)
    ensures said { Says (certificate_line line) (O.view out.old) (O.view out.new) }
    ensures same_told { (O.view out.new).told ≡ (O.view out.old).told }
    ensures never_falls { (O.view out.old).faults ≤ (O.view out.new).faults }
{
    tell_number(out, b"certificate Form", u64::from(line));
}

/// Writes the line of a certificate that isn't right.
pub fn tell_check<O: Sink>(out: &mut O, error: &CheckErr)
    ensures said { Says (check_line error.now) (O.view out.old) (O.view out.new) }
    ensures same_told { (O.view out.new).told ≡ (O.view out.old).told }
    ensures never_falls { (O.view out.old).faults ≤ (O.view out.new).faults }
{
    match *error {
        CheckErr::Line(line) => tell_number(out, b"check Line", u64::from(line)),
        CheckErr::Head => tell(out, &[b"check Head\n"]),
        CheckErr::Bearer(position) => tell_number(out, b"check Bearer", position),
        CheckErr::End => tell(out, &[b"check End\n"]),
        CheckErr::Winner(lba) => tell_number(out, b"check Winner", lba),
        CheckErr::Live(line) => tell_number(out, b"check Live", u64::from(line)),
        CheckErr::Memory => tell_memory(out),
    }
}
