//! The lines of refusals that name a file.

ghost use Rattle.std.specs.Prelude.{◌≡◌, ◌≤◌, ◌<◌, ◌++◌, IsTrue, false, take, length, OnOk, OnErr};
ghost use Rattle.std.specs.List.{AllByRecursion};
ghost use Rattle.pblk_model.specs.Text.{newline};
ghost use Rattle.pblk_model.specs.CommandText.{failed_line, missing_line, shown_name, name_byte, hex_digit};
ghost use Rattle.command_text.specs.Says.{Says, HasTaken, HasFailed};
ghost use Rattle.command_text.specs.Names.{is_control};

use crate::line::write;
use pblk_outside::{Sink, SinkErr};

/// Writes the line of a file that could not be read or written.
///
/// A control character of ASCII in its name is written as `\x` and two lower-case hexadecimal
/// digits.
pub fn tell_failed<O: Sink>(out: &mut O, name: &str)
    ensures said { Says (failed_line name.now) (O.view out.old) (O.view out.new) }
    ensures same_told { (O.view out.new).told ≡ (O.view out.old).told }
    ensures never_falls { (O.view out.old).faults ≤ (O.view out.new).faults }
{
    tell_file(out, b"files Failed ", name);
}

/// Writes the line of a file that isn't there, its name as in that of a file that failed.
pub fn tell_missing<O: Sink>(out: &mut O, name: &str)
    ensures said { Says (missing_line name.now) (O.view out.old) (O.view out.new) }
    ensures same_told { (O.view out.new).told ≡ (O.view out.old).told }
    ensures never_falls { (O.view out.old).faults ≤ (O.view out.new).faults }
{
    tell_file(out, b"files Missing ", name);
}

// Writes the line of a file, after what befell it.
fn tell_file<O: Sink>(out: &mut O, kind: &[u8], name: &str)
    ensures said { Says (kind.now ++ shown_name name.now ++ newline)
        (O.view out.old) (O.view out.new) }
    ensures same_told { (O.view out.new).told ≡ (O.view out.old).told }
    ensures never_falls { (O.view out.old).faults ≤ (O.view out.new).faults }
{
    match write_file(out, kind, name) {
        Ok(()) => {}
        Err(SinkErr::Failed) => {}
    }
}

// Writes the same, as the sink writes a piece.
fn write_file<O: Sink>(out: &mut O, kind: &[u8], name: &str) -> Result<(), SinkErr>
    ensures took { OnOk result (HasTaken (kind.now ++ shown_name name.now ++ newline)
        (O.view out.old) (O.view out.new)) }
    ensures failed { OnErr result (HasFailed (kind.now ++ shown_name name.now ++ newline)
        (O.view out.old) (O.view out.new)) }
{
    write(out, kind)?;
    write_name(out, name.as_bytes())?;
    write(out, b"\n")
}

// Writes a name: runs of plain bytes as they are, and each control character by itself.
fn write_name<O: Sink>(out: &mut O, name: &[u8]) -> Result<(), SinkErr>
    ensures took { OnOk result (HasTaken (shown_name name.now) (O.view out.old) (O.view out.new)) }
    ensures failed { OnErr result
        (HasFailed (shown_name name.now) (O.view out.old) (O.view out.new)) }
{
    let mut rest = name;
    while let [byte, others @ ..] = rest {
        if is_control(*byte) {
            write(out, &escaped(*byte))?;
            rest = others;
        } else {
            let (plain, later) = rest.split_at(1 + plain_length(others));
            write(out, plain)?;
            rest = later;
        }
    }
    Ok(())
}

// How many bytes stand before the first control character.
fn plain_length(name: &[u8]) -> usize
    ensures within { result ≤ length name.now }
    ensures plain { AllByRecursion (λ byte. is_control byte ≡ false) (take result name.now) }
{
    for (place, byte) in name.iter().enumerate() {
        if is_control(*byte) {
            return place;
        }
    }
    name.len()
}

// Whether a byte is a control character of ASCII.
fn is_control(byte: u8) -> bool
    ensures { result ≡ is_control byte }
{
    byte < 32 || byte == 127
}

// A control character as it is shown.
fn escaped(byte: u8) -> [u8; 4]
    requires { IsTrue (is_control byte) }
    ensures { result ≡ name_byte byte }
{
    [b'\\', b'x', hex_digit(byte / 16), hex_digit(byte % 16)]
}

// A digit of base 16.
fn hex_digit(digit: u8) -> u8
    requires { digit < 16 }
    ensures { result ≡ hex_digit digit }
{
    if digit < 10 {
        b'0' + digit
    } else {
        b'a' + (digit - 10)
    }
}
