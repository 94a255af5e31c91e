//! The lines of refusals.

ghost use Rattle.std.specs.Prelude.{◌≡◌, ◌≤◌, ◌++◌, codes};
ghost use Rattle.pblk_model.specs.Text.{newline};
ghost use Rattle.pblk_model.specs.CommandText.{image_line, script_line, geometry_reason, words_line, memory_line};
ghost use Rattle.command_text.specs.Says.{Says};

use crate::line::tell;
use crate::number_line::{tell_number, tell_numbers};
use pblk_model::{GeometryErr, ImageErr, ScriptErr};
use pblk_outside::Sink;

/// Writes the line of words that are no command.
pub fn tell_words<O: Sink>(out: &mut O)
    ensures said { Says words_line (O.view out.old) (O.view out.new) }
    ensures same_told { (O.view out.new).told ≡ (O.view out.old).told }
    ensures never_falls { (O.view out.old).faults ≤ (O.view out.new).faults }
{
    tell(out, &[b"words\n"]);
}

/// Writes the line of want of memory.
pub fn tell_memory<O: Sink>(out: &mut O)
    ensures said { Says memory_line (O.view out.old) (O.view out.new) }
    ensures same_told { (O.view out.new).told ≡ (O.view out.old).told }
    ensures never_falls { (O.view out.old).faults ≤ (O.view out.new).faults }
{
    tell(out, &[b"memory\n"]);
}

/// Writes the line of bytes that are no image, or of numbers that are no drive.
pub fn tell_image<O: Sink>(out: &mut O, error: &ImageErr)
    ensures said { Says (image_line error.now) (O.view out.old) (O.view out.new) }
    ensures same_told { (O.view out.new).told ≡ (O.view out.old).told }
    ensures never_falls { (O.view out.old).faults ≤ (O.view out.new).faults }
{
    match *error {
        ImageErr::Magic => tell(out, &[b"image Magic\n"]),
        ImageErr::Version => tell(out, &[b"image Version\n"]),
        ImageErr::Geometry(reason) => tell_geometry(out, reason),
        ImageErr::Short(bytes) => tell_number(out, b"image Short", bytes),
        ImageErr::Long => tell(out, &[b"image Long\n"]),
        ImageErr::Chunk { unit, chunk, rule } => {
            tell_numbers(out, b"image Chunk", unit, chunk, rule);
        }
        ImageErr::Settings(rule) => tell_number(out, b"image Settings", u64::from(rule)),
        ImageErr::Memory => tell_memory(out),
    }
}

// Writes the line of an image whose geometry isn't accepted.
fn tell_geometry<O: Sink>(out: &mut O, reason: GeometryErr)
    ensures said { Says (codes "image Geometry " ++ geometry_reason reason ++ newline)
        (O.view out.old) (O.view out.new) }
    ensures same_told { (O.view out.new).told ≡ (O.view out.old).told }
    ensures never_falls { (O.view out.old).faults ≤ (O.view out.new).faults }
{
    match reason {
        GeometryErr::Length => tell(out, &[b"image Geometry Length\n"]),
        GeometryErr::Field(offset) => {
            tell_number(out, b"image Geometry Field", u64::from(offset));
        }
        GeometryErr::Profile(rule) => {
            tell_number(out, b"image Geometry Profile", u64::from(rule));
        }
    }
}

/// Writes the line of a script that isn't accepted.
pub fn tell_script<O: Sink>(out: &mut O, error: &ScriptErr)
    ensures said { Says (script_line error.now) (O.view out.old) (O.view out.new) }
    ensures same_told { (O.view out.new).told ≡ (O.view out.old).told }
    ensures never_falls { (O.view out.old).faults ≤ (O.view out.new).faults }
{
    match *error {
        ScriptErr::Form(line) => tell_number(out, b"script Form", u64::from(line)),
        ScriptErr::Limit(line) => tell_number(out, b"script Limit", u64::from(line)),
        ScriptErr::Range(line) => tell_number(out, b"script Range", u64::from(line)),
        ScriptErr::NeverPosted(line) => tell_number(out, b"script NeverPosted", u64::from(line)),
        ScriptErr::Stuck(line) => tell_number(out, b"script Stuck", u64::from(line)),
        ScriptErr::Memory => tell_memory(out),
    }
}
