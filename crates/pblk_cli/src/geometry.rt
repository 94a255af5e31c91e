//! `geometry`: the numbers of an image.

ghost use Rattle.std.specs.Prelude.{◌≡◌};
ghost use Rattle.pblk_cli.specs.Commands.{GeometryComesTo};
ghost use Rattle.pblk_cli.specs.Endings.{ending_of};

use crate::input::read_drive;
use crate::output::Output;
use crate::refusal::Refusal;
use command_text::geometry_text;
use pblk_outside::Files;
use std::alloc::Global;

/// Reads an image and tells its numbers.
pub(crate) fn geometry<'a, F: Files>(
    alloc: Global,
    image: &'a str,
    files: &mut F,
) -> Result<Output, Refusal<'a>>
    ensures comes { GeometryComesTo image.now (ending_of result)
        (F.view files.old) (F.view files.new) }
    ensures told { (F.view files.new).told ≡ (F.view files.old).told }
{
    let drive = match read_drive(alloc, image, files) {
        Ok(drive) => drive,
        Err(refusal) => return Err(refusal),
    };
    match geometry_text(alloc, &drive) {
        Ok(text) => Ok(Output::done(text)),
        Err(_) => Err(Refusal::Memory),
    }
}
