//! Reads files, and the drives of the images in them.

ghost use Rattle.std.specs.Prelude.{◌≡◌, IfOk, IfErr, OnOk};
ghost use Rattle.drive_image.specs.Quiet.{IsQuiet};
ghost use Rattle.ocssd_drive.specs.Drive.{IsWhole, stored};
ghost use Rattle.pblk_model.specs.ImageFile.{IsImage};
ghost use Rattle.pblk_cli.specs.Commands.{CannotReadDrive, IsDriveOf};
ghost use Rattle.pblk_cli.specs.Endings.{reason_of};
ghost use Rattle.pblk_cli.specs.Reading.{CannotRead, ReadsFile, RefusesBytes};
ghost use Rattle.pblk_cli.specs.Telling.{AreUntouched};

use crate::refusal::Refusal;
use drive_image::from_image;
use ocssd_drive::Drive;
use pblk_model::ImageErr;
use pblk_outside::{FileErr, Files};
use std::alloc::Global;

/// Reads a file whole.
pub(crate) fn read_file<'a, F: Files>(
    alloc: Global,
    name: &'a str,
    files: &mut F,
) -> Result<Vec<u8>, Refusal<'a>>
    ensures read { IfOk result (λ bytes. ReadsFile name.now bytes.items
        (F.view files.old) (F.view files.new)) }
    ensures refused { IfErr result (λ refusal. CannotRead name.now (reason_of refusal)
        (F.view files.old) (F.view files.new)) }
    ensures told { (F.view files.new).told ≡ (F.view files.old).told }
{
    let mut bytes = Vec::new(alloc);
    match files.read(name, &mut bytes) {
        Ok(()) => Ok(bytes),
        Err(FileErr::Failed) => Err(Refusal::Failed(name)),
        Err(FileErr::Missing) => Err(Refusal::Missing(name)),
        Err(FileErr::Memory) => Err(Refusal::Memory),
    }
}

/// The drive of the image that a file holds. The drive keeps the file's bytes.
pub(crate) fn read_drive<'a, F: Files>(
    alloc: Global,
    image: &'a str,
    files: &mut F,
) -> Result<Drive, Refusal<'a>>
    ensures drive { IfOk result (λ drive.
        IsDriveOf image.now (F.view files.old) (stored drive)) }
    ensures untouched { OnOk result (AreUntouched (F.view files.old) (F.view files.new)) }
    ensures quiet { IfOk result IsQuiet }
    ensures whole { IfOk result IsWhole }
    ensures refused { IfErr result (λ refusal. CannotReadDrive image.now (reason_of refusal)
        (F.view files.old) (F.view files.new)) }
    ensures told { (F.view files.new).told ≡ (F.view files.old).told }
{
    match read_file(alloc, image, files) {
        Ok(bytes) => drive_of(alloc, bytes),
        Err(refusal) => Err(refusal),
    }
}

/// The drive of an image of these bytes, which it keeps; they are let go where they are refused.
pub(crate) fn drive_of<'a>(alloc: Global, bytes: Vec<u8>) -> Result<Drive, Refusal<'a>>
    ensures drive { IfOk result (λ drive. IsImage bytes.items (stored drive)) }
    ensures quiet { IfOk result IsQuiet }
    ensures whole { IfOk result IsWhole }
    ensures refused { IfErr result (λ refusal. RefusesBytes bytes.items (reason_of refusal)) }
{
    match from_image(alloc, bytes) {
        Ok(drive) => Ok(drive),
        Err(e) => Err(refusal_of(e)),
    }
}

// The refusal of an image.
fn refusal_of<'a>(e: ImageErr) -> Refusal<'a>
    ensures memory { e ≡ ImageErr.Memory → result ≡ Refusal.Memory }
    ensures image { (e ≡ ImageErr.Memory → ⊥) → result ≡ Refusal.Image e }
{
    match e {
        ImageErr::Memory => Refusal::Memory,
        e => Refusal::Image(e),
    }
}
