//! Drives on which nothing is written.

ghost use Rattle.std.specs.Prelude.{◌≡◌, IfOk, IsOkUnless, None, Some, Err};
ghost use Rattle.pblk_model.specs.declared.image.ImageErr.{ImageErr};
ghost use Rattle.pblk_model.specs.declared.image.ImageErr.TheVariants as errors;
ghost use Rattle.pblk_model.specs.Accepted.{IsAccepted};
ghost use Rattle.pblk_model.specs.CommandText.{blank_refusal};
ghost use Rattle.pblk_model.specs.Geometry.{shape_with};
ghost use Rattle.pblk_model.specs.ImageFile.{blank_drive};
ghost use Rattle.ocssd_geometry.specs.Numbers.{numbers_of, IsGeometry};
ghost use Rattle.ocssd_drive.specs.Drive.{IsWhole, new_drive, stored};
ghost use Rattle.drive_image.specs.Quiet.{IsQuiet};

use crate::numbers::{Settings, check_numbers};
use ocssd_drive::{Drive, Geometry};
use pblk_model::ImageErr;
use std::alloc::{AllocError, Global};

/// A drive of this geometry with these settings on which nothing is written: its chunks are Free
/// and not worn, its units' logs are empty, and it isn't armed.
///
/// Refused, in this order: `Geometry` with what the geometry's own `refusal` finds; `Settings` with
/// the first rule that doesn't hold, by the numbers of `Shape::refusal`; `Memory` where there isn't
/// enough for all blocks of the drive.
pub fn blank(alloc: Global, geometry: &Geometry, settings: &Settings) -> Result<Drive, ImageErr>
    ensures refused { let s = settings.now
        in let refusal = blank_refusal (numbers_of geometry.now) s.sector s.capacity s.ring
        in (e : ImageErr) → refusal ≡ Some e → result ≡ Err e }
    ensures taken { let s = settings.now
        in let refusal = blank_refusal (numbers_of geometry.now) s.sector s.capacity s.ring
        in refusal ≡ None → IsOkUnless result errors.Memory }
    ensures blank { let s = settings.now
        in let drive = blank_drive (numbers_of geometry.now) s.sector s.capacity s.ring
        in IfOk result (λ d. stored d ≡ drive) }
    ensures new { let s = settings.now
        in IfOk result (λ d. d ≡ new_drive geometry.now s.sector s.capacity s.ring) }
    ensures quiet { IfOk result IsQuiet }
    ensures whole { IfOk result IsWhole }
{
    check_numbers(geometry, settings)?;
    made(alloc, geometry, settings)
}

/// A drive on which nothing is written, of numbers that are accepted.
pub(crate) fn made(
    alloc: Global,
    geometry: &Geometry,
    settings: &Settings,
) -> Result<Drive, ImageErr>
    requires geometry { IsGeometry geometry.now }
    requires accepted { let s = settings.now
        in IsAccepted (shape_with (numbers_of geometry.now) s.sector s.capacity s.ring) }
    ensures memory { IsOkUnless result errors.Memory }
    ensures blank { let s = settings.now
        in let drive = blank_drive (numbers_of geometry.now) s.sector s.capacity s.ring
        in IfOk result (λ d. stored d ≡ drive) }
    ensures new { let s = settings.now
        in IfOk result (λ d. d ≡ new_drive geometry.now s.sector s.capacity s.ring) }
    ensures quiet { IfOk result IsQuiet }
    ensures whole { IfOk result IsWhole }
{
    let Settings {
        sector,
        capacity,
        ring,
    } = *settings;
    match Drive::new(alloc, *geometry, sector, capacity, ring) {
        Ok(drive) => Ok(drive),
        Err(AllocError) => Err(ImageErr::Memory),
    }
}
