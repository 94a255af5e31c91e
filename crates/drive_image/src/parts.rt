//! The header and the geometry of an image.

ghost use Rattle.std.specs.Prelude.{◌≡◌, ◌+◌, ◌^◌, ◌<◌, ◌≤◌, ◌++◌, length, IfOk, None, Some};
ghost use Rattle.std.specs.Int.{w32, w64};
ghost use Rattle.std.specs.Option.{option_map};
ghost use Rattle.std.specs.Result.{result_err};
ghost use Rattle.pblk_model.specs.declared.image.ImageErr.TheVariants as errors;
ghost use Rattle.pblk_model.specs.Accepted.{IsAccepted, settings_checks};
ghost use Rattle.pblk_model.specs.Bytes.{number_at};
ghost use Rattle.pblk_model.specs.Checks.{first_failing, first_refusal};
ghost use Rattle.pblk_model.specs.Geometry.{geometry_refusal, shape_with};
ghost use Rattle.pblk_model.specs.ImageFile.{geometry_at, shape_at, short_of};
ghost use Rattle.ocssd_geometry.specs.Numbers.{numbers_of, IsGeometry};
ghost use Rattle.drive_image.specs.Parts.{header_refusals, number_refusals};

use crate::fields::{u32_at, u64_at};
use crate::numbers::{Settings, check_settings};
use ocssd_drive::Geometry;
use pblk_model::{DESCRIPTORS_AT, HEADER_LEN, ImageErr};

/// The geometry and the settings that an image's first two parts say.
#[derive(Clone, Copy, Debug)]
pub(crate) struct Numbers {
    pub(crate) geometry: Geometry,
    pub(crate) settings: Settings,
}

/// Whether the input has the bytes of a part that ends at `end`.
pub(crate) fn check_reaches(bytes: &[u8], end: usize) -> Result<(), ImageErr>
    ensures refused { result_err result ≡ short_of bytes.now end }
    ensures reaches { IfOk result (λ _. end ≤ length bytes.now) }
{
    if bytes.len() < end {
        return Err(ImageErr::Short(bytes.len() as u64));
    }
    Ok(())
}

/// The numbers of an image, where they are those of a drive with a target on it.
pub(crate) fn read_numbers(bytes: &[u8]) -> Result<Numbers, ImageErr>
    ensures refused { let b = bytes.now
        in result_err result ≡ first_refusal (header_refusals b ++ number_refusals b) }
    ensures geometry { IfOk result (λ n. numbers_of n.geometry ≡ geometry_at bytes.now) }
    ensures geometry_accepted { IfOk result (λ n. IsGeometry n.geometry) }
    ensures shape { IfOk result (λ n. let s = n.settings
        in shape_with (numbers_of n.geometry) s.sector s.capacity s.ring ≡ shape_at bytes.now) }
    ensures accepted { IfOk result (λ _. IsAccepted (shape_at bytes.now)) }
    ensures reaches { IfOk result (λ _. DESCRIPTORS_AT ≤ length bytes.now) }
{
    check_header(bytes)?;
    check_reaches(bytes, DESCRIPTORS_AT)?;
    let geometry = read_geometry(bytes)?;
    let (sector, capacity, ring) = (u32_at(bytes, 12), u64_at(bytes, 16), u64_at(bytes, 24));
    let settings = settings_of(&geometry, sector, capacity, ring)?;
    Ok(Numbers { geometry, settings })
}

// Whether the input begins as an image of this version.
fn check_header(bytes: &[u8]) -> Result<(), ImageErr>
    ensures refused { result_err result ≡ first_refusal (header_refusals bytes.now) }
    ensures reaches { IfOk result (λ _. HEADER_LEN ≤ length bytes.now) }
{
    check_reaches(bytes, HEADER_LEN)?;
    let magic = &bytes[..8];
    if magic != b"PBLKOCSD".as_slice() {
        return Err(ImageErr::Magic);
    }
    if u32_at(bytes, 8) != 1 {
        return Err(ImageErr::Version);
    }
    Ok(())
}

// The geometry of an image.
fn read_geometry(bytes: &[u8]) -> Result<Geometry, ImageErr>
    requires { DESCRIPTORS_AT ≤ length bytes.now }
    ensures refused { let refusal = geometry_refusal (geometry_at bytes.now)
        in result_err result ≡ option_map errors.Geometry refusal }
    ensures numbers { IfOk result (λ g. numbers_of g ≡ geometry_at bytes.now) }
    ensures accepted { IfOk result IsGeometry }
{
    let part = &bytes[HEADER_LEN..DESCRIPTORS_AT];
    match Geometry::read(part) {
        Ok(geometry) => Ok(geometry),
        Err(refusal) => Err(ImageErr::Geometry(refusal)),
    }
}

// The settings of these numbers, on a drive of an accepted geometry.
fn settings_of(
    geometry: &Geometry,
    sector: u32,
    capacity: u64,
    ring: u64,
) -> Result<Settings, ImageErr>
    requires { IsGeometry geometry.now }
    ensures refused { let s = shape_with (numbers_of geometry.now) sector capacity ring
        in result_err result ≡ option_map errors.Settings (first_failing (settings_checks s)) }
    ensures sector { IfOk result (λ s. s.sector ≡ sector) }
    ensures capacity { IfOk result (λ s. s.capacity ≡ capacity) }
    ensures ring { IfOk result (λ s. s.ring ≡ ring) }
    ensures accepted { let s = shape_with (numbers_of geometry.now) sector capacity ring
        in IfOk result (λ _. IsAccepted s) }
{
    let settings = Settings {
        sector,
        capacity,
        ring: ring_of(ring),
    };
    check_settings(geometry, &settings)?;
    Ok(settings)
}

// The ring's size as the settings have it: one that doesn't fit is 0, which isn't accepted either.
fn ring_of(ring: u64) -> u32
    ensures fits { ring < 2 ^ 32 → result ≡ ring }
    ensures large { 2 ^ 32 ≤ ring → result ≡ 0 }
{
    u32::try_from(ring).unwrap_or(0)
}
