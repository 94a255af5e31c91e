//! The numbers of a drive and of the target on it.

ghost use Rattle.std.specs.Prelude.{◌≡◌, IfOk};
ghost use Rattle.std.specs.Option.{option_map};
ghost use Rattle.std.specs.Result.{result_err};
ghost use Rattle.pblk_model.specs.declared.image.ImageErr.TheVariants as errors;
ghost use Rattle.pblk_model.specs.Accepted.{IsAccepted, settings_checks};
ghost use Rattle.pblk_model.specs.Checks.{first_failing};
ghost use Rattle.pblk_model.specs.CommandText.{blank_refusal};
ghost use Rattle.pblk_model.specs.Geometry.{shape_with};
ghost use Rattle.ocssd_geometry.specs.Numbers.{numbers_of, IsGeometry};

use ocssd_drive::Geometry;
use pblk_model::ImageErr;

/// The settings of the target on a drive. Any numbers may stand in it.
#[derive(Clone, Copy, Debug, PartialEq, Eq)]
pub struct Settings {
    /// The size of a block in bytes.
    pub sector: u32,
    /// The number of user sectors.
    pub capacity: u64,
    /// The number of entries of the write buffer.
    pub ring: u32,
}

/// Whether there are drives of this geometry with these settings.
pub(crate) fn check_numbers(geometry: &Geometry, settings: &Settings) -> Result<(), ImageErr>
    ensures refused { let s = settings.now
        in result_err result ≡ blank_refusal (numbers_of geometry.now) s.sector s.capacity s.ring }
    ensures geometry { IfOk result (λ _. IsGeometry geometry.now) }
    ensures accepted { let s = settings.now
        in let shape = shape_with (numbers_of geometry.now) s.sector s.capacity s.ring
        in IfOk result (λ _. IsAccepted shape) }
{
    match geometry.refusal() {
        Some(refusal) => Err(ImageErr::Geometry(refusal)),
        None => check_settings(geometry, settings),
    }
}

/// Whether a drive of this geometry, which is accepted, has such settings.
pub(crate) fn check_settings(geometry: &Geometry, settings: &Settings) -> Result<(), ImageErr>
    requires { IsGeometry geometry.now }
    ensures refused { let s = settings.now
        in let shape = shape_with (numbers_of geometry.now) s.sector s.capacity s.ring
        in result_err result ≡ option_map errors.Settings (first_failing (settings_checks shape)) }
    ensures accepted { let s = settings.now
        in let shape = shape_with (numbers_of geometry.now) s.sector s.capacity s.ring
        in IfOk result (λ _. IsAccepted shape) }
{
    let shape = geometry.shape(settings.sector, settings.capacity, settings.ring);
    match shape.broken_setting() {
        Some(rule) => Err(ImageErr::Settings(rule)),
        None => Ok(()),
    }
}
