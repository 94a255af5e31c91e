//! `create`: a blank image of any accepted drive.

ghost use Rattle.std.specs.Prelude.{◌≡◌, length, None, IfOk, IfErr, string_bytes};
ghost use Rattle.command_words.specs.Words.{numbers_seen};
ghost use Rattle.pblk_model.specs.CommandText.{created_drive, created_geometry, created_refusal, least_bits};
ghost use Rattle.pblk_model.specs.ImageFile.{IsImage, image_bytes, image_of};
ghost use Rattle.rest_laws.specs.Tidy.{IsTidy};
ghost use Rattle.ocssd_geometry.specs.Numbers.{numbers_of};
ghost use Rattle.pblk_cli.specs.Commands.{CreateComesTo};
ghost use Rattle.pblk_cli.specs.Endings.{ending_of};
ghost use Rattle.pblk_cli.specs.Creating.{MakesNothing};

use crate::output::Output;
use crate::refusal::Refusal;
use command_text::created_text;
use command_words::CreateNumbers;
use drive_image::{Settings, blank, store};
use ocssd_geometry::Geometry;
use pblk_model::ImageErr;
use pblk_outside::Files;
use rest_laws::a_blank_image_is_tidy;
use std::alloc::Global;

/// Makes the blank image of a drive of these numbers, which is tidy, and stores it under the
/// image's name.
pub(crate) fn create<'a, F: Files>(
    alloc: Global,
    image: &'a str,
    numbers: &CreateNumbers,
    files: &mut F,
) -> Result<Output, Refusal<'a>>
    ensures comes { CreateComesTo image.now (numbers_seen numbers.now) (ending_of result)
        (F.view files.old) (F.view files.new) }
    ensures told { (F.view files.new).told ≡ (F.view files.old).told }
{
    let made = match make(alloc, numbers) {
        Ok(made) => made,
        Err(ImageErr::Memory) => return Err(Refusal::Memory),
        Err(e) => return Err(Refusal::Image(e)),
    };
    let Ok(text) = created_text(alloc, made.len()) else {
        return Err(Refusal::Memory);
    };
    match files.write(image, &made) {
        Ok(()) => Ok(Output::done(text)),
        Err(_) => Err(Refusal::Failed(image)),
    }
}

// The bytes of the image.
fn make(alloc: Global, numbers: &CreateNumbers) -> Result<Vec<u8>, ImageErr>
    ensures made { IfOk result (λ bytes.
        bytes.items ≡ image_bytes (created_drive (numbers_seen numbers.now))) }
    ensures tidy { IfOk result (λ bytes.
        IsTidy (image_of (created_drive (numbers_seen numbers.now)))) }
    ensures spelled { IfOk result (λ bytes.
        IsImage (image_bytes (created_drive (numbers_seen numbers.now)))
        (created_drive (numbers_seen numbers.now))) }
    ensures accepted { IfOk result (λ bytes. created_refusal (numbers_seen numbers.now) ≡ None) }
    ensures refused { IfErr result (λ e. MakesNothing (numbers_seen numbers.now) e) }
{
    let geometry = geometry_of(numbers);
    let settings = Settings {
        sector: numbers.sector,
        capacity: numbers.capacity,
        ring: numbers.ring,
    };
    let drive = blank(alloc, &geometry, &settings)?;
    a_blank_image_is_tidy();
    let mut bytes = Vec::new(alloc);
    match store(&drive, &mut bytes) {
        Ok(()) => Ok(bytes),
        Err(_) => Err(ImageErr::Memory),
    }
}

// The geometry of a drive of these numbers, with the least lengths of an address's fields.
fn geometry_of(numbers: &CreateNumbers) -> Geometry
    ensures { numbers_of result ≡ created_geometry (numbers_seen numbers.now) }
{
    Geometry {
        mjr: 2,
        mnr: 0,
        lengths: [
            least_bits(u32::from(numbers.groups)),
            least_bits(u32::from(numbers.units)),
            least_bits(numbers.chunks),
            least_bits(numbers.blocks),
        ],
        mccap: 0,
        wit: 0,
        groups: numbers.groups,
        pus: numbers.units,
        chunks: numbers.chunks,
        clba: numbers.blocks,
        ws_min: numbers.ws_min,
        ws_opt: numbers.ws_opt,
        mw_cunits: numbers.mw,
        maxoc: 0,
        maxocpu: 0,
    }
}

// How many powers of two, from 1 on, are below a count.
fn least_bits(count: u32) -> u8
    ensures { result ≡ least_bits count }
{
    let mut bits = 0;
    for power in 0..32u32 {
        if 1u64 << power < u64::from(count) {
            bits += 1;
        }
    }
    bits
}
