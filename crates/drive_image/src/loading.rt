//! Drives from their images.

ghost use Rattle.std.specs.Prelude.{◌≡◌, ◌+◌, ◌*◌, ◌^◌, ◌<◌, ◌≤◌, length, IfOk, OnOk, IsOkUnless, None, Some, Err};
ghost use Rattle.std.specs.Result.{result_err};
ghost use Rattle.pblk_model.specs.declared.image.ImageErr.{ImageErr};
ghost use Rattle.pblk_model.specs.declared.image.ImageErr.TheVariants as errors;
ghost use Rattle.pblk_model.specs.ImageFile.{IsImage, IsImageOf, blank_drive, blocks_end, chunks_at, descriptors_end, geometry_at, image_refusal, shape_at};
ghost use Rattle.ocssd_chunks.specs.Descriptor.{fields_of};
ghost use Rattle.ocssd_geometry.specs.Numbers.{numbers_of};
ghost use Rattle.ocssd_drive.specs.Drive.{IsWhole, stored};
ghost use Rattle.drive_image.specs.Filling.{AreNumbersOf, GotNth, HasNumbers, IsRow, bytes_of};
ghost use Rattle.drive_image.specs.Quiet.{IsQuiet};

use crate::descriptors::check_chunks;
use crate::making::made;
use crate::parts::{Numbers, read_numbers};
use bytes::Bytes;
use ocssd_chunks::{Descriptor, read_descriptor};
use ocssd_drive::Drive;
use pblk_model::{DESCRIPTOR_LEN, DESCRIPTORS_AT, ImageErr};
use std::alloc::Global;

/// The drive that an image is of. Its units' logs are empty, and it isn't armed.
///
/// The image is read part by part: the header and its settings, the geometry, the descriptors of
/// all chunks, the blocks of all chunks. In each part `Short` comes first, with the input's length,
/// where the input ends within the part. Then come `Magic` and `Version`, where the input begins
/// with neither an image's magic nor with version 1; `Geometry` with what `Geometry::refusal`
/// finds; `Settings` with the first rule that doesn't hold, by the numbers of `Shape::refusal`;
/// `Chunk` with the first unit, the first chunk in it, and the first rule that its descriptor
/// breaks: 1, byte 0 is one of the four states; 2, byte 1 is 1; 3, SLBA is the packed address of
/// the chunk's block 0; 4, CNLB is CLBA; 5, WP is a multiple of WS_MIN that fits the state
/// (Open-Channel SSD Specification 2.0, Geometry, Chunk descriptor). `Long` comes where bytes
/// remain.
///
/// `Memory` comes only for bytes that are an image: nothing is taken for others. Each sector is
/// copied once.
pub fn load(alloc: Global, bytes: &[u8]) -> Result<Drive, ImageErr>
    ensures refused { (e : ImageErr) → image_refusal bytes.now ≡ Some e → result ≡ Err e }
    ensures taken { image_refusal bytes.now ≡ None → IsOkUnless result errors.Memory }
    ensures image { IfOk result (λ d. IsImage bytes.now (stored d)) }
    ensures quiet { IfOk result IsQuiet }
    ensures whole { IfOk result IsWhole }
{
    let numbers = judge(bytes)?;
    let Ok(image) = Bytes::copy_from_slice(alloc, bytes) else {
        return Err(ImageErr::Memory);
    };
    drive_over(alloc, &numbers, &image)
}

/// As `load`, from bytes that the drive keeps. No sector is copied: each chunk leaves its blocks
/// where the image has them. The bytes live until the last of these chunks is reset, is given
/// other blocks, or goes with the drive. Where it is refused they are let go.
pub fn from_image(alloc: Global, bytes: Vec<u8>) -> Result<Drive, ImageErr>
    ensures refused { (e : ImageErr) → image_refusal bytes.items ≡ Some e → result ≡ Err e }
    ensures taken { image_refusal bytes.items ≡ None → IsOkUnless result errors.Memory }
    ensures image { IfOk result (λ d. IsImage bytes.items (stored d)) }
    ensures quiet { IfOk result IsQuiet }
    ensures whole { IfOk result IsWhole }
{
    let numbers = judge(&bytes)?;
    let Ok(image) = Bytes::from_vec(bytes) else {
        return Err(ImageErr::Memory);
    };
    drive_over(alloc, &numbers, &image)
}

// The numbers of an image that isn't refused.
fn judge(bytes: &[u8]) -> Result<Numbers, ImageErr>
    ensures refused { result_err result ≡ image_refusal bytes.now }
    ensures numbers { IfOk result (AreNumbersOf bytes.now) }
{
    let numbers = read_numbers(bytes)?;
    check_chunks(bytes, &numbers)?;
    Ok(numbers)
}

// The drive of an image that isn't refused, whose chunks leave their blocks in the image's bytes.
fn drive_over(alloc: Global, numbers: &Numbers, image: &Bytes) -> Result<Drive, ImageErr>
    requires accepted { image_refusal image.now ≡ None }
    requires numbers { AreNumbersOf image.now numbers.now }
    ensures memory { IsOkUnless result errors.Memory }
    ensures image { IfOk result (λ d. IsImageOf image.now (stored d)) }
    ensures quiet { IfOk result IsQuiet }
    ensures whole { IfOk result IsWhole }
{
    let mut drive = made(alloc, &numbers.geometry, &numbers.settings)?;
    fill(&mut drive, image)?;
    Ok(drive)
}

// Gives a drive of the image's numbers, on which nothing is written, the image's chunks.
fn fill(drive: &mut Drive, image: &Bytes) -> Result<(), ImageErr>
    requires accepted { image_refusal image.now ≡ None }
    requires geometry { numbers_of drive.old.geometry ≡ geometry_at image.now }
    requires blank { let s = shape_at image.now
        in stored drive.old ≡ blank_drive (geometry_at image.now) s.sector s.capacity s.ring }
    requires quiet { IsQuiet drive.old }
    requires whole { IsWhole drive.old }
    ensures memory { IsOkUnless result errors.Memory }
    ensures image { OnOk result (IsImageOf image.now (stored drive.new)) }
    ensures quiet { OnOk result (IsQuiet drive.new) }
    ensures whole { OnOk result (IsWhole drive.new) }
{
    let shape = drive.shape();
    let count = shape.units() * shape.chunks;
    let mut at = DESCRIPTORS_AT + DESCRIPTOR_LEN * count as usize;
    for n in 0..count {
        let length = adopt_chunk(drive, image, n, at)?;
        at += length;
    }
    Ok(())
}

// Gives a drive the n-th chunk of its image, whose blocks begin at `at` and stay there. How many
// bytes these have.
fn adopt_chunk(drive: &mut Drive, image: &Bytes, n: u32, at: usize) -> Result<usize, ImageErr>
    requires accepted { image_refusal image.now ≡ None }
    requires numbers { HasNumbers image.now drive.old }
    requires whole { IsWhole drive.old }
    requires index { n < chunks_at image.now }
    requires within { at + bytes_of image.now n ≤ length image.now }
    ensures memory { IsOkUnless result errors.Memory }
    ensures length { IfOk result (λ length. length ≡ bytes_of image.now n) }
    ensures bound { length image.now < 2 ^ 63 }
    ensures got { OnOk result (GotNth image.now n at drive.old drive.new) }
    ensures numbers { OnOk result (HasNumbers image.now drive.new) }
    ensures whole { OnOk result (IsWhole drive.new) }
{
    let shape = drive.shape();
    let (unit, chunk) = (n / shape.chunks, n % shape.chunks);
    let descriptor = nth_descriptor(image, n);
    let count = descriptor.wp as u32;
    let length = (shape.sector as usize + 16) * count as usize;
    let Ok(blocks) = image.slice(at..at + length) else {
        return Err(ImageErr::Memory);
    };
    drive.adopt(
        unit,
        chunk,
        descriptor.wear,
        descriptor.state,
        count,
        blocks,
    );
    Ok(length)
}

// The n-th descriptor of an image.
fn nth_descriptor(image: &Bytes, n: u32) -> Descriptor
    requires accepted { image_refusal image.now ≡ None }
    requires index { n < chunks_at image.now }
    ensures row { IsRow image.now n (fields_of result) }
    ensures bound { length image.now < 2 ^ 63 }
{
    let at = DESCRIPTORS_AT + DESCRIPTOR_LEN * n as usize;
    let row = &image.as_slice()[at..at + DESCRIPTOR_LEN];
    let Ok(descriptor) = read_descriptor(row) else {
        unreachable!()
    };
    descriptor
}
