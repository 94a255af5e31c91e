//! The descriptors of an image, and the length of its blocks.

ghost use Rattle.std.specs.Prelude.{◌≡◌, ◌+◌, ◌*◌, ◌%◌, ◌<◌, ◌≤◌, ◌==◌, true, length, slice_index, IfOk};
ghost use Rattle.std.specs.Int.{w64};
ghost use Rattle.std.specs.Option.{is_some, option_map_or};
ghost use Rattle.std.specs.List.{range_with_len, sum_by};
ghost use Rattle.std.specs.Result.{result_err};
ghost use Rattle.pblk_model.specs.Accepted.{IsAccepted};
ghost use Rattle.pblk_model.specs.Checks.{first_failing, first_refusal};
ghost use Rattle.pblk_model.specs.Bytes.{number_at};
ghost use Rattle.pblk_model.specs.Descriptor.{pointer_holds, state_in};
ghost use Rattle.pblk_model.specs.ImageFile.{chunk_checks, chunk_refusal, chunks_at, geometry_at, pointer_at, shape_at};
ghost use Rattle.pblk_model.specs.Shape.{units};
ghost use Rattle.ocssd_geometry.specs.Numbers.{numbers_of, IsGeometry};
ghost use Rattle.drive_image.specs.Parts.{chunk_refusals, descriptor_refusal};

use crate::fields::u64_at;
use crate::kept::first_block;
use crate::parts::{Numbers, check_reaches};
use ocssd_chunks::read_descriptor;
use ocssd_drive::Geometry;
use pblk_model::{DESCRIPTOR_LEN, DESCRIPTORS_AT, ImageErr};

/// Whether the descriptors are those of a drive of these numbers, and the blocks are as many as
/// they say.
pub(crate) fn check_chunks(bytes: &[u8], numbers: &Numbers) -> Result<(), ImageErr>
    requires geometry { numbers_of numbers.now.geometry ≡ geometry_at bytes.now }
    requires geometry_accepted { IsGeometry numbers.now.geometry }
    requires sector { numbers.now.settings.sector ≡ (shape_at bytes.now).sector }
    requires accepted { IsAccepted (shape_at bytes.now) }
    ensures { result_err result ≡ first_refusal (chunk_refusals bytes.now) }
{
    let geometry = &numbers.geometry;
    let units = u32::from(geometry.groups) * u32::from(geometry.pus);
    let count = units * geometry.chunks;
    let end = DESCRIPTORS_AT + DESCRIPTOR_LEN * count as usize;
    check_reaches(bytes, end)?;
    let blocks = check_descriptors(bytes, geometry, count)?;
    let end = end + (numbers.settings.sector as usize + 16) * blocks as usize;
    check_reaches(bytes, end)?;
    if bytes.len() > end {
        return Err(ImageErr::Long);
    }
    Ok(())
}

// Whether the first `count` descriptors are those of a drive of this geometry; the number of blocks
// that they say are written.
fn check_descriptors(bytes: &[u8], geometry: &Geometry, count: u32) -> Result<u64, ImageErr>
    requires numbers { numbers_of geometry.now ≡ geometry_at bytes.now }
    requires accepted { IsGeometry geometry.now }
    requires shape { IsAccepted (shape_at bytes.now) }
    requires count { count ≤ units (shape_at bytes.now) * (shape_at bytes.now).chunks }
    requires reaches { DESCRIPTORS_AT + DESCRIPTOR_LEN * count ≤ length bytes.now }
    ensures refused { result_err result ≡ descriptor_refusal bytes.now count }
    ensures blocks { IfOk result (λ n. n ≡ sum_by (pointer_at bytes.now) (range_with_len 0 count)) }
    ensures few { IfOk result (λ n. n ≤ count * geometry.now.clba) }
{
    let mut blocks = 0;
    for n in 0..count {
        blocks += check_descriptor(bytes, geometry, n)?;
    }
    Ok(blocks)
}

// Whether the n-th descriptor is that of its chunk; the number of blocks that it says are written.
fn check_descriptor(bytes: &[u8], geometry: &Geometry, n: u32) -> Result<u64, ImageErr>
    requires numbers { numbers_of geometry.now ≡ geometry_at bytes.now }
    requires accepted { IsGeometry geometry.now }
    requires shape { IsAccepted (shape_at bytes.now) }
    requires index { n < units (shape_at bytes.now) * (shape_at bytes.now).chunks }
    requires reaches { DESCRIPTORS_AT + DESCRIPTOR_LEN * n + DESCRIPTOR_LEN ≤ length bytes.now }
    ensures refused { result_err result ≡ chunk_refusal bytes.now n }
    ensures pointer { IfOk result (λ wp. wp ≡ pointer_at bytes.now n) }
    ensures within { IfOk result (λ wp. wp ≤ geometry.now.clba) }
{
    let unit = n / geometry.chunks;
    let chunk = n % geometry.chunks;
    let at = DESCRIPTORS_AT + DESCRIPTOR_LEN * n as usize;
    let descriptor = &bytes[at..at + DESCRIPTOR_LEN];
    match broken_rule(geometry, unit, chunk, descriptor) {
        Some(rule) => Err(ImageErr::Chunk { unit, chunk, rule }),
        None => Ok(u64_at(descriptor, 24)),
    }
}

// The first rule that a chunk's descriptor breaks: 1, a known state; 2, the kind 1; 3, the address
// of the chunk's block 0; 4, CLBA blocks; 5, a write pointer that is a multiple of WS_MIN and fits
// the state.
fn broken_rule(geometry: &Geometry, unit: u32, chunk: u32, bytes: &[u8]) -> Option<u32>
    requires accepted { IsGeometry geometry.now }
    requires unit { unit < geometry.now.groups * geometry.now.pus }
    requires chunk { chunk < geometry.now.chunks }
    requires size { length bytes.now ≡ DESCRIPTOR_LEN }
    ensures first { let checks = chunk_checks (numbers_of geometry.now) unit chunk bytes.now
        in result ≡ first_failing checks }
{
    if !is_state(bytes[0]) {
        Some(1)
    } else if bytes[1] != 1 {
        Some(2)
    } else if u64_at(bytes, 8) != first_block(geometry, unit, chunk) {
        Some(3)
    } else if u64_at(bytes, 16) != u64::from(geometry.clba) {
        Some(4)
    } else if !is_multiple(u64_at(bytes, 24), geometry) || !has_place(bytes, geometry.clba) {
        Some(5)
    } else {
        None
    }
}

// Whether a byte is one of the four states'.
fn is_state(code: u8) -> bool
    ensures { result ≡ is_some (state_in code) }
{
    matches!(code, 1 | 2 | 4 | 8)
}

// Whether a number of blocks is a multiple of WS_MIN.
fn is_multiple(blocks: u64, geometry: &Geometry) -> bool
    requires { IsGeometry geometry.now }
    ensures { result ≡ (blocks % geometry.now.ws_min == 0) }
{
    blocks % u64::from(geometry.ws_min) == 0
}

// Whether the write pointer of a descriptor fits its state, the rest of the descriptor being as it
// should.
fn has_place(bytes: &[u8], clba: u32) -> bool
    requires size { length bytes.now ≡ DESCRIPTOR_LEN }
    requires state { is_some (state_in (slice_index bytes.now 0)) ≡ true }
    requires kind { slice_index bytes.now 1 ≡ 1 }
    requires blocks { number_at w64 16 bytes.now ≡ clba }
    ensures { let b = bytes.now
        in result ≡ option_map_or (λ state. pointer_holds state clba (number_at w64 24 b))
        (state_in (slice_index b 0)) true }
{
    read_descriptor(bytes).is_ok()
}
