//! The image of a drive.

ghost use Rattle.std.specs.Prelude.{◌≡◌, ◌+◌, ◌*◌, ◌<◌, ◌≤◌, ◌++◌, length, map, slice_get, IfOk, OnOk, OnErr, Some, Vec, vec_capacity};
ghost use Rattle.std.specs.List.{AllByRecursion, enumerate_from, flat_map, sum_by};
ghost use Rattle.pblk_model.specs.Chunk.{pointer};
ghost use Rattle.pblk_model.specs.Geometry.{geometry_bytes};
ghost use Rattle.pblk_model.specs.ImageFile.{IsImage, block_bytes, blocks_bytes, descriptor_bytes, descriptors_bytes, header_bytes, image_bytes, unit_descriptors};
ghost use Rattle.pblk_model.specs.Shape.{units};
ghost use Rattle.pblk_laws.specs.GeometryFields.{FitsFields};
ghost use Rattle.ocssd_geometry.specs.Numbers.{numbers_of, IsGeometry};
ghost use Rattle.ocssd_drive.specs.Drive.{IsWhole, shape_of, stored};
ghost use Rattle.ocssd_drive.specs.Units.{IsUnitOf, stored_chunks};
ghost use Rattle.drive_image.specs.Storing.{HasCapacity, IsDescriptorAdded, WasAdded, chunk_bytes, front_bytes, numbers_bytes};

use crate::counting::image_length;
use crate::fields::put;
use crate::kept::{first_block, kept_chunk};
use ocssd_chunks::{Chunk, Descriptor};
use ocssd_drive::{Drive, Geometry, MemoryUnit, Shape};
use pblk_laws::spelled_image_is_read;
use pblk_model::{DESCRIPTOR_LEN, Mark};
use std::alloc::{AllocError, Global};

/// Adds a drive's image to `out`: the header with the settings, the geometry, a descriptor for each
/// chunk, and the written blocks, each with its mark (Open-Channel SSD Specification 2.0, Geometry,
/// Chunk descriptor). It is the one spelling of the drive: bytes that `load` ignores are 0. What
/// was logged of the units, and what they are armed with, isn't kept.
///
/// Memory for all of it is taken once, before anything is added. Where there isn't as much, `out`
/// is as before.
pub fn store(drive: &Drive, out: &mut Vec<u8>) -> Result<(), AllocError>
    ensures added { OnOk result (out.new.items ≡ out.old.items ++ image_bytes (stored drive.now)) }
    ensures kept { OnErr result (out.new.items ≡ out.old.items) }

    // So what is added is loaded as this drive.
    ensures read_back { IsImage (image_bytes (stored drive.now)) (stored drive.now) }
{
    spelled_image_is_read();
    has_fields(&drive.geometry);
    out.reserve(image_length(drive))?;
    put_image(drive, out);
    Ok(())
}

/// The drive's image, by itself: what `store` adds. Each unit's chunks are let go once their blocks
/// stand in the image, so that no more than one unit is held beside it.
///
/// Memory for all of it is taken once, before any unit is let go.
pub fn into_image(alloc: Global, drive: Drive) -> Result<Vec<u8>, AllocError>
    ensures image { IfOk result (λ v. v.items ≡ image_bytes (stored drive)) }

    // So it is loaded as this drive.
    ensures read_back { IsImage (image_bytes (stored drive)) (stored drive) }
{
    spelled_image_is_read();
    has_fields(&drive.geometry);
    let length = image_length(&drive);
    let mut out = Vec::with_capacity(alloc, length)?;
    put_numbers(&drive, &mut out);
    let shape = drive.shape();
    put_units(drive.units, &shape, &mut out);
    Ok(out)
}

// The numbers of a geometry fit their places in its bytes.
fn has_fields(geometry: &Geometry)
    ensures { FitsFields (numbers_of geometry.now) }
{
    let _numbers = *geometry;
    let [_group, _pu, _chunk, _block] = geometry.lengths;
}

// Adds the parts of an image.
fn put_image(drive: &Drive, out: &mut Vec<u8>)
    requires whole { IsWhole drive.now }
    requires room { HasCapacity out.old (image_bytes (stored drive.now)) }
    ensures { WasAdded out.old out.new (image_bytes (stored drive.now)) }
{
    put_numbers(drive, out);
    put_blocks(drive, out);
}

// Adds the parts of an image that stand before the blocks.
fn put_numbers(drive: &Drive, out: &mut Vec<u8>)
    requires whole { IsWhole drive.now }
    requires room { HasCapacity out.old (front_bytes (stored drive.now)) }
    ensures { WasAdded out.old out.new (front_bytes (stored drive.now)) }
{
    let shape = drive.shape();
    put_header(&shape, out);
    put_geometry(&drive.geometry, out);
    put_descriptors(drive, out);
}

// Adds the magic, the version 1 and the settings.
fn put_header(shape: &Shape, out: &mut Vec<u8>)
    requires { HasCapacity out.old (numbers_bytes shape.now) }
    ensures { WasAdded out.old out.new (numbers_bytes shape.now) }
{
    put(out, b"PBLKOCSD");
    put(out, &1u32.to_le_bytes());
    put(out, &shape.sector.to_le_bytes());
    put(out, &shape.capacity.to_le_bytes());
    put(out, &u64::from(shape.ring).to_le_bytes());
}

fn put_geometry(geometry: &Geometry, out: &mut Vec<u8>)
    requires accepted { IsGeometry geometry.now }
    requires room { HasCapacity out.old (geometry_bytes (numbers_of geometry.now)) }
    ensures { WasAdded out.old out.new (geometry_bytes (numbers_of geometry.now)) }
{
    let mut bytes = [0; 4096];
    geometry.write(&mut bytes);
    put(out, &bytes);
}

// Adds the descriptors of all chunks.
fn put_descriptors(drive: &Drive, out: &mut Vec<u8>)
    requires whole { IsWhole drive.now }
    requires room { HasCapacity out.old (descriptors_bytes (stored drive.now)) }
    ensures { WasAdded out.old out.new (descriptors_bytes (stored drive.now)) }
{
    let shape = drive.shape();
    for unit in 0..shape.units() {
        put_unit_descriptors(&drive.geometry, unit, drive.unit(unit), out);
    }
}

// Adds the descriptors of a unit's chunks.
fn put_unit_descriptors(geometry: &Geometry, unit: u32, kept: &MemoryUnit, out: &mut Vec<u8>)
    requires accepted { IsGeometry geometry.now }
    requires unit { unit < geometry.now.groups * geometry.now.pus }
    requires chunks { kept.now.unit.shape.chunks ≡ geometry.now.chunks }
    requires clba { kept.now.unit.shape.clba ≡ geometry.now.clba }
    requires fits { IsUnitOf kept.now.unit.shape kept.now }
    requires room { let g = numbers_of geometry.now
        in HasCapacity out.old (unit_descriptors g (unit, stored_chunks kept.now)) }
    ensures { let g = numbers_of geometry.now
        in WasAdded out.old out.new (unit_descriptors g (unit, stored_chunks kept.now)) }
{
    for chunk in 0..geometry.chunks {
        put_descriptor(geometry, unit, chunk, kept, out);
    }
}

// Adds the descriptor of a chunk.
fn put_descriptor(geometry: &Geometry, unit: u32, chunk: u32, kept: &MemoryUnit, out: &mut Vec<u8>)
    requires accepted { IsGeometry geometry.now }
    requires unit { unit < geometry.now.groups * geometry.now.pus }
    requires chunk { chunk < geometry.now.chunks }
    requires chunks { kept.now.unit.shape.chunks ≡ geometry.now.chunks }
    requires clba { kept.now.unit.shape.clba ≡ geometry.now.clba }
    requires fits { IsUnitOf kept.now.unit.shape kept.now }
    requires room { length out.old.items + DESCRIPTOR_LEN ≤ vec_capacity out.old }
    ensures { let chunks = stored_chunks kept.now
        in IsDescriptorAdded (numbers_of geometry.now) unit chunk chunks out.old out.new }
{
    let (found, wear) = kept_chunk(kept, chunk);
    let (state, pointer) = found.state();
    let descriptor = Descriptor {
        state,
        wear,
        slba: first_block(geometry, unit, chunk),
        cnlb: u64::from(geometry.clba),
        wp: u64::from(pointer),
    };
    let mut bytes = [0; DESCRIPTOR_LEN];
    descriptor.write(&mut bytes);
    put(out, &bytes);
}

// Adds the written blocks of all chunks.
fn put_blocks(drive: &Drive, out: &mut Vec<u8>)
    requires whole { IsWhole drive.now }
    requires room { HasCapacity out.old (blocks_bytes (stored drive.now)) }
    ensures { WasAdded out.old out.new (blocks_bytes (stored drive.now)) }
{
    let shape = drive.shape();
    for unit in 0..shape.units() {
        put_unit_blocks(drive.unit(unit), shape.chunks, out);
    }
}

// Adds the written blocks of units of a drive, and lets go each unit after its own.
fn put_units(units: Vec<MemoryUnit>, shape: &Shape, out: &mut Vec<u8>)
    requires fit { AllByRecursion (IsUnitOf shape.now) units.items }
    requires room { HasCapacity out.old
        (flat_map (flat_map chunk_bytes) (map stored_chunks units.items)) }
    ensures { WasAdded out.old out.new
        (flat_map (flat_map chunk_bytes) (map stored_chunks units.items)) }
{
    for kept in units {
        put_unit_blocks(&kept, shape.chunks, out);
    }
}

// Adds the written blocks of a unit's chunks.
fn put_unit_blocks(kept: &MemoryUnit, chunks: u32, out: &mut Vec<u8>)
    requires chunks { chunks ≡ kept.now.unit.shape.chunks }
    requires fits { IsUnitOf kept.now.unit.shape kept.now }
    requires room { HasCapacity out.old (flat_map chunk_bytes (stored_chunks kept.now)) }
    ensures { WasAdded out.old out.new (flat_map chunk_bytes (stored_chunks kept.now)) }
{
    for chunk in 0..chunks {
        let (found, _wear) = kept_chunk(kept, chunk);
        put_chunk(found, out);
    }
}

// Adds the written blocks of a chunk.
fn put_chunk(chunk: &Chunk, out: &mut Vec<u8>)
    requires { HasCapacity out.old (flat_map block_bytes chunk.now.chunk.blocks) }
    ensures { WasAdded out.old out.new (flat_map block_bytes chunk.now.chunk.blocks) }
{
    // those that it adopted stand as they are to be added
    let (spelled, adopted) = chunk.adopted();
    put(out, spelled);
    let (_state, pointer) = chunk.state();
    for block in adopted..pointer {
        let Some((sector, mark)) = chunk.written(block) else {
            unreachable!()
        };
        put_block(sector, mark, out);
    }
}

// Adds a block: its sector, and then the two numbers of its mark.
fn put_block(sector: &[u8], mark: Mark, out: &mut Vec<u8>)
    requires { HasCapacity out.old (block_bytes (record { sector = sector.now; mark = mark })) }
    ensures { WasAdded out.old out.new (block_bytes (record { sector = sector.now; mark = mark })) }
{
    put(out, sector);
    put(out, &mark.lba.to_le_bytes());
    put(out, &mark.position.to_le_bytes());
}
