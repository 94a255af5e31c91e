//! What is made, kept and read back.

use crate::image::fixture::{Edit, NONE, edit, small_image};
use drive_image::{
    Drive, Geometry, GeometryErr, ImageErr, Settings, blank, from_image, load, store,
};
use std::alloc::{AllocError, Global};
use std::test::Fail;

const SETTINGS: Settings = Settings {
    sector: 512,
    capacity: 64,
    ring: 64,
};

#[test]
fn a_blank_drive_is_spelled(rt: HostRuntime) -> Result<(), Fail> {
    let drive = blank(rt.alloc(), &Geometry::small(), &SETTINGS)?;
    let mut bytes = Vec::new(rt.alloc());
    store(&drive, &mut bytes)?;
    assert!(rt; bytes.len() == 4640);
    assert!(rt; bytes[4128] == 1);
    assert!(rt; bytes == small_image(rt.alloc())?);
    Ok(())
}

// Why a small drive with another number of chunks and another capacity isn't made.
fn refusal(alloc: Global, chunks: u32, capacity: u64) -> Option<ImageErr> {
    let mut geometry = Geometry::small();
    geometry.chunks = chunks;
    let mut settings = SETTINGS;
    settings.capacity = capacity;
    blank(alloc, &geometry, &settings).err()
}

#[test]
fn numbers_are_refused(rt: HostRuntime) {
    let rows = [
        (8, 64, None),
        (7, 64, Some(ImageErr::Geometry(GeometryErr::Profile(2)))),
        (8, 90, None),
        (8, 91, Some(ImageErr::Settings(4))),
        (7, 91, Some(ImageErr::Geometry(GeometryErr::Profile(2)))),
    ];
    for (row, (chunks, capacity, answer)) in rows.iter().enumerate() {
        assert!(rt;
            refusal(rt.alloc(), *chunks, *capacity) == *answer,
            "row {row}"
        );
    }
}

// Adds blocks whose sectors and marks consist of one byte.
fn add_blocks(bytes: &mut Vec<u8>, count: usize, byte: u8) -> Result<(), AllocError> {
    for _block in 0..count {
        bytes.extend_from_slice(&[byte; 528])?;
    }
    Ok(())
}

// The small drive with chunk 1 of unit 0 Open with two blocks, chunk 0 of unit 1 Closed by a failed
// write after four, its chunk 1 Closed with 24, and its chunk 7 Offline. The bytes that are ignored
// are all this one.
fn written_image(alloc: Global, ignored: u8) -> Result<Vec<u8>, AllocError> {
    let chunks: [Edit; 14] = [
        (4160, 4),
        (4162, 9),
        (4184, 2),
        (4384, 2),
        (4386, 255),
        (4408, 4),
        (4416, 2),
        (4440, 24),
        (4608, 8),
        (4610, 1),
        // Between the fields of the geometry, and of three descriptors.
        (34, ignored),
        (4127, ignored),
        (4131, ignored),
        (4615, ignored),
    ];
    let mut bytes = small_image(alloc)?;
    edit(&mut bytes, &chunks);
    add_blocks(&mut bytes, 2, 7)?;
    add_blocks(&mut bytes, 4, 255)?;
    add_blocks(&mut bytes, 24, 3)?;
    Ok(bytes)
}

// Whether what is stored of a drive, behind what stands there, is the spelling of the written
// image.
fn is_stored(alloc: Global, drive: &Drive) -> Result<bool, Fail> {
    let mut bytes = Vec::new(alloc);
    bytes.push(77)?;
    store(drive, &mut bytes)?;
    let mut kept = Vec::new(alloc);
    kept.push(77)?;
    kept.extend_from_slice(&written_image(alloc, 0)?)?;
    Ok(bytes.len() == 4641 + 30 * 528 && bytes == kept)
}

#[test]
fn what_is_kept_is_read_and_kept_again(rt: HostRuntime) -> Result<(), Fail> {
    let image = written_image(rt.alloc(), 5)?;
    assert!(rt; is_stored(rt.alloc(), &load(rt.alloc(), &image)?)?);
    assert!(rt; is_stored(rt.alloc(), &from_image(rt.alloc(), image)?)?);
    Ok(())
}

// Two groups of three units, in addresses of 1, 2, 3 and 5 bits.
fn grouped() -> Geometry {
    let mut geometry = Geometry::small();
    geometry.lengths = [1, 2, 3, 5];
    geometry.groups = 2;
    geometry.pus = 3;
    geometry
}

#[test]
fn units_are_numbered_by_group(rt: HostRuntime) -> Result<(), Fail> {
    let settings = Settings {
        ring: 256,
        ..SETTINGS
    };
    let drive = blank(rt.alloc(), &grouped(), &settings)?;
    let mut bytes = Vec::new(rt.alloc());
    store(&drive, &mut bytes)?;
    assert!(rt; bytes.len() == 4128 + 48 * 32);
    // Chunk 1 of unit 4, which is unit 1 of group 1: address 1024 + 256 + 32.
    assert!(rt; bytes[5192] == 32);
    assert!(rt; bytes[5193] == 5);
    assert!(rt; load(rt.alloc(), &bytes).err() == None);
    edit(&mut bytes, &[(5193, 4), NONE]);
    let refusal = load(rt.alloc(), &bytes).err();
    let wrong = ImageErr::Chunk {
        unit: 4,
        chunk: 1,
        rule: 3,
    };
    assert!(rt; refusal == Some(wrong));
    Ok(())
}
