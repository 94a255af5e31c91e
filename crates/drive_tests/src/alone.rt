//! A drive from the page of its geometry alone, without an image.

use ocssd_drive::{Address, Drive, Geometry, GeometryErr};
use std::alloc::Global;
use std::test::Fail;

// The drive of a page, for sectors of 512 bytes and a target of 64 sectors with 64 entries in its buffer.
fn drive_of(alloc: Global, page: &[u8]) -> Result<Drive, Fail> {
    let geometry = Geometry::read(page)?;
    match Drive::refusal(&geometry, 512, 64, 64) {
        Some(refusal) => Err(refusal.into()),
        None => Ok(Drive::new(alloc, geometry, 512, 64, 64)?),
    }
}

#[test]
fn a_page_makes_a_drive(rt: HostRuntime) -> Result<(), Fail> {
    let mut page = [0u8; 4096];
    Geometry::small().write(&mut page);
    let drive = drive_of(rt.alloc(), &page)?;
    assert!(rt; drive.units.len() == 2);
    Ok(())
}

// The number of the last block of the geometry that a page is.
fn last_number(page: &[u8]) -> Result<u64, GeometryErr> {
    let geometry = Geometry::read(page)?;
    Ok(geometry.pack(Address {
        group: geometry.groups - 1,
        pu: geometry.pus - 1,
        chunk: geometry.chunks - 1,
        block: geometry.clba - 1,
    }))
}

#[test]
fn the_last_block_has_a_number(rt: HostRuntime) {
    let mut page = [0u8; 4096];
    Geometry::small().write(&mut page);
    assert!(rt; last_number(&page) == Ok(503));
}
