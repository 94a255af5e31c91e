//! A drive without a target: from the page of its geometry to a unit that was stopped.

use drive_image::{Drive, Geometry, Settings, blank};
use ocssd_drive::{ChunkState, Fuse, Mark, MemoryUnit, Unit, UnitErr};
use std::alloc::Global;
use std::test::Fail;

// The blank drive of a page, for sectors of 512 bytes and a target of 64 sectors with 64 entries in its buffer.
fn drive_of(alloc: Global, page: &[u8]) -> Result<Drive, Fail> {
    let geometry = Geometry::read(page)?;
    let settings = Settings {
        sector: 512,
        capacity: 64,
        ring: 64,
    };
    Ok(blank(alloc, &geometry, &settings)?)
}

// Programs sectors at the front of the unit's chunk 0, if it takes them.
fn program_first(
    unit: &mut MemoryUnit,
    sectors: &[u8],
    marks: &[Mark],
) -> Option<Result<(), UnitErr>> {
    if unit.takes_program(0, 0, sectors, marks) {
        Some(unit.program(0, 0, sectors, marks))
    } else {
        None
    }
}

// The state of the unit's chunk 0, and how many blocks of it are written.
fn first_state(unit: &MemoryUnit) -> Option<(ChunkState, u32)> {
    if 0 < unit.shape().chunks {
        Some(unit.state(0))
    } else {
        None
    }
}

#[test]
fn a_blank_drive_stops_by_its_fuse(rt: HostRuntime) -> Result<(), Fail> {
    let mut page = [0u8; 4096];
    Geometry::small().write(&mut page);
    let mut drive = drive_of(rt.alloc(), &page)?;
    let fuse = Fuse {
        unit: 1,
        nth: 1,
        cut: 1,
    };
    drive.arm(rt.alloc(), &[], Some(fuse))?;
    let Drive { mut units, .. } = drive;
    assert!(rt; units.len() == 2);
    let unit = &mut units[1];
    let mark = Mark {
        lba: 3,
        position: 9,
    };
    let stopped = program_first(unit, &[7; 2048], &[mark; 4]);
    assert!(rt; stopped == Some(Err(UnitErr::Stopped)));
    assert!(rt; first_state(unit) == Some((ChunkState::Open, 2)));
    Ok(())
}
