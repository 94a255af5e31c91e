//! Vectors on a small drive.

use crate::vector::harness::{read, reset, write};
use ocssd_drive::{CommandKind, Drive, FaultPlan, Fuse, Geometry, Mark, MemoryUnit};
use pblk_model::Address;
use std::alloc::{AllocError, Global};
use std::process::Abort;
use std::test::Fail;
use vector_io::{Status, Vector, VectorErr};

// An address on a drive with one group.
fn address(pu: u16, chunk: u32, block: u32) -> Address {
    Address {
        group: 0,
        pu,
        chunk,
        block,
    }
}

// How many addresses a row has, which of them is exchanged for which, and the refusal.
fn walk_refusals(
    rt: &impl Abort,
    alloc: Global,
    rows: &[(usize, usize, Address, Option<VectorErr>)],
) {
    for (row, (count, at, other, refusal)) in rows.iter().enumerate() {
        let mut addresses = [address(0, 0, 0); 65];
        for (i, address) in addresses.iter_mut().enumerate() {
            address.chunk = (i / 24 % 8) as u32;
            address.block = (i % 24) as u32;
        }
        if *at < 65 {
            addresses[*at] = *other;
        }
        let end = if *count <= 65 { *count } else { 65 };
        let told = Vector::new(alloc, &addresses[..end], &Geometry::small());
        assert!(rt; told.err() == *refusal, "row {row}");
    }
}

#[test]
fn addresses_are_refused_in_order(rt: HostRuntime) -> Result<(), Fail> {
    let same = address(0, 0, 0);
    let rows = [
        (0, 0, same, Some(VectorErr::Count)),
        (1, 0, same, None),
        (64, 0, same, None),
        (65, 0, same, Some(VectorErr::Count)),
        // The second address again as the first, and the first as the last.
        (2, 1, same, Some(VectorErr::Repeated(1))),
        (64, 63, same, Some(VectorErr::Repeated(63))),
        // Each field at its edge.
        (2, 0, address(0, 8, 0), Some(VectorErr::Address(0))),
        (2, 0, address(0, 7, 23), None),
        (2, 1, address(0, 0, 24), Some(VectorErr::Address(1))),
        (2, 1, address(2, 0, 0), Some(VectorErr::Address(1))),
        (2, 1, address(1, 0, 0), None),
        // Count before Address, and Address before Repeated.
        (65, 3, address(0, 8, 0), Some(VectorErr::Count)),
        (64, 63, address(0, 8, 0), Some(VectorErr::Address(63))),
    ];
    walk_refusals(&rt, rt.alloc(), &rows);
    Ok(())
}

#[derive(Clone, Copy)]
enum Asked {
    Read,
    Write,
    Reset,
}

// So many addresses of one chunk of the unit `pu`, from a block on.
type Run = (u16, u32, u32, u32);

// A row: what is asked of two runs, and the bits of `failed` and `empty`, or none where the units don't take
// the vector.
type Row = (Asked, [Run; 2], Option<(u64, u64)>);

fn addresses_of(alloc: Global, runs: &[Run; 2]) -> Result<Vec<Address>, AllocError> {
    let mut addresses = Vec::new(alloc);
    for (pu, chunk, at, count) in runs {
        for i in 0..*count {
            addresses.push(address(*pu, *chunk, at.wrapping_add(i)))?;
        }
    }
    Ok(addresses)
}

// What is written to an address: the byte that fills its sector, and the number in its mark.
fn tag_of(address: &Address) -> u8 {
    let chunk = u64::from(address.pu) * 3 + u64::from(address.chunk);
    ((chunk * 24 + u64::from(address.block)) % 256) as u8
}

fn mark_of(tag: u8) -> Mark {
    Mark {
        lba: u64::from(tag),
        position: 7,
    }
}

// The sectors and marks of tags.
fn blocks_of(alloc: Global, tags: &[u8]) -> Result<(Vec<u8>, Vec<Mark>), AllocError> {
    let mut bytes = Vec::new(alloc);
    let mut marks = Vec::new(alloc);
    for tag in tags {
        bytes.extend_from_slice(&[*tag; 512])?;
        marks.push(mark_of(*tag))?;
    }
    Ok((bytes, marks))
}

fn is_set(bits: u64, at: usize) -> bool {
    at < 64 && (bits >> at) & 1 == 1
}

// What `read` is to leave of sectors and marks of 99: these where a bit of the address is set, and else the
// address's own.
fn tags_after(
    alloc: Global,
    addresses: &[Address],
    status: Option<Status>,
) -> Result<Vec<u8>, AllocError> {
    let mut tags = Vec::new(alloc);
    for (i, address) in addresses.iter().enumerate() {
        let tag = match status {
            Some(status) if !is_set(status.failed, i) && !is_set(status.empty, i) => tag_of(
                address,
            ),
            _ => 99,
        };
        tags.push(tag)?;
    }
    Ok(tags)
}

// Asks, and says whether what was read is what was written.
fn ask(
    alloc: Global,
    units: &mut [MemoryUnit],
    asked: Asked,
    addresses: &[Address],
) -> Result<(Option<Status>, bool), Fail> {
    let geometry = Geometry::small();
    let mut tags = Vec::new(alloc);
    for address in addresses {
        tags.push(match asked {
            Asked::Write => tag_of(address),
            _ => 99,
        })?;
    }
    let (mut bytes, mut marks) = blocks_of(alloc, &tags)?;
    match asked {
        Asked::Write => Ok((
            write(alloc, &geometry, units, addresses, &bytes, &marks)?,
            true,
        )),
        Asked::Reset => Ok((reset(alloc, &geometry, units, addresses)?, true)),
        Asked::Read => {
            let status = read(alloc, &geometry, units, addresses, &mut bytes, &mut marks)?;
            let after = tags_after(alloc, addresses, status)?;
            let (sectors, others) = blocks_of(alloc, &after)?;
            Ok((status, bytes == sectors && marks == others))
        }
    }
}

// Asks the units of a small drive that is armed as given, row by row.
fn walk(
    rt: &impl Abort,
    alloc: Global,
    plans: &[FaultPlan],
    fuse: Option<Fuse>,
    rows: &[Row],
) -> Result<(), Fail> {
    let mut drive = Drive::new(alloc, Geometry::small(), 512, 64, 64)?;
    drive.arm(alloc, plans, fuse)?;
    let Drive { mut units, .. } = drive;
    for (row, (asked, runs, told)) in rows.iter().enumerate() {
        let addresses = addresses_of(alloc, runs)?;
        let (status, same) = ask(alloc, &mut units, *asked, &addresses)?;
        let bits = match status {
            Some(status) => Some((status.failed, status.empty)),
            None => None,
        };
        assert!(rt; bits == *told, "row {row}: {bits:?}");
        assert!(rt; same, "row {row}");
    }
    Ok(())
}

fn plan(unit: u32, kind: CommandKind, nth: u32, cut: u32) -> FaultPlan {
    FaultPlan {
        unit,
        kind,
        nth,
        cut,
    }
}

#[test]
fn stripes_are_written_read_and_reset(rt: HostRuntime) -> Result<(), Fail> {
    let plans = [
        plan(0, CommandKind::Fetch, 6, 0),
        plan(1, CommandKind::Program, 3, 1),
        plan(0, CommandKind::Reset, 2, 0),
    ];
    let rows = [
        // Two stripes on two units. The last eight blocks of an open chunk can't be read yet.
        (Asked::Write, [(0, 0, 0, 4), (1, 0, 0, 4)], Some((0, 0))),
        (Asked::Read, [(0, 0, 0, 4), (1, 0, 0, 4)], Some((0, 0xff))),
        (Asked::Write, [(0, 0, 4, 8), (1, 0, 4, 8)], Some((0, 0))),
        // The second fetch fails by plan, and sets its bit alone.
        (Asked::Read, [(0, 0, 0, 6), (1, 0, 2, 3)], Some((2, 0x130))),
        (Asked::Read, [(0, 0, 1, 1), (1, 0, 3, 1)], Some((0, 0))),
        // Not at the write pointer, and past the chunk's end.
        (Asked::Write, [(0, 0, 0, 4), (1, 0, 12, 4)], None),
        (Asked::Write, [(0, 0, 12, 12), (1, 0, 14, 2)], None),
        // A program that fails sets the bits of its run, and has landed its first two blocks.
        (
            Asked::Write,
            [(0, 0, 12, 4), (1, 0, 12, 4)],
            Some((0xf0, 0)),
        ),
        (
            Asked::Read,
            [(1, 0, 12, 3), (0, 1, 0, 1)],
            Some((0, 0b1100)),
        ),
        // A chunk that was closed before its end goes offline when it is reset.
        (Asked::Reset, [(0, 0, 1, 1), (1, 0, 0, 1)], None),
        (Asked::Reset, [(0, 0, 0, 1), (1, 0, 0, 1)], Some((0, 0))),
        (Asked::Reset, [(0, 0, 0, 1), (1, 0, 0, 0)], None),
        (Asked::Read, [(0, 0, 0, 1), (1, 0, 0, 1)], None),
        (Asked::Write, [(0, 0, 0, 2), (1, 1, 0, 2)], Some((0, 0))),
        (Asked::Reset, [(0, 0, 0, 1), (1, 1, 0, 1)], Some((1, 0))),
        (Asked::Read, [(1, 1, 0, 2), (1, 1, 23, 1)], Some((0, 7))),
    ];
    walk(&rt, rt.alloc(), &plans, None, &rows)
}

#[test]
fn a_run_ends_where_the_chunk_or_the_unit_does(rt: HostRuntime) -> Result<(), Fail> {
    let rows = [
        // The second runs begin where the first ones would go on, but for their chunk or their unit.
        (Asked::Write, [(0, 0, 0, 24), (1, 0, 0, 24)], Some((0, 0))),
        (Asked::Read, [(0, 0, 0, 24), (1, 0, 0, 24)], Some((0, 0))),
        (Asked::Read, [(1, 0, 23, 1), (0, 1, 0, 2)], Some((0, 6))),
        // Two runs that are one.
        (Asked::Write, [(0, 1, 0, 1), (0, 1, 1, 3)], Some((0, 0))),
        (Asked::Write, [(0, 1, 4, 3), (1, 1, 0, 2)], None),
    ];
    walk(&rt, rt.alloc(), &[], None, &rows)
}

#[test]
fn the_fuse_stops_each_command_that_is_left(rt: HostRuntime) -> Result<(), Fail> {
    let fuse = Fuse {
        unit: 0,
        nth: 2,
        cut: 1,
    };
    let rows = [
        (Asked::Write, [(0, 0, 0, 4), (1, 0, 0, 4)], Some((0, 0))),
        (Asked::Write, [(0, 0, 4, 4), (1, 0, 4, 4)], Some((0xff, 0))),
        (Asked::Read, [(0, 0, 0, 2), (1, 0, 0, 2)], Some((0xf, 0))),
        (Asked::Reset, [(0, 0, 0, 1), (1, 0, 0, 1)], Some((3, 0))),
    ];
    walk(&rt, rt.alloc(), &[], Some(fuse), &rows)
}
