//! Calls of vectors on the units of a drive in memory, where these may be made.
ghost use Rattle.std.specs.Prelude.{◌≡◌, ◌+◌, ◌*◌, ◌<◌, ◌≤◌, drop, length, IsTrue};
ghost use Rattle.pblk_model.specs.Blocks.{blocks_of};
ghost use Rattle.pblk_model.specs.ChunkStep.{Write};
ghost use Rattle.ocssd_geometry.specs.Numbers.{numbers_of};
ghost use Rattle.unit_port.specs.Commands.{IsTaken};
ghost use Rattle.unit_port.specs.Did.{command_at};
ghost use Rattle.vector_io.specs.Plans.{read_of, reset_of, unit_of};
ghost use Rattle.vector_io.specs.Runs.{is_next_block, run_len};
ghost use Rattle.drive_tests.specs.Fits.{CanRead, CanReset, CanWrite, Fit, models};

use ocssd_drive::{Geometry, Mark, MemoryUnit};
use pblk_model::Address;
use std::alloc::Global;
use vector_io::{Status, Vector, VectorErr};

/// Reads, where the vector may be read.
pub fn read(
    alloc: Global,
    geometry: &Geometry,
    units: &mut [MemoryUnit],
    addresses: &[Address],
    out: &mut [u8],
    marks: &mut [Mark],
) -> Result<Option<Status>, VectorErr> {
    let vector = Vector::new(alloc, addresses, geometry)?;
    if marks.len() != addresses.len()
        || out.len() != marks.len() * 512
        || !fit(geometry, units)
        || !can_read(geometry, units, addresses)
    {
        return Ok(None);
    }
    Ok(Some(vector.read(units, out, marks)))
}

/// Writes, where the vector may be written, run by run, on units that rise.
pub fn write(
    alloc: Global,
    geometry: &Geometry,
    units: &mut [MemoryUnit],
    addresses: &[Address],
    bytes: &[u8],
    marks: &[Mark],
) -> Result<Option<Status>, VectorErr> {
    let vector = Vector::new(alloc, addresses, geometry)?;
    if marks.len() != addresses.len()
        || bytes.len() != marks.len() * 512
        || !fit(geometry, units)
        || !can_write(geometry, units, addresses, bytes, marks)
    {
        return Ok(None);
    }
    Ok(Some(vector.write(units, bytes, marks)))
}

/// Resets, where the vector may be reset.
pub fn reset(
    alloc: Global,
    geometry: &Geometry,
    units: &mut [MemoryUnit],
    addresses: &[Address],
) -> Result<Option<Status>, VectorErr> {
    let vector = Vector::new(alloc, addresses, geometry)?;
    if !fit(geometry, units) || !can_reset(geometry, units, addresses) {
        return Ok(None);
    }
    Ok(Some(vector.reset(units)))
}

// Whether the units are those of a drive of this geometry with sectors of 512 bytes.
fn fit(geometry: &Geometry, units: &[MemoryUnit]) -> bool
    ensures { IsTrue result → Fit (numbers_of geometry.now) (models units.now) }
{
    let count = usize::from(geometry.groups) * usize::from(geometry.pus);
    if units.len() != count {
        return false;
    }
    for i in 0..units.len() {
        let shape = units[i].shape();
        if shape.chunks != geometry.chunks || shape.clba != geometry.clba || shape.sector != 512 {
            return false;
        }
    }
    true
}

fn unit_of(geometry: &Geometry, address: &Address) -> usize
    ensures { result ≡ unit_of (numbers_of geometry.now) address.now }
{
    usize::from(address.group) * usize::from(geometry.pus) + usize::from(address.pu)
}

fn can_read(geometry: &Geometry, units: &[MemoryUnit], addresses: &[Address]) -> bool
    ensures { IsTrue result → CanRead (numbers_of geometry.now) (models units.now) addresses.now }
{
    for i in 0..addresses.len() {
        if !takes_read(geometry, units, &addresses[i]) {
            return false;
        }
    }
    true
}

fn takes_read(geometry: &Geometry, units: &[MemoryUnit], address: &Address) -> bool
    ensures { IsTrue result
        → IsTaken (models units.now) (read_of (numbers_of geometry.now) address.now) }
{
    match units.get(unit_of(geometry, address)) {
        Some(unit) => unit.takes_fetch(address.chunk, address.block, &[0; 512]),
        None => false,
    }
}

fn can_reset(geometry: &Geometry, units: &[MemoryUnit], addresses: &[Address]) -> bool
    ensures { IsTrue result → CanReset (numbers_of geometry.now) (models units.now) addresses.now }
{
    for i in 0..addresses.len() {
        let address = &addresses[i];
        if address.block != 0 || !takes_reset(geometry, units, address) {
            return false;
        }
    }
    true
}

fn takes_reset(geometry: &Geometry, units: &[MemoryUnit], address: &Address) -> bool
    ensures { IsTrue result
        → IsTaken (models units.now) (reset_of (numbers_of geometry.now) address.now) }
{
    match units.get(unit_of(geometry, address)) {
        Some(unit) => unit.takes_reset(address.chunk),
        None => false,
    }
}

fn can_write(
    geometry: &Geometry,
    units: &[MemoryUnit],
    addresses: &[Address],
    bytes: &[u8],
    marks: &[Mark],
) -> bool
    requires fit { Fit (numbers_of geometry.now) (models units.now) }
    requires marks { length marks.now ≡ length addresses.now }
    requires whole { length bytes.now ≡ length marks.now * 512 }
    ensures { IsTrue result → CanWrite (numbers_of geometry.now) (models units.now) addresses.now
        (blocks_of 512 bytes.now marks.now) }
{
    let mut at = 0;
    let mut least = 0;
    while at < addresses.len() {
        let end = run_end(geometry, addresses, at);
        let first = &addresses[at];
        let unit = unit_of(geometry, first);
        let (chunk, block) = (first.chunk, first.block);
        let (sectors, marks) = (&bytes[at * 512..end * 512], &marks[at..end]);
        if unit < least
            || unit >= units.len()
            || !takes_write(units, unit, chunk, block, sectors, marks)
        {
            return false;
        }
        least = unit + 1;
        at = end;
    }
    true
}

fn takes_write(
    units: &[MemoryUnit],
    unit: usize,
    chunk: u32,
    block: u32,
    bytes: &[u8],
    marks: &[Mark],
) -> bool
    ensures { (g : _) → IsTrue result → Fit g (models units.now)
        → IsTaken (models units.now)
        (command_at unit chunk (Write block (blocks_of 512 bytes.now marks.now))) }
{
    match units.get(unit) {
        Some(found) => found.takes_program(chunk, block, bytes, marks),
        None => false,
    }
}

// The index behind the run that begins at an index.
fn run_end(geometry: &Geometry, addresses: &[Address], at: usize) -> usize
    requires { at < length addresses.now }
    ensures end { result ≡ at + run_len (numbers_of geometry.now) (drop at addresses.now) }
    ensures some { at < result }
    ensures within { result ≤ length addresses.now }
{
    let mut last = at;
    while last + 1 < addresses.len() {
        if !is_next_block(geometry, &addresses[last], &addresses[last + 1]) {
            return last + 1;
        }
        last += 1;
    }
    last + 1
}

fn is_next_block(geometry: &Geometry, one: &Address, next: &Address) -> bool
    ensures { result ≡ is_next_block (numbers_of geometry.now) one.now next.now }
{
    unit_of(geometry, one) == unit_of(geometry, next)
        && one.chunk == next.chunk
        && u64::from(one.block) + 1 == u64::from(next.block)
}
