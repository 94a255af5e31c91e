//! Fetches of the blocks of a vector's addresses.
ghost use Rattle.std.specs.Prelude.{◌≡◌, ◌*◌, length, map};
ghost use Rattle.pblk_model.specs.Blocks.{blocks_of};
ghost use Rattle.ocssd_geometry.specs.Numbers.{numbers_of};
ghost use Rattle.vector_io.specs.Addresses.{IsVector};
ghost use Rattle.unit_port.specs.Commands.{AreKept, AreTaken, IsTaken};
ghost use Rattle.unit_port.specs.Did.{AreOfSize};
ghost use Rattle.vector_io.specs.Status.{WasRead, Reads};
ghost use Rattle.vector_io.specs.Plans.{read_of, reads};

use crate::addresses::unit_of;
use crate::status::{Status, with_bit};
use crate::unit_calls::fetch_at;
use ocssd_geometry::Geometry;
use pblk_model::{Address, Got, Mark};
use unit_port::Unit;

/// Fetches the block of each address, one after another. `size` is the length of a sector.
pub(crate) fn read_all<U: Unit>(
    geometry: &Geometry,
    addresses: &[Address],
    units: &mut [U],
    size: usize,
    out: &mut [u8],
    marks: &mut [Mark],
) -> Status
    requires vector { IsVector (numbers_of geometry.now) addresses.now }
    requires sector { AreOfSize size (map U.model units.old) }
    requires marks { length marks.old ≡ length addresses.now }
    requires whole { length out.old ≡ length marks.old * size }
    requires taken { AreTaken (map U.model units.old)
        (reads (numbers_of geometry.now) addresses.now) }
    ensures reads { let plan = reads (numbers_of geometry.now) addresses.now
        in Reads plan (map U.model units.old) result (map U.model units.new)
        (blocks_of size out.old marks.old) (blocks_of size out.new marks.new) }
    ensures kept { AreKept (map U.model units.old) (map U.model units.new) }
{
    let mut failed = 0;
    let mut empty = 0;
    for i in 0..addresses.len() {
        let part = &mut out[i * size..(i + 1) * size];
        let (lost, unreadable) = read_one(units, geometry, &addresses[i], part, &mut marks[i]);
        failed = with_bit(failed, i, lost);
        empty = with_bit(empty, i, unreadable);
    }
    Status { failed, empty }
}

// Fetches the block of an address, and says whether that failed or was stopped, and whether the block isn't
// readable yet. Where neither is so the block is in `out` and `mark`, which else are as before.
fn read_one<U: Unit>(
    units: &mut [U],
    geometry: &Geometry,
    address: &Address,
    out: &mut [u8],
    mark: &mut Mark,
) -> (bool, bool)
    requires sector { AreOfSize (length out.old) (map U.model units.old) }
    requires taken { IsTaken (map U.model units.old)
        (read_of (numbers_of geometry.now) address.now) }
    ensures did { let command = read_of (numbers_of geometry.now) address.now
        in WasRead (map U.model units.old) command result.0 result.1
        (record { sector = out.old; mark = mark.old })
        (record { sector = out.new; mark = mark.new }) (map U.model units.new) }
    ensures kept { AreKept (map U.model units.old) (map U.model units.new) }
{
    let unit = unit_of(geometry, address);
    match fetch_at(units, unit, address.chunk, address.block, out) {
        Ok(Got::Sector(found)) => {
            *mark = found;
            (false, false)
        }
        Ok(Got::Empty) => (false, true),
        Err(_) => (true, false),
    }
}
