//! Resets of the chunks of a vector's addresses.
ghost use Rattle.std.specs.Prelude.{◌≡◌, map};
ghost use Rattle.ocssd_geometry.specs.Numbers.{numbers_of};
ghost use Rattle.vector_io.specs.Addresses.{IsVector};
ghost use Rattle.unit_port.specs.Commands.{AreKept, AreTaken};
ghost use Rattle.vector_io.specs.Plans.{AreFirstBlocks, resets};
ghost use Rattle.vector_io.specs.Status.{Answers};

use crate::addresses::unit_of;
use crate::status::{Status, with_bit};
use crate::unit_calls::reset_at;
use ocssd_geometry::Geometry;
use pblk_model::Address;
use unit_port::Unit;

/// Resets the chunk of each address, one after another.
pub(crate) fn reset_all<U: Unit>(
    geometry: &Geometry,
    addresses: &[Address],
    units: &mut [U],
) -> Status
    requires vector { IsVector (numbers_of geometry.now) addresses.now }
    requires blocks { AreFirstBlocks addresses.now }
    requires taken { AreTaken (map U.model units.old)
        (resets (numbers_of geometry.now) addresses.now) }
    ensures answers { let plan = resets (numbers_of geometry.now) addresses.now
        in Answers plan (map U.model units.old) result (map U.model units.new) }
    ensures empty { result.empty ≡ 0 }
    ensures kept { AreKept (map U.model units.old) (map U.model units.new) }
{
    let mut failed = 0;
    for i in 0..addresses.len() {
        let address = &addresses[i];
        let lost = reset_at(units, unit_of(geometry, address), address.chunk);
        failed = with_bit(failed, i, lost);
    }
    Status { failed, empty: 0 }
}
