//! Programs of the blocks of a vector's addresses.
ghost use Rattle.std.specs.Prelude.{◌≡◌, ◌*◌, length, map};
ghost use Rattle.pblk_model.specs.Blocks.{blocks_of};
ghost use Rattle.ocssd_geometry.specs.Numbers.{numbers_of};
ghost use Rattle.vector_io.specs.Addresses.{IsVector};
ghost use Rattle.unit_port.specs.Commands.{AreKept, AreTaken};
ghost use Rattle.unit_port.specs.Did.{AreOfSize};
ghost use Rattle.vector_io.specs.Plans.{AreOfChunksApart, writes};
ghost use Rattle.vector_io.specs.Status.{Answers};

use crate::addresses::unit_of;
use crate::runs::run_end;
use crate::status::{Status, with_bits};
use crate::unit_calls::program_at;
use ocssd_geometry::Geometry;
use pblk_model::{Address, Mark};
use unit_port::Unit;

/// Programs the blocks of each run, one after another. `size` is the length of a sector.
pub(crate) fn write_all<U: Unit>(
    geometry: &Geometry,
    addresses: &[Address],
    units: &mut [U],
    size: usize,
    bytes: &[u8],
    marks: &[Mark],
) -> Status
    requires vector { IsVector (numbers_of geometry.now) addresses.now }
    requires sector { AreOfSize size (map U.model units.old) }
    requires marks { length marks.now ≡ length addresses.now }
    requires whole { length bytes.now ≡ length marks.now * size }
    requires apart { let blocks = blocks_of size bytes.now marks.now
        in AreOfChunksApart (writes (numbers_of geometry.now) addresses.now blocks) }
    requires taken { let blocks = blocks_of size bytes.now marks.now
        in AreTaken (map U.model units.old)
        (writes (numbers_of geometry.now) addresses.now blocks) }
    ensures answers { let blocks = blocks_of size bytes.now marks.now
        in let plan = writes (numbers_of geometry.now) addresses.now blocks
        in Answers plan (map U.model units.old) result (map U.model units.new) }
    ensures empty { result.empty ≡ 0 }
    ensures kept { AreKept (map U.model units.old) (map U.model units.new) }
{
    let mut failed = 0;
    let mut at = 0;
    while at < addresses.len() {
        let end = run_end(geometry, addresses, at);
        let first = &addresses[at];
        let lost = program_at(
            units,
            unit_of(geometry, first),
            first.chunk,
            first.block,
            size,
            &bytes[at * size..end * size],
            &marks[at..end],
        );
        failed = with_bits(failed, at, end, lost);
        at = end;
    }
    Status { failed, empty: 0 }
}
