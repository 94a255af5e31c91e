//! Runs of addresses: block after block of a chunk.
ghost use Rattle.std.specs.Prelude.{◌≡◌, ◌+◌, ◌<◌, ◌≤◌, drop, length};
ghost use Rattle.ocssd_geometry.specs.Numbers.{numbers_of};
ghost use Rattle.vector_io.specs.Runs.{is_next_block, run_len};

use crate::addresses::unit_of;
use ocssd_geometry::Geometry;
use pblk_model::Address;

/// The index behind the run that begins at an index.
pub(crate) fn run_end(geometry: &Geometry, addresses: &[Address], at: usize) -> usize
    requires { at < length addresses.now }
    ensures end { result ≡ at + run_len (numbers_of geometry.now) (drop at addresses.now) }
    ensures some { at < result }
    ensures within { result ≤ length addresses.now }
{
    let mut last = at;
    while last + 1 < addresses.len() {
        if !is_next_block(geometry, &addresses[last], &addresses[last + 1]) {
            return last + 1;
        }
        last += 1;
    }
    last + 1
}

// Whether the second address is that of the block behind the first's.
fn is_next_block(geometry: &Geometry, one: &Address, next: &Address) -> bool
    ensures { result ≡ is_next_block (numbers_of geometry.now) one.now next.now }
{
    unit_of(geometry, one) == unit_of(geometry, next)
        && one.chunk == next.chunk
        && u64::from(one.block) + 1 == u64::from(next.block)
}
