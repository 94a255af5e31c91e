//! Chunks as they are kept in a file.

ghost use Rattle.std.specs.Prelude.{◌≡◌, ◌*◌, ◌<◌, slice_get, Some};
ghost use Rattle.pblk_model.specs.Geometry.{packed};
ghost use Rattle.pblk_model.specs.ImageFile.{first_address};
ghost use Rattle.ocssd_geometry.specs.Numbers.{numbers_of, IsGeometry};
ghost use Rattle.ocssd_drive.specs.Units.{IsUnitOf, stored_chunks};

use ocssd_chunks::Chunk;
use ocssd_drive::{Address, Geometry, MemoryUnit};

/// A chunk of a unit, with its wear index.
pub(crate) fn kept_chunk(unit: &MemoryUnit, chunk: u32) -> (&Chunk, u8)
    requires fits { IsUnitOf unit.now.unit.shape unit.now }
    requires chunk { chunk < unit.now.unit.shape.chunks }
    ensures kept { slice_get (stored_chunks unit.now) chunk
        ≡ Some (record { chunk = result.0.now.chunk; wear = result.1 }) }
    ensures shape { result.0.now.shape ≡ unit.now.unit.shape }
{
    (unit.chunk(chunk), unit.wear(chunk))
}

/// The number of the address of block 0 of a chunk.
pub(crate) fn first_block(geometry: &Geometry, unit: u32, chunk: u32) -> u64
    requires accepted { IsGeometry geometry.now }
    requires unit { unit < geometry.now.groups * geometry.now.pus }
    requires chunk { chunk < geometry.now.chunks }
    ensures { let g = numbers_of geometry.now in result ≡ packed g (first_address g unit chunk) }
{
    let pus = u32::from(geometry.pus);
    geometry.pack(Address {
        group: (unit / pus) as u16,
        pu: (unit % pus) as u16,
        chunk,
        block: 0,
    })
}
