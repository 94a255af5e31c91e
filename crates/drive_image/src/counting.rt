//! How long an image is.

ghost use Rattle.std.specs.Prelude.{◌≡◌, ◌*◌, ◌≤◌, length};
ghost use Rattle.std.specs.List.{sum_by};
ghost use Rattle.pblk_model.specs.Accepted.{IsAccepted};
ghost use Rattle.pblk_model.specs.ImageFile.{image_bytes};
ghost use Rattle.ocssd_drive.specs.Drive.{IsWhole, shape_of, stored};
ghost use Rattle.ocssd_drive.specs.Units.{IsUnitOf, stored_chunks};
ghost use Rattle.drive_image.specs.Storing.{written_in};

use crate::kept::kept_chunk;
use ocssd_drive::{Drive, MemoryUnit, Shape};
use pblk_model::{DESCRIPTOR_LEN, DESCRIPTORS_AT};

/// The length in bytes of a drive's image.
pub(crate) fn image_length(drive: &Drive) -> usize
    ensures length { result ≡ length (image_bytes (stored drive.now)) }
    ensures whole { IsWhole drive.now }
{
    let shape = drive.shape();
    let blocks = written_blocks(drive, &shape);
    let chunks = shape.units() * shape.chunks;
    DESCRIPTORS_AT + DESCRIPTOR_LEN * chunks as usize + (shape.sector as usize + 16) * blocks
}

// How many blocks of a drive are written.
fn written_blocks(drive: &Drive, shape: &Shape) -> usize
    requires shape { shape.now ≡ shape_of drive.now }
    requires whole { IsWhole drive.now }
    ensures sum { result ≡ sum_by written_in (stored drive.now).units }
    ensures few { result ≤ 268435456 }
{
    let mut blocks = 0;
    for unit in 0..shape.units() {
        blocks += unit_blocks(drive.unit(unit), shape.chunks);
    }
    blocks
}

// How many blocks of a unit are written.
fn unit_blocks(kept: &MemoryUnit, chunks: u32) -> usize
    requires chunks { chunks ≡ kept.now.unit.shape.chunks }
    requires fits { IsUnitOf kept.now.unit.shape kept.now }
    requires accepted { IsAccepted kept.now.unit.shape }
    ensures sum { result ≡ written_in (stored_chunks kept.now) }
    ensures few { result ≤ kept.now.unit.shape.chunks * kept.now.unit.shape.clba }
{
    let mut blocks = 0;
    for chunk in 0..chunks {
        let (found, _wear) = kept_chunk(kept, chunk);
        let (_state, pointer) = found.state();
        blocks += pointer as usize;
    }
    blocks
}
