//! The sectors of a port in memory, one after another.
ghost use Rattle.std.specs.Prelude.{◌≡◌, ◌+◌, ◌*◌, ◌≤◌, ◌^◌, length, replicate, slice_range, IfOk};
ghost use Rattle.block_port.specs.Own.{sectors_of};
ghost use Rattle.pblk_model.specs.Bytes.{zeros};
ghost use Rattle.plain_port.specs.Sectors.{put_from};

use std::alloc::{AllocError, Global};

/// Sectors of zeros.
pub(crate) fn blank(alloc: Global, capacity: usize, size: usize) -> Result<Vec<u8>, AllocError>
    requires { capacity * size ≤ 2 ^ 32 }
    ensures bytes { IfOk result (λ bytes. length bytes.items ≡ capacity * size) }
    ensures zeros { IfOk result (λ bytes.
        sectors_of size capacity bytes.items ≡ replicate capacity (zeros size)) }
{
    vec![in alloc; 0; capacity * size]
}

/// Writes sectors of this size from `lba` on, of `capacity` that there are.
pub(crate) fn put(
    sectors: &mut [u8],
    size: usize,
    capacity: usize,
    lba: usize,
    bytes: &[u8],
    count: usize,
)
    requires sectors { length sectors.old ≡ capacity * size }
    requires bytes { length bytes.now ≡ count * size }
    requires inside { lba + count ≤ capacity }
    ensures len { length sectors.new ≡ length sectors.old }
    ensures sectors { sectors_of size capacity sectors.new
        ≡ put_from (sectors_of size capacity sectors.old) lba (sectors_of size count bytes.now) }
{
    let at = lba * size;
    sectors[at..at + bytes.len()].copy_from_slice(bytes);
}

/// Copies as many sectors of this size, from `lba` on, as `out` has room for, of `capacity` that
/// there are.
pub(crate) fn get(
    sectors: &[u8],
    size: usize,
    capacity: usize,
    lba: usize,
    out: &mut [u8],
    count: usize,
)
    requires sectors { length sectors.now ≡ capacity * size }
    requires bytes { length out.old ≡ count * size }
    requires inside { lba + count ≤ capacity }
    ensures { sectors_of size count out.new
        ≡ slice_range (sectors_of size capacity sectors.now) lba (lba + count) }
{
    let at = lba * size;
    out.copy_from_slice(&sectors[at..at + out.len()]);
}
