//! How many blocks a line's records and its data take, on drives whose settings may not be accepted.

ghost use Rattle.std.specs.Prelude.{◌≡◌, ◌+◌, ◌*◌, ◌≤◌, ◌<◌, ◌^◌};
ghost use Rattle.std.specs.Int.{div_ceil};
ghost use Rattle.pblk_model.specs.Accepted.{IsMeasured};
ghost use Rattle.pblk_model.specs.LineOrder.{start_len, end_len, data_len};

use crate::shape::Shape;

/// The blocks of a start record.
pub(crate) fn start_blocks(shape: &Shape) -> u64
    requires { IsMeasured shape.now }
    ensures len { result ≡ start_len shape.now }
    ensures few { result < 2 ^ 22 }
{
    let bytes = 64 + 24 * (u64::from(shape.chunks) - 1);
    whole_stripes(shape.ws_opt, shape.sector, bytes)
}

/// The blocks of an end record of a line of this width.
pub(crate) fn end_blocks(shape: &Shape, width: u32) -> u64
    requires measured { IsMeasured shape.now }
    requires width { width ≤ 64 }
    ensures { result ≡ end_len shape.now width }
{
    let between = line_blocks(width, shape.clba).saturating_sub(start_blocks(shape));
    whole_stripes(shape.ws_opt, shape.sector + 16, 32 + 16 * between)
}

// The blocks of whole stripes that hold so many bytes, where a block holds `size` of them.
fn whole_stripes(ws_opt: u32, size: u32, bytes: u64) -> u64
    requires stripe { (0 < ws_opt) × (ws_opt ≤ 64) }
    requires size { (0 < size) × (size ≤ 4112) }
    requires bytes { bytes < 2 ^ 43 }
    ensures blocks { result ≡ ws_opt * div_ceil bytes (ws_opt * size) }
    ensures few { result ≤ 64 * (bytes + 1) }
{
    let stripe = u64::from(ws_opt) * u64::from(size);
    u64::from(ws_opt) * bytes.div_ceil(stripe)
}

// The blocks of a line of this width.
fn line_blocks(width: u32, clba: u32) -> u64
    requires { width ≤ 64 }
    ensures blocks { result ≡ width * clba }
    ensures few { result < 2 ^ 38 }
{
    u64::from(width) * u64::from(clba)
}

/// The data blocks of a line of this width.
pub(crate) fn data_blocks(shape: &Shape, width: u32) -> u64
    requires measured { IsMeasured shape.now }
    requires width { width ≤ 64 }
    ensures len { result ≡ data_len shape.now width }
    ensures within { result ≤ width * shape.now.clba }
    ensures few { result < 2 ^ 38 }
{
    let between = line_blocks(width, shape.clba)
        .saturating_sub(start_blocks(shape))
        .saturating_sub(end_blocks(shape, width));
    if between < u64::from(shape.ws_opt) {
        0
    } else {
        between
    }
}
