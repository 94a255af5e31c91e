//! Little-endian numbers at places of a slice.

ghost use Rattle.std.specs.Prelude.{◌≡◌, ◌+◌, ◌^◌, ◌<◌, ◌≤◌, length};
ghost use Rattle.std.specs.Int.{w8, w16, w32};
ghost use Rattle.pblk_model.specs.Bytes.{number_at, le16, le32, zeros};
ghost use Rattle.ocssd_geometry.specs.Places.{PutAt};

use byteorder::{ByteOrder, LittleEndian};

/// The byte at a place.
pub(crate) fn u8_at(bytes: &[u8], at: usize) -> u8
    requires { at < length bytes.now }
    ensures { result ≡ number_at w8 at bytes.now }
{
    bytes[at]
}

/// The number whose first byte stands at a place.
pub(crate) fn u16_at(bytes: &[u8], at: usize) -> u16
    requires { at + 2 ≤ length bytes.now }
    ensures { result ≡ number_at w16 at bytes.now }
{
    LittleEndian::read_u16(&bytes[at..at + 2])
}

/// The number whose first byte stands at a place.
pub(crate) fn u32_at(bytes: &[u8], at: usize) -> u32
    requires { at + 4 ≤ length bytes.now }
    ensures { result ≡ number_at w32 at bytes.now }
{
    LittleEndian::read_u32(&bytes[at..at + 4])
}

/// Writes 0 everywhere.
#[tactic(auto, unfolding(pblk_model::specs::Bytes::zeros))]
pub(crate) fn clear(out: &mut [u8])
    ensures { out.new ≡ zeros (length out.old) }
{
    out.fill(0);
}

/// Writes bytes from a place on.
pub(crate) fn put(out: &mut [u8], at: usize, bytes: &[u8])
    requires { at + length bytes.now ≤ length out.old }
    ensures { PutAt at bytes.now out.old out.new }
{
    out[at..at + bytes.len()].copy_from_slice(bytes);
}

/// Writes a number from a place on.
pub(crate) fn put_u16(out: &mut [u8], at: usize, number: u16)
    requires { at + 2 ≤ length out.old }
    ensures placed { PutAt at (le16 number) out.old out.new }
    ensures fits { number < 2 ^ 16 }
{
    LittleEndian::write_u16(&mut out[at..at + 2], number);
}

/// Writes a number from a place on.
pub(crate) fn put_u32(out: &mut [u8], at: usize, number: u32)
    requires { at + 4 ≤ length out.old }
    ensures placed { PutAt at (le32 number) out.old out.new }
    ensures fits { number < 2 ^ 32 }
{
    LittleEndian::write_u32(&mut out[at..at + 4], number);
}
