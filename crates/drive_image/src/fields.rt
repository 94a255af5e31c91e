//! Little-endian numbers at places of a slice, and bytes that are added to a list.

ghost use Rattle.std.specs.Prelude.{◌≡◌, ◌+◌, ◌≤◌, ◌++◌, length, vec_capacity, vec_len};
ghost use Rattle.std.specs.Int.{w32, w64};
ghost use Rattle.pblk_model.specs.Bytes.{number_at};

use byteorder::{ByteOrder, LittleEndian};

/// The number whose first byte stands at a place.
pub(crate) fn u32_at(bytes: &[u8], at: usize) -> u32
    requires { at + 4 ≤ length bytes.now }
    ensures { result ≡ number_at w32 at bytes.now }
{
    LittleEndian::read_u32(&bytes[at..at + 4])
}

/// The number whose first byte stands at a place.
pub(crate) fn u64_at(bytes: &[u8], at: usize) -> u64
    requires { at + 8 ≤ length bytes.now }
    ensures { result ≡ number_at w64 at bytes.now }
{
    LittleEndian::read_u64(&bytes[at..at + 8])
}

/// Adds bytes at the end of a list that has room for them.
pub(crate) fn put(out: &mut Vec<u8>, bytes: &[u8])
    requires { vec_len out.old + length bytes.now ≤ vec_capacity out.old }
    ensures items { out.new.items ≡ out.old.items ++ bytes.now }
    ensures capacity { vec_capacity out.old ≤ vec_capacity out.new }
{
    out.extend_from_slice(bytes).unwrap();
}
