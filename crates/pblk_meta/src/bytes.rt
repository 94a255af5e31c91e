//! Little-endian numbers and zeros among bytes.

ghost use Rattle.std.specs.Prelude.{◌≡◌, ◌+◌, ◌-◌, ◌≤◌, ◌++◌, ◌==◌, length, drop, take};
ghost use Rattle.std.specs.List.{list_all};
ghost use Rattle.std.specs.Int.{w32, w64};
ghost use Rattle.std.specs.Str.{bytes_eq};
ghost use Rattle.pblk_model.specs.Bytes.{le16, le32, le64, number_at, zeros};

/// The first four bytes of a record, as a number.
pub(crate) const MAGIC: u32 = 0x7062_6c6b;

/// The version of the records' format.
pub(crate) const VERSION: u16 = 1;

/// The number of the four bytes from a place on.
pub(crate) fn u32_at(bytes: &[u8], at: usize) -> u32
    requires { at + 4 ≤ length bytes.now }
    ensures { result ≡ number_at w32 at bytes.now }
{
    let mut number = [0; 4];
    number.copy_from_slice(&bytes[at..at + 4]);
    u32::from_le_bytes(number)
}

/// The number of the eight bytes from a place on.
pub(crate) fn u64_at(bytes: &[u8], at: usize) -> u64
    requires { at + 8 ≤ length bytes.now }
    ensures { result ≡ number_at w64 at bytes.now }
{
    let mut number = [0; 8];
    number.copy_from_slice(&bytes[at..at + 8]);
    u64::from_le_bytes(number)
}

/// The bytes behind the first `n`.
pub(crate) fn after(bytes: &[u8], n: usize) -> &[u8]
    requires { n ≤ length bytes.now }
    ensures { result.now ≡ drop n bytes.now }
{
    &bytes[n..]
}

/// Whether all bytes are 0.
pub(crate) fn are_zeros(bytes: &[u8]) -> bool
    ensures { result ≡ list_all (λ byte. byte == 0) bytes.now }
{
    bytes.iter().all(|&byte| byte == 0)
}

/// Whether two runs of bytes are the same.
pub(crate) fn are_same(some: &[u8], others: &[u8]) -> bool
    ensures { result ≡ bytes_eq some.now others.now }
{
    some == others
}

/// Writes bytes from a place on.
pub(crate) fn put(out: &mut [u8], at: usize, bytes: &[u8])
    requires { at + length bytes.now ≤ length out.old }
    ensures placed { take (at + length bytes.now) out.new ≡ take at out.old ++ bytes.now }
    ensures len { length out.new ≡ length out.old }
{
    out[at..at + bytes.len()].copy_from_slice(bytes);
}

/// Writes a number to the two bytes from a place on.
pub(crate) fn put_u16(out: &mut [u8], at: usize, number: u16)
    requires { at + 2 ≤ length out.old }
    ensures placed { take (at + 2) out.new ≡ take at out.old ++ le16 number }
    ensures len { length out.new ≡ length out.old }
{
    put(out, at, &number.to_le_bytes());
}

/// Writes a number to the four bytes from a place on.
pub(crate) fn put_u32(out: &mut [u8], at: usize, number: u32)
    requires { at + 4 ≤ length out.old }
    ensures placed { take (at + 4) out.new ≡ take at out.old ++ le32 number }
    ensures len { length out.new ≡ length out.old }
{
    put(out, at, &number.to_le_bytes());
}

/// Writes a number to the eight bytes from a place on.
pub(crate) fn put_u64(out: &mut [u8], at: usize, number: u64)
    requires { at + 8 ≤ length out.old }
    ensures placed { take (at + 8) out.new ≡ take at out.old ++ le64 number }
    ensures len { length out.new ≡ length out.old }
{
    put(out, at, &number.to_le_bytes());
}

/// Writes zeros from a place on, up to another.
#[tactic(auto, unfolding(pblk_model::specs::Bytes::zeros))]
pub(crate) fn put_zeros(out: &mut [u8], at: usize, end: usize)
    requires order { at ≤ end }
    requires room { end ≤ length out.old }
    ensures placed { take end out.new ≡ take at out.old ++ zeros (end - at) }
    ensures len { length out.new ≡ length out.old }
{
    out[at..end].fill(0);
}
