//! Numbers and zeros among bytes.

ghost use Rattle.std.specs.Prelude.{◌≡◌, ◌*◌, ◌<◌, ◌++◌, drop, slice_index, OnOk, IfOk};
ghost use Rattle.std.specs.Int.{w32, w64};
ghost use Rattle.std.specs.Str.{bytes_eq};
ghost use Rattle.std.specs.List.{flat_map};
ghost use Rattle.pblk_model.specs.Bytes.{le32, le64, number_at, padded_to, zeros};
ghost use Rattle.pblk_reference.specs.Words.{kind_words, front_words};

use std::alloc::{AllocError, Global};

/// The first four bytes of a record.
const MAGIC: u32 = 0x7062_6c6b;

fn byte_at(bytes: &[u8], at: usize) -> u8
    ensures { result ≡ slice_index bytes.now at }
{
    bytes.get(at).copied().unwrap_or(0)
}

/// The number of four bytes at an offset. Past the end bytes count as 0.
pub fn u32_at(bytes: &[u8], at: usize) -> u32
    requires { at < 1000 }
    ensures { result ≡ number_at w32 at bytes.now }
{
    u32::from_le_bytes([
        byte_at(bytes, at),
        byte_at(bytes, at + 1),
        byte_at(bytes, at + 2),
        byte_at(bytes, at + 3),
    ])
}

/// The number of eight bytes at an offset. Past the end bytes count as 0.
pub fn u64_at(bytes: &[u8], at: usize) -> u64
    requires { at < 1000 }
    ensures { result ≡ number_at w64 at bytes.now }
{
    u64::from_le_bytes([
        byte_at(bytes, at),
        byte_at(bytes, at + 1),
        byte_at(bytes, at + 2),
        byte_at(bytes, at + 3),
        byte_at(bytes, at + 4),
        byte_at(bytes, at + 5),
        byte_at(bytes, at + 6),
        byte_at(bytes, at + 7),
    ])
}

/// The bytes after the first `n`.
pub fn after(bytes: &[u8], n: usize) -> &[u8]
    ensures { result.now ≡ drop n bytes.now }
{
    if n <= bytes.len() { &bytes[n..] } else { &[] }
}

/// Adds numbers of four bytes.
pub fn put_u32s(out: &mut Vec<u8>, numbers: &[u32]) -> Result<(), AllocError>
    ensures { OnOk result (out.new.items ≡ out.old.items ++ flat_map le32 numbers.now) }
{
    for number in numbers {
        out.extend_from_slice(&number.to_le_bytes())?;
    }
    Ok(())
}

/// Adds numbers of eight bytes.
pub fn put_u64s(out: &mut Vec<u8>, numbers: &[u64]) -> Result<(), AllocError>
    ensures { OnOk result (out.new.items ≡ out.old.items ++ flat_map le64 numbers.now) }
{
    for number in numbers {
        out.extend_from_slice(&number.to_le_bytes())?;
    }
    Ok(())
}

fn put_kind(out: &mut Vec<u8>, kind: u16) -> Result<(), AllocError>
    ensures { OnOk result (out.new.items ≡ out.old.items ++ kind_words kind) }
{
    out.extend_from_slice(&MAGIC.to_le_bytes())?;
    out.extend_from_slice(&1u16.to_le_bytes())?;
    out.extend_from_slice(&kind.to_le_bytes())
}

/// The words of a record of this kind in front of its rows or marks: those of every record, then the
/// numbers of eight bytes, and then those of four.
pub fn front_words(
    alloc: Global,
    kind: u16,
    line: u32,
    width: u32,
    long: &[u64],
    short: &[u32],
) -> Result<Vec<u8>, AllocError>
    ensures { IfOk result (λ v. v.items ≡ front_words kind line width long.now short.now) }
{
    let mut out = Vec::new(alloc);
    put_kind(&mut out, kind)?;
    put_u32s(&mut out, &[line, width])?;
    put_u64s(&mut out, long)?;
    put_u32s(&mut out, short)?;
    Ok(out)
}

/// Adds zeros.
#[tactic(auto, unfolding(pblk_model::specs::Bytes::zeros))]
pub fn put_zeros(alloc: Global, out: &mut Vec<u8>, n: usize) -> Result<(), AllocError>
    ensures { OnOk result (out.new.items ≡ out.old.items ++ zeros n) }
{
    let zeros = vec![in alloc; 0; n]?;
    out.extend_from_slice(&zeros)
}

/// Adds zeros up to a length.
pub fn pad(alloc: Global, out: &mut Vec<u8>, n: usize) -> Result<(), AllocError>
    ensures { OnOk result (out.new.items ≡ padded_to n out.old.items) }
{
    let missing = n.saturating_sub(out.len());
    put_zeros(alloc, out, missing)
}

/// How many bytes blocks of this many bytes have.
pub fn byte_len(blocks: u32, sector: u32) -> usize
    ensures { result ≡ blocks * sector }
{
    (u64::from(blocks) * u64::from(sector)) as usize
}

/// Whether two runs of bytes are the same.
pub fn same(a: &[u8], b: &[u8]) -> bool
    ensures { result ≡ bytes_eq a.now b.now }
{
    a == b
}
