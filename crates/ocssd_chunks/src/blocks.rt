//! Blocks as bytes and marks that stand in two lists, and as bytes that spell them.

ghost use Rattle.std.specs.Prelude.{◌≡◌, ◌+◌, ◌*◌, ◌<◌, ◌≤◌, ◌↔◌, ◌++◌, length, take, drop, IsTrue, Some, slice_get, vec_len, vec_capacity};
ghost use Rattle.std.specs.List.{AllByRecursion};
ghost use Rattle.pblk_model.specs.Chunk.{IsBlock};
ghost use Rattle.pblk_model.specs.Blocks.{block_in, blocks_of, IsMark};
ghost use Rattle.ocssd_chunks.specs.Spelled.{AddsSpelled};

use crate::descriptor::number_in;
use pblk_model::{Mark, Shape};

/// Adds bytes at the end of a list that has room for them.
pub(crate) fn append_bytes(list: &mut Vec<u8>, bytes: &[u8])
    requires { vec_len list.old + length bytes.now ≤ vec_capacity list.old }
    ensures items { list.new.items ≡ list.old.items ++ bytes.now }
    ensures room { vec_capacity list.old ≤ vec_capacity list.new }
{
    list.extend_from_slice(bytes).unwrap();
}

/// Adds marks at the end of a list that has room for them.
pub(crate) fn append_marks(list: &mut Vec<Mark>, marks: &[Mark])
    requires { vec_len list.old + length marks.now ≤ vec_capacity list.old }
    ensures items { list.new.items ≡ list.old.items ++ marks.now }
    ensures room { vec_capacity list.old ≤ vec_capacity list.new }
{
    list.extend_from_slice(marks).unwrap();
}

/// Whether bytes are as many sectors of a drive of this shape as there are marks.
pub fn has_sectors(shape: &Shape, bytes: &[u8], marks: &[Mark]) -> bool
    ensures { IsTrue result ↔ (length bytes.now ≡ length marks.now * shape.now.sector) }
{
    match marks.len().checked_mul(shape.sector as usize) {
        Some(size) => bytes.len() == size,
        None => false,
    }
}

/// Adds `count` blocks, each spelled as its sector of `size` bytes and its mark's two numbers, at
/// the ends of lists that have room for them.
pub(crate) fn append_spelled(
    bytes: &mut Vec<u8>,
    marks: &mut Vec<Mark>,
    size: usize,
    count: usize,
    spelled: &[u8],
)
    requires whole { length spelled.now ≡ count * (size + 16) }
    requires room_for_bytes { vec_len bytes.old + count * size ≤ vec_capacity bytes.old }
    requires room_for_marks { vec_len marks.old + count ≤ vec_capacity marks.old }
    ensures added { AddsSpelled size count spelled.now bytes.old.items bytes.new.items
        marks.old.items marks.new.items }
    ensures kept_bytes { vec_capacity bytes.old ≤ vec_capacity bytes.new }
    ensures kept_marks { vec_capacity marks.old ≤ vec_capacity marks.new }
{
    let mut rest = spelled;
    for _block in 0..count {
        let (block, others) = rest.split_at(size + 16);
        append_bytes(bytes, &block[..size]);
        append_marks(marks, &[mark_at(block, size)]);
        rest = others;
    }
}

// The mark whose two numbers stand from an offset on.
fn mark_at(bytes: &[u8], offset: usize) -> Mark
    requires { offset + 16 ≤ length bytes.now }
    ensures { result ≡ (block_in offset bytes.now).mark }
{
    Mark {
        lba: number_in(bytes, offset),
        position: number_in(bytes, offset + 8),
    }
}

/// A block among those that are spelled one after another in these bytes, each as its sector of
/// `size` bytes and its mark's two numbers.
pub(crate) fn spelled_block(bytes: &[u8], size: usize, index: usize) -> (&[u8], Mark)
    requires { (index + 1) * (size + 16) ≤ length bytes.now }
    ensures length { length result.0.now ≡ size }
    ensures block { record { sector = result.0.now; mark = result.1 }
        ≡ block_in size (drop (index * (size + 16)) bytes.now) }
{
    let start = index * (size + 16);
    let block = &bytes[start..start + size + 16];
    (&block[..size], mark_at(block, size))
}

/// Tells contracts that these are bytes. It changes nothing.
///
/// That each is below 256 is known of their type alone.
pub(crate) fn are_bytes(_bytes: &[u8])
    ensures { AllByRecursion (λ x. x < 256) _bytes.now }
{}

/// Tells contracts that these bytes and marks are blocks of a drive of this shape. It changes
/// nothing.
///
/// `bytes` has a sector for each of `marks`. That each byte is below 256 and each number of a mark
/// below 2^64 is known of their types alone.
pub fn are_blocks(shape: &Shape, bytes: &[u8], marks: &[Mark])
    requires { length bytes.now ≡ length marks.now * shape.now.sector }
    ensures { let blocks = blocks_of shape.now.sector bytes.now marks.now
        in AllByRecursion (IsBlock shape.now) blocks }
{
    for mark in marks {
        is_mark(*mark);
    }
}

// The numbers of a mark have 64 bits.
fn is_mark(_mark: Mark)
    ensures { IsMark _mark }
{}

/// A block among those of these bytes and marks.
pub(crate) fn block_at<'a>(
    bytes: &'a [u8],
    marks: &[Mark],
    size: usize,
    index: usize,
) -> (&'a [u8], Mark)
    requires within { index < length marks.now }
    requires whole { length bytes.now ≡ length marks.now * size }
    ensures length { length result.0.now ≡ size }
    ensures block { slice_get (blocks_of size bytes.now marks.now) index
        ≡ Some (record { sector = result.0.now; mark = result.1 }) }
{
    let start = index * size;
    (&bytes[start..start + size], marks[index])
}

/// The bytes and marks of the first `count` of these blocks.
pub(crate) fn first_blocks<'a, 'b>(
    bytes: &'a [u8],
    marks: &'b [Mark],
    size: usize,
    count: usize,
) -> (&'a [u8], &'b [Mark])
    requires within { count ≤ length marks.now }
    requires whole { length bytes.now ≡ length marks.now * size }
    ensures count { length result.1.now ≡ count }
    ensures whole { length result.0.now ≡ count * size }
    ensures first { blocks_of size result.0.now result.1.now
        ≡ take count (blocks_of size bytes.now marks.now) }
{
    (&bytes[..count * size], &marks[..count])
}
