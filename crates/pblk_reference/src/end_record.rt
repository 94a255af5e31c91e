//! End records.

ghost use Rattle.std.specs.Prelude.{◌≡◌, ◌<◌, ◌≤◌, ◌^◌, ◌++◌, length, OnOk, IfOk, vec_len};
ghost use Rattle.std.specs.List.{flat_map};
ghost use Rattle.std.specs.Option.{option_map};
ghost use Rattle.pblk_model.specs.Accepted.{IsAccepted};
ghost use Rattle.pblk_model.specs.Shape.{units};
ghost use Rattle.pblk_model.specs.EndRecord.{end_bytes, pairs_in, end_of};
ghost use Rattle.pblk_reference.specs.Ready.{IsOfAcceptedShape};
ghost use Rattle.pblk_reference.specs.Words.{pair_words};
ghost use Rattle.pblk_reference.specs.Reading.{end_fields, end_read, end_among, end_run};

use crate::bytes::{after, byte_len, front_words, pad, put_u64s, same, u64_at};
use crate::image::{Block, Image};
use crate::order::{data_len, end_len, line_len, width};
use crate::start::{StartRecord, bytes_of, have_meta, written_run};
use pblk_model::{Mark, Shape};
use std::alloc::{AllocError, Global};
use std::marker::Model;

/// The end record of a full line. Contracts see the model's `EndRecord`.
#[derive(Debug, Drop)]
pub struct EndRecord {
    pub line: u32,
    pub width: u32,
    pub seq: u64,
    /// The marks of the line's data, in line order.
    pub pairs: Vec<Mark>,
}

impl Model for EndRecord {
    ghost use Rattle.pblk_model.specs.EndRecord.{EndRecord as End};

    ghost Value = { End };

    ghost view = { λ a. record {
      line = a.line;
      width = a.width;
      seq = a.seq;
      pairs = a.pairs.items;
    } };
}

fn put_pairs(out: &mut Vec<u8>, pairs: &[Mark]) -> Result<(), AllocError>
    ensures { OnOk result (out.new.items ≡ out.old.items ++ flat_map pair_words pairs.now) }
{
    for pair in pairs {
        put_u64s(out, &[pair.lba, pair.position])?;
    }
    Ok(())
}

/// The record's one spelling, in the blocks of a line's end.
pub fn end_bytes(alloc: Global, shape: &Shape, end: &EndRecord) -> Result<Vec<u8>, AllocError>
    requires accepted { IsAccepted shape.now }
    requires width { end.now.width ≤ units shape.now }
    requires pairs { length end.now.pairs < 2 ^ 32 }
    ensures { IfOk result (λ v. v.items ≡ end_bytes shape.now end.now) }
{
    let short = [end.pairs.len() as u32, 0];
    let mut out = front_words(alloc, 2, end.line, end.width, &[end.seq], &short)?;
    put_pairs(&mut out, &end.pairs)?;
    let len = byte_len(end_len(shape, end.width), shape.sector);
    pad(alloc, &mut out, len)?;
    Ok(out)
}

fn pairs_in(alloc: Global, count: u32, bytes: &[u8]) -> Result<Vec<Mark>, AllocError>
    ensures pairs { IfOk result (λ v. v.items ≡ pairs_in count bytes.now) }
    ensures len { IfOk result (λ v. vec_len v ≡ count) }
{
    let mut pairs = Vec::new(alloc);
    let mut rest = bytes;
    for _ in 0..count {
        let lba = u64_at(rest, 0);
        let position = u64_at(rest, 8);
        pairs.push(Mark { lba, position })?;
        rest = after(rest, 16);
    }
    Ok(pairs)
}

#[tactic(auto, unfolding(crate::specs::Reading::end_fields))]
fn end_fields(
    alloc: Global,
    shape: &Shape,
    line: u32,
    width: u32,
    seq: u64,
    bytes: &[u8],
) -> Result<EndRecord, AllocError>
    requires accepted { IsAccepted shape.now }
    requires width { width ≤ units shape.now }
    ensures fields { IfOk result (λ r. r ≡ end_fields shape.now line width seq bytes.now) }
    ensures few { IfOk result (λ r. length r.pairs < 2 ^ 32) }
    ensures width { IfOk result (λ r. r.width ≡ width) }
{
    let pairs = pairs_in(alloc, data_len(shape, width), after(bytes, 32))?;
    Ok(EndRecord {
        line,
        width,
        seq,
        pairs,
    })
}

fn read_end(
    alloc: Global,
    shape: &Shape,
    line: u32,
    width: u32,
    seq: u64,
    bytes: &[u8],
) -> Result<Option<EndRecord>, AllocError>
    requires accepted { IsAccepted shape.now }
    requires width { width ≤ units shape.now }
    ensures { IfOk result (λ o. o ≡ end_read shape.now line width seq bytes.now) }
{
    let end = end_fields(alloc, shape, line, width, seq, bytes)?;
    let spelling = end_bytes(alloc, shape, &end)?;
    if !same(&spelling, bytes) {
        return Ok(None);
    }
    Ok(Some(end))
}

// The record in the blocks of a line's end, where they have its mark.
fn end_among(
    alloc: Global,
    shape: &Shape,
    line: u32,
    width: u32,
    seq: u64,
    found: &[Block],
) -> Result<Option<EndRecord>, AllocError>
    requires accepted { IsAccepted shape.now }
    requires width { width ≤ units shape.now }
    ensures { IfOk result (λ o. o ≡ end_among shape.now line width seq found.now) }
{
    if !have_meta(seq, found) {
        return Ok(None);
    }
    let bytes = bytes_of(alloc, found)?;
    read_end(alloc, shape, line, width, seq, &bytes)
}

// The blocks of a line's end, where all of them are written.
fn end_run(
    alloc: Global,
    image: &Image,
    line: u32,
    width: u32,
) -> Result<Option<Vec<Block>>, AllocError>
    requires ready { IsOfAcceptedShape image.now }
    requires width { width ≤ units image.now.shape }
    ensures { IfOk result (λ o. option_map (λ v. v.items) o ≡ end_run image.now line width) }
{
    let len = end_len(&image.shape, width);
    let first = line_len(&image.shape, width).saturating_sub(len);
    written_run(alloc, image, line, first, len)
}

/// The end record of a line with this start record, where it is whole.
pub fn end_of(
    alloc: Global,
    image: &Image,
    line: u32,
    start: &StartRecord,
) -> Result<Option<EndRecord>, AllocError>
    requires { IsOfAcceptedShape image.now }
    ensures { IfOk result (λ o. o ≡ end_of image.now line start.now) }
{
    let width = width(image, line);
    let Some(found) = end_run(alloc, image, line, width)? else {
        return Ok(None);
    };
    end_among(alloc, &image.shape, line, width, start.seq, &found)
}
