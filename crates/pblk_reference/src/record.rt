//! What the written blocks of an image bear.

ghost use Rattle.std.specs.Prelude.{◌≡◌, ◌-◌, ◌*◌, ◌≤◌, nat_lt, if◌then◌else◌, None, slice_get, IfOk, vec_len};
ghost use Rattle.std.specs.List.{filter_map, range_with_len};
ghost use Rattle.pblk_model.specs.Accepted.{IsAccepted};
ghost use Rattle.pblk_model.specs.Image.{width};
ghost use Rattle.pblk_model.specs.Records.{named, mark_at, bears, records};
ghost use Rattle.pblk_reference.specs.Ready.{IsOfAcceptedShape};
ghost use Rattle.pblk_reference.specs.Reading.{record_with, records_on};

use crate::end_record::{EndRecord, end_of};
use crate::image::{Block, Image};
use crate::order::{block_at, line_len, start_len, width};
use crate::start::start_of;
use pblk_model::{Mark, Shape};
use std::alloc::{AllocError, Global};
use std::marker::Model;

/// What a written block bears. Contracts see the model's `Record`.
#[derive(Debug, Drop)]
pub struct Record {
    pub line: u32,
    /// The line's sequence number.
    pub seq: u64,
    /// The line address of the block.
    pub at: u32,
    pub position: u64,
    /// Whose sector the block holds; none where the position was given up.
    pub lba: Option<u64>,
    pub sector: Vec<u8>,
}

impl Model for Record {
    ghost use Rattle.pblk_model.specs.Records.{Record as Borne};

    ghost Value = { Borne };

    ghost view = { λ a. record {
      line = a.line;
      seq = a.seq;
      at = a.at;
      position = a.position;
      lba = a.lba;
      sector = a.sector.items;
    } };
}

impl Record {
    /// The same record again.
    pub fn copied(&self, alloc: Global) -> Result<Record, AllocError>
        ensures { IfOk result (λ r. r ≡ self.now) }
    {
        let sector = Vec::from_slice(alloc, &self.sector)?;
        Ok(Record {
            line: self.line,
            seq: self.seq,
            at: self.at,
            position: self.position,
            lba: self.lba,
            sector,
        })
    }
}

fn named(shape: &Shape, mark: Mark) -> Option<Option<u64>>
    ensures { result ≡ named shape.now mark }
{
    if mark.lba < shape.capacity {
        Some(Some(mark.lba))
    } else if mark.lba == Mark::VOID_LBA {
        Some(None)
    } else {
        None
    }
}

fn pair_at(pairs: &[Mark], start: u32, at: u32) -> Option<Mark>
    ensures { result ≡ (if nat_lt at start then None else slice_get pairs.now (at - start)) }
{
    if at < start {
        None
    } else {
        pairs.get((at - start) as usize).copied()
    }
}

fn mark_at(shape: &Shape, end: &Option<EndRecord>, at: u32, block: &Block) -> Option<Mark>
    requires { IsAccepted shape.now }
    ensures { result ≡ mark_at shape.now end.now at block.now }
{
    match end {
        None => Some(block.mark),
        Some(end) => pair_at(&end.pairs, start_len(shape), at),
    }
}

fn bears(
    alloc: Global,
    shape: &Shape,
    line: u32,
    seq: u64,
    at: u32,
    block: &Block,
    mark: Mark,
) -> Result<Option<Record>, AllocError>
    ensures { IfOk result (λ o. o ≡ bears shape.now line seq at block.now mark) }
{
    let Some(lba) = named(shape, mark) else {
        return Ok(None);
    };
    let sector = Vec::from_slice(alloc, &block.sector)?;
    Ok(Some(Record {
        line,
        seq,
        at,
        position: mark.position,
        lba,
        sector,
    }))
}

fn record_at(
    alloc: Global,
    image: &Image,
    line: u32,
    seq: u64,
    end: &Option<EndRecord>,
    at: u32,
) -> Result<Option<Record>, AllocError>
    requires { IsOfAcceptedShape image.now }
    ensures { IfOk result (λ o. o ≡ record_with image.now line seq end.now at) }
{
    let Some(block) = block_at(image, line, at) else {
        return Ok(None);
    };
    let Some(mark) = mark_at(&image.shape, end, at, block) else {
        return Ok(None);
    };
    bears(alloc, &image.shape, line, seq, at, block, mark)
}

fn records_with(
    alloc: Global,
    image: &Image,
    line: u32,
    seq: u64,
    end: &Option<EndRecord>,
) -> Result<Vec<Record>, AllocError>
    requires { IsOfAcceptedShape image.now }
    ensures records { IfOk result (λ v. v.items
        ≡ filter_map (record_with image.now line seq end.now)
        (range_with_len 0 (width image.now line * image.now.shape.clba))) }
    ensures few { IfOk result (λ v. vec_len v ≤ 65536) }
{
    let mut found = Vec::new(alloc);
    for at in 0..line_len(&image.shape, width(image, line)) {
        if let Some(record) = record_at(alloc, image, line, seq, end, at)? {
            found.push(record)?;
        }
    }
    Ok(found)
}

fn line_records(alloc: Global, image: &Image, line: u32) -> Result<Vec<Record>, AllocError>
    requires { IsOfAcceptedShape image.now }
    ensures records { IfOk result (λ v. v.items ≡ records_on image.now line) }
    ensures few { IfOk result (λ v. vec_len v ≤ 65536) }
{
    let Some(start) = start_of(alloc, image, line)? else {
        return Ok(Vec::new(alloc));
    };
    let end = end_of(alloc, image, line, &start)?;
    records_with(alloc, image, line, start.seq, &end)
}

/// All records of an image, by line and then in line order. They are at most 2^26.
pub fn records(alloc: Global, image: &Image) -> Result<Vec<Record>, AllocError>
    requires { IsOfAcceptedShape image.now }
    ensures records { IfOk result (λ v. v.items ≡ records image.now) }
    ensures few { IfOk result (λ v. vec_len v ≤ 67108864) }
{
    let mut all = Vec::new(alloc);
    for line in 0..image.shape.chunks {
        let mut found = line_records(alloc, image, line)?;
        all.append(&mut found)?;
    }
    Ok(all)
}
