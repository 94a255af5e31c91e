//! The lines of a drive, read where they lie.

ghost use Rattle.std.specs.Prelude.{◌≡◌, ◌<◌, ◌≤◌, ◌*◌, ◌+◌, ◌^◌, ℕ, None, IfOk, Some};
ghost use Rattle.std.specs.Option.{option_map};
ghost use Rattle.pblk_model.specs.Accepted.{IsAccepted};
ghost use Rattle.pblk_model.specs.Image.{IsFit, block_at, width};
ghost use Rattle.pblk_model.specs.ImageFile as file;
ghost use Rattle.pblk_model.specs.LineOrder.{start_len};
ghost use Rattle.pblk_model.specs.Records.{line_records, mark_at, named, record_at};
ghost use Rattle.pblk_model.specs.Shape.{units};
ghost use Rattle.pblk_model.specs.StartRecord.{StartRecord as Start, start_of, written_run};
ghost use Rattle.pblk_model.specs.EndRecord.{end_of};
ghost use Rattle.pblk_laws.specs.LineBlocks.{chunk_in};
ghost use Rattle.pblk_meta.specs.Records.{end_numbers, start_numbers};
ghost use Rattle.ocssd_drive.specs.Drive.{IsWhole, shape_of, stored};
ghost use Rattle.image_check.specs.Lines.{HasOnline};

use crate::block::{Block, bytes_of, have_meta};
use crate::record::Record;
use ocssd_drive::{Chunk, Drive};
use pblk_layout::{Layout, LineUnits, is_online};
use pblk_meta::{EndRecord, StartRecord};
use pblk_model::{Mark, Shape};
use std::alloc::{AllocError, Global};
use std::marker::Model;

/// A line of a drive, whose written blocks are read where they lie, whether they can be fetched or
/// not. Contracts see the drive's image and the line's number.
#[derive(Drop)]
pub(crate) struct Line<'a> {
    drive: &'a Drive,
    layout: Layout,
    number: u32,
    online: LineUnits,
}

impl<'a> Model for Line<'a> {
    ghost use Rattle.image_check.specs.Lines.{IsLine, LineView, line_view};

    ghost Value = { LineView };

    ghost view = { line_view };

    ghost invariant = { IsLine };
}

// The online units of a line: those whose chunk of it isn't Offline.
fn online_units(drive: &Drive, shape: &Shape, line: u32) -> LineUnits
    requires whole { IsWhole drive.now }
    requires shape { shape.now ≡ shape_of drive.now }
    requires line { line < shape.now.chunks }
    ensures { HasOnline (file.image_of (stored drive.now)) line result }
{
    let mut online = LineUnits::none();
    for unit in 0..shape.units() {
        let (state, _) = drive.unit(unit).chunk(line).state();
        if is_online(state) {
            online.add(unit);
        }
    }
    online
}

impl<'a> Line<'a> {
    /// A line of a drive, by its number, which is below the number of lines.
    pub(crate) fn new(drive: &'a Drive, number: u32) -> Line<'a>
        requires { number < (shape_of drive.now).chunks }
        ensures image { result.image ≡ file.image_of (stored drive.now) }
        ensures number { result.number ≡ number }
    {
        let shape = drive.shape();
        let online = online_units(drive, &shape, number);
        Line {
            drive,
            layout: Layout::new(&shape),
            number,
            online,
        }
    }

    /// Its number.
    pub(crate) fn number(&self) -> u32
        ensures { result ≡ self.now.number }
    {
        self.number
    }

    /// The chunk of a unit.
    pub(crate) fn chunk(&self, unit: u32) -> &'a Chunk
        requires { unit < units self.now.image.shape }
        ensures chunk { chunk_in self.now.image self.now.number unit ≡ Some result.now.chunk }
        ensures shape { result.now.shape ≡ self.now.image.shape }
    {
        self.drive.unit(unit).chunk(self.number)
    }

    /// How many units the drive has.
    pub(crate) fn units(&self) -> u32
        ensures count { result ≡ units self.now.image.shape }
        ensures fit { IsFit self.now.image }
    {
        self.layout.shape().units()
    }

    /// How many blocks a chunk has.
    pub(crate) fn clba(&self) -> u32
        ensures { result ≡ self.now.image.shape.clba }
    {
        self.layout.shape().clba
    }

    /// How many addresses at its front its start record has.
    pub(crate) fn start_len(&self) -> u32
        ensures { result ≡ start_len self.now.image.shape }
    {
        self.layout.start_len()
    }

    /// How many online units it has.
    pub(crate) fn width(&self) -> u32
        ensures width { result ≡ width self.now.image self.now.number }
        ensures few { result ≤ units self.now.image.shape }
        ensures line { self.now.number < self.now.image.shape.chunks }
        ensures accepted { IsAccepted self.now.image.shape }
        ensures short { width self.now.image self.now.number * self.now.image.shape.clba ≤ 65536 }
    {
        self.online.width()
    }

    /// How many blocks it has.
    pub(crate) fn len(&self) -> u32
        ensures count { result
            ≡ width self.now.image self.now.number * self.now.image.shape.clba }
        ensures past { (a : ℕ) → result ≤ a
            → block_at self.now.image self.now.number a ≡ None }
    {
        let count = self.width() * self.layout.shape().clba;
        count
    }

    /// The block at a line address, where it is written.
    pub(crate) fn block(&self, at: u32) -> Option<Block<'a>>
        ensures { result ≡ block_at self.now.image self.now.number at }
    {
        if at >= self.len() {
            return None;
        }
        let (unit, block) = self.layout.place(self.online.bits(), at);
        let found = self.drive.unit(unit);
        let chunk = found.chunk(self.number);
        match chunk.written(block) {
            None => None,
            Some((sector, mark)) => Some(Block { sector, mark }),
        }
    }

    // So many blocks from a line address on, where all of them are written.
    fn run(&self, alloc: Global, at: u32, count: u32) -> Result<Option<Vec<Block<'a>>>, AllocError>
        requires { at + count < 2 ^ 32 }
        ensures { IfOk result (λ o. option_map (λ v. v.items) o
            ≡ written_run self.now.image self.now.number at count) }
    {
        let mut blocks = Vec::with_capacity(alloc, count as usize)?;
        for place in at..at + count {
            match self.block(place) {
                None => return Ok(None),
                Some(block) => blocks.push(block)?,
            }
        }
        Ok(Some(blocks))
    }

    /// Its start record, where it is whole.
    pub(crate) fn start(&self, alloc: Global) -> Result<Option<StartRecord>, AllocError>
        ensures { IfOk result (λ o. option_map start_numbers o
            ≡ start_of self.now.image self.now.number) }
    {
        let Some(blocks) = self.run(alloc, 0, self.layout.start_len())? else {
            return Ok(None);
        };
        let bytes = bytes_of(alloc, &blocks)?;
        let width = self.width();
        let Some(start) = StartRecord::read(alloc, &bytes, &self.layout, self.number, width)? else {
            return Ok(None);
        };
        if !have_meta(&blocks, start.seq) {
            return Ok(None);
        }
        Ok(Some(start))
    }

    /// Its end record, where it is whole, for the sequence number of its start record.
    pub(crate) fn end(&self, alloc: Global, seq: u64) -> Result<Option<EndRecord>, AllocError>
        ensures { (start : Start) → start.seq ≡ seq → IfOk result (λ o. option_map end_numbers o
            ≡ end_of self.now.image self.now.number start) }
    {
        let width = self.width();
        let count = self.layout.end_len(width);
        let front = self.len().saturating_sub(count);
        let Some(blocks) = self.run(alloc, front, count)? else {
            return Ok(None);
        };
        if !have_meta(&blocks, seq) {
            return Ok(None);
        }
        let bytes = bytes_of(alloc, &blocks)?;
        EndRecord::read(alloc, &bytes, &self.layout, self.number, width, seq)
    }

    // What the block at a line address bears, by the line's sequence number and end record.
    fn record(&self, seq: u64, end: &Option<EndRecord>, at: u32) -> Option<Record<'a>>
        ensures { (start : Start) → start.seq ≡ seq
            → option_map end_numbers end.now ≡ end_of self.now.image self.now.number start
            → result ≡ record_at self.now.image self.now.number start at }
    {
        let shape = self.layout.shape();
        let block = self.block(at)?;
        let mark = mark_at(shape, end, at, &block)?;
        let lba = named(shape, mark)?;
        Some(Record {
            line: self.number,
            seq,
            at,
            position: mark.position,
            lba,
            sector: block.sector,
        })
    }

    /// What its written blocks bear, by rising line address: nothing without a whole start record.
    pub(crate) fn records(&self, alloc: Global) -> Result<Vec<Record<'a>>, AllocError>
        ensures { IfOk result (λ v. v.items ≡ line_records self.now.image self.now.number) }
    {
        let mut records = Vec::new(alloc);
        let Some(start) = self.start(alloc)? else {
            return Ok(records);
        };
        let end = self.end(alloc, start.seq)?;
        for at in 0..self.len() {
            if let Some(record) = self.record(start.seq, &end, at) {
                records.push(record)?;
            }
        }
        Ok(records)
    }
}

// The mark that counts for a block: its pair in the end record where that is whole, else its own.
fn mark_at(shape: &Shape, end: &Option<EndRecord>, at: u32, block: &Block<'_>) -> Option<Mark>
    requires { IsAccepted shape.now }
    ensures { result ≡ mark_at shape.now (option_map end_numbers end.now) at block.now }
{
    let Some(end) = end else {
        return Some(block.mark);
    };
    let data = at.checked_sub(shape.start_len())?;
    end.pairs.as_slice().get(data as usize).copied()
}

// The sector that a mark names: none for a position that was given up, and nothing for all else.
fn named(shape: &Shape, mark: Mark) -> Option<Option<u64>>
    ensures { result ≡ named shape.now mark }
{
    if mark.lba < shape.capacity {
        return Some(Some(mark.lba));
    }
    if mark.lba == Mark::VOID_LBA {
        return Some(None);
    }
    None
}
