//! The blocks of a line that were fetched, in one buffer.

ghost use Rattle.std.specs.Prelude.{List, Option, ◌≡◌, ◌+◌, ◌*◌, ◌<◌, ◌≤◌, [], ◌∷◌, ◌++◌, ℕ, length, map, take, IfOk, IfSome, OnOk, OnErr};
ghost use Rattle.pblk_model.specs.declared.chunk.Mark.{Mark as ModelMark};
ghost use Rattle.pblk_laws.specs.LineBlocks.{written_at};
ghost use Rattle.unit_port.specs.Commands.{AreKept};
ghost use Rattle.world_laws.specs.Finding.{NoneOpen};
ghost use Rattle.scan_recovery.specs.Fetches.{WereFewFetched, error_of, only_of};
ghost use Rattle.scan_recovery.specs.Packed.{packed, written_count};
ghost use Rattle.scan_recovery.specs.Units.{AreFit, image_of};

use crate::error::ScanErr;
use crate::fetching::{fetch_into, is_written};
use crate::line_records::Block;
use pblk_model::{Mark, Shape};
use std::alloc::{AllocError, Global};
use std::marker::Model;
use unit_port::Unit;

/// Blocks that were fetched, one after another, each where it is written. Their sectors lie in one
/// buffer, which serves run after run. Contracts see how many bytes a sector has, and the list of
/// the model's `Block`s.
#[derive(Debug, Drop)]
pub(crate) struct LineBuffer {
    // the sectors of the written ones stand at its front, one after another
    bytes: Vec<u8>,
    // how many bytes these have
    used: usize,
    // the mark of each block, where it is written
    marks: Vec<Option<Mark>>,
    size: usize,
}

impl Model for LineBuffer {
    ghost use Rattle.scan_recovery.specs.Packed.{PackedBlocks};
    ghost use Rattle.scan_recovery.specs.LineBuffer.{IsLineBuffer, packed_blocks};

    ghost Value = { PackedBlocks };

    ghost view = { packed_blocks };

    ghost invariant = { IsLineBuffer };
}

impl LineBuffer {
    /// That of no blocks, for sectors of this size, which is at most 4096 bytes. It takes no
    /// memory.
    pub(crate) fn new(alloc: Global, size: u32) -> LineBuffer
        requires { size ≤ 4096 }
        ensures size { result.size ≡ size }
        ensures blocks { result.blocks ≡ [] }
    {
        LineBuffer {
            bytes: Vec::new(alloc),
            used: 0,
            marks: Vec::new(alloc),
            size: size as usize,
        }
    }

    /// Takes all blocks away. The buffer keeps its memory.
    pub(crate) fn clear(&mut self)
        ensures { self.new ≡ record { size = self.old.size; blocks = [] } }
    {
        self.used = 0;
        self.marks.clear();
    }

    /// Fetches a block, if it is written, and adds it.
    pub(crate) fn fetch<U: Unit>(
        &mut self,
        units: &mut [U],
        shape: &Shape,
        line: u32,
        unit: u32,
        block: u32,
    ) -> Result<(), ScanErr>
        requires size { self.old.size ≡ shape.now.sector }
        requires fit { AreFit shape.now (map U.model units.old) }
        requires closed { NoneOpen (image_of shape.now (map U.model units.old)) }
        requires unit { unit < length units.old }
        requires line { line < shape.now.chunks }
        ensures block { let i = image_of shape.now (map U.model units.old)
            in OnOk result (self.new.blocks
            ≡ self.old.blocks ++ written_at i line (unit, block) ∷ []) }
        ensures size { self.new.size ≡ self.old.size }
        ensures fetched { WereFewFetched shape.now (map U.model units.old) (map U.model units.new)
            (error_of result) (only_of line 1) }
        ensures kept { AreKept (map U.model units.old) (map U.model units.new) }
        ensures wear { map U.wear units.new ≡ map U.wear units.old }
    {
        if !is_written(units, shape, line, unit, block) {
            note(&mut self.marks, None)?;
            return Ok(());
        }
        let end = self.used + self.size;
        widen(&mut self.bytes, end)?;
        let out = &mut self.bytes[self.used..end];
        let mark = fetch_into(units, shape, line, unit, block, out)?;
        note(&mut self.marks, Some(mark))?;
        self.used = end;
        Ok(())
    }

    /// The blocks, to be read where they lie.
    pub(crate) fn blocks(&self, alloc: Global) -> Result<Vec<Option<Block<'_>>>, AllocError>
        ensures { IfOk result (λ v. v.items ≡ self.now.blocks) }
    {
        blocks_in(alloc, &self.bytes[..self.used], &self.marks, self.size)
    }
}

// The blocks of these marks, whose sectors lie one after another.
fn blocks_in<'a>(
    alloc: Global,
    bytes: &'a [u8],
    marks: &[Option<Mark>],
    size: usize,
) -> Result<Vec<Option<Block<'a>>>, AllocError>
    requires { written_count marks.now * size ≤ length bytes.now }
    ensures { IfOk result (λ v. v.items ≡ packed size bytes.now marks.now) }
{
    let mut blocks = Vec::with_capacity(alloc, marks.len())?;
    let mut rest = bytes;
    for mark in marks {
        let (block, after) = first_block(rest, *mark, size);
        blocks.push(block)?;
        rest = after;
    }
    Ok(blocks)
}

// The first of blocks whose sectors lie one after another, and the bytes behind it.
fn first_block(bytes: &[u8], mark: Option<Mark>, size: usize) -> (Option<Block<'_>>, &[u8])
    requires { IfSome mark (λ m. size ≤ length bytes.now) }
    ensures first { (marks : List (Option ModelMark)) → packed size bytes.now (mark ∷ marks)
        ≡ result.0 ∷ packed size result.1.now marks }
    ensures rest { length bytes.now ≡ written_count (mark ∷ []) * size + length result.1.now }
{
    match mark {
        None => (None, bytes),
        Some(mark) => {
            let (sector, rest) = bytes.split_at(size);
            (Some(Block { sector, mark }), rest)
        }
    }
}

// Gives a buffer at least so many bytes. Those that it has stay.
fn widen(bytes: &mut Vec<u8>, len: usize) -> Result<(), AllocError>
    ensures len { OnOk result (len ≤ length bytes.new.items) }
    ensures more { length bytes.old.items ≤ length bytes.new.items }
    ensures same { (front : ℕ) → front ≤ length bytes.old.items
        → take front bytes.new.items ≡ take front bytes.old.items }
{
    if bytes.len() < len {
        bytes.resize(len, 0)?;
    }
    Ok(())
}

// Adds a mark. After want of memory the list is as it was.
fn note(marks: &mut Vec<Option<Mark>>, mark: Option<Mark>) -> Result<(), AllocError>
    ensures ok { OnOk result (marks.new.items ≡ marks.old.items ++ mark ∷ []) }
    ensures err { OnErr result (marks.new.items ≡ marks.old.items) }
{
    marks.push(mark)?;
    Ok(())
}
