//! The chunks of a drive, read where they lie.

ghost use Rattle.std.specs.Prelude.{◌≡◌, ◌*◌, ◌-◌, ◌<◌, ◌≤◌, ◌^◌, ℕ, not, length, map, slice_get, Some, IfOk};
ghost use Rattle.std.specs.List.{AllByRecursion};
ghost use Rattle.std.specs.Option.{is_some};
ghost use Rattle.pblk_model.specs.Accepted.{IsAccepted};
ghost use Rattle.pblk_model.specs.Image.{IsFit, block_at, line_units, width};
ghost use Rattle.pblk_model.specs.ImageFile as file;
ghost use Rattle.pblk_model.specs.Shape.{units as unit_count};
ghost use Rattle.pblk_layout.specs.Online.{units_in};
ghost use Rattle.pblk_laws.specs.LineBlocks.{written_at};
ghost use Rattle.pblk_world.specs.Lines.{are_empty};
ghost use Rattle.ocssd_drive.specs.Drive.{stored};
ghost use Rattle.scan_recovery.specs.Reading.{blocks_at};
ghost use Rattle.pblk_model.specs.Tables.{IsTable};
ghost use Rattle.scan_recovery.specs.Units.{AreFit, image_of};

use crate::line_records::Block;
use crate::reading::{is_used, online_units};
use ocssd_drive::{Drive, MemoryUnit};
use pblk_layout::{Layout, LineUnits};
use pblk_model::Shape;
use std::alloc::{AllocError, Global};
use std::marker::Model;

/// The chunks of a drive, whose written blocks are read where they lie, whether they can be fetched
/// or not. Contracts see the image that they are.
#[derive(Drop)]
pub(crate) struct Media<'a> {
    units: &'a [MemoryUnit],
    layout: Layout,
    // the online units of each line, by its number
    online: Vec<LineUnits>,
}

impl<'a> Model for Media<'a> {
    ghost use Rattle.pblk_model.specs.Image.{Image};
    ghost use Rattle.scan_recovery.specs.Media.{IsMedia, media_image};

    ghost Value = { Image };

    ghost view = { media_image };

    ghost invariant = { IsMedia };
}

impl<'a> Media<'a> {
    /// Those of a drive.
    pub(crate) fn new(alloc: Global, drive: &'a Drive) -> Result<Media<'a>, AllocError>
        ensures image { IfOk result (λ m. m ≡ file.image_of (stored drive.now)) }
        ensures accepted { IfOk result (λ m. IsAccepted m.shape) }
        ensures fit { IfOk result IsFit }
    {
        let shape = drive.shape();
        let units = drive.units.as_slice();
        let online = online_by_line(alloc, units, &shape)?;
        Ok(Media {
            units,
            layout: Layout::new(&shape),
            online,
        })
    }

    /// The shape of the drive.
    pub(crate) fn shape(&self) -> Shape
        ensures shape { result ≡ self.now.shape }
    {
        *self.layout.shape()
    }

    /// How many online units a line has.
    pub(crate) fn width(&self, line: u32) -> u32
        requires { line < self.now.shape.chunks }
        ensures width { result ≡ width self.now line }
        ensures few { result ≤ unit_count self.now.shape }
    {
        self.online[line as usize].width()
    }

    /// Whether a line has a chunk that is neither Free nor Offline.
    pub(crate) fn is_used(&self, line: u32) -> bool
        requires { line < self.now.shape.chunks }
        ensures { result ≡ not (are_empty self.now line) }
    {
        is_used(self.units, self.layout.shape(), line)
    }

    /// The block at a line address, where it is written.
    pub(crate) fn block(&self, line: u32, at: u32) -> Option<Block<'a>>
        requires { line < self.now.shape.chunks }
        ensures { result ≡ block_at self.now line at }
    {
        let shape = self.layout.shape();
        let online = self.online[line as usize];
        if at >= online.width() * shape.clba {
            return None;
        }
        let (unit, block) = self.layout.place(online.bits(), at);
        written_in(self.units, shape, line, unit, block)
    }

    /// Whether the block at a line address is written. It isn't looked at.
    pub(crate) fn is_written(&self, line: u32, at: u32) -> bool
        requires { line < self.now.shape.chunks }
        ensures { result ≡ is_some (block_at self.now line at) }
    {
        let shape = self.layout.shape();
        let online = self.online[line as usize];
        if at >= online.width() * shape.clba {
            return false;
        }
        let (unit, block) = self.layout.place(online.bits(), at);
        is_written_in(self.units, shape, line, unit, block)
    }

    /// How many blocks a line has, written or not.
    pub(crate) fn len(&self, line: u32) -> u32
        requires { line < self.now.shape.chunks }
        ensures len { result ≡ width self.now line * self.now.shape.clba }
        ensures few { result ≤ 65536 }
    {
        self.width(line) * self.layout.shape().clba
    }

    /// The blocks of a line at these line addresses, each where it is written.
    pub(crate) fn blocks(
        &self,
        alloc: Global,
        line: u32,
        from: u32,
        to: u32,
    ) -> Result<Vec<Option<Block<'a>>>, AllocError>
        requires line { line < self.now.shape.chunks }
        requires range { from ≤ to }
        ensures blocks { IfOk result (λ v. v.items ≡ blocks_at self.now line from (to - from)) }
    {
        let mut blocks = Vec::with_capacity(alloc, (to - from) as usize)?;
        for at in from..to {
            blocks.push(self.block(line, at))?;
        }
        Ok(blocks)
    }
}

// The online units of each line, by its number.
fn online_by_line(
    alloc: Global,
    units: &[MemoryUnit],
    shape: &Shape,
) -> Result<Vec<LineUnits>, AllocError>
    requires accepted { IsAccepted shape.now }
    requires fit { AreFit shape.now (map (λ u. u.unit) units.now) }
    ensures units { IfOk result (λ v. IsTable shape.now.chunks
        (line_units (image_of shape.now (map (λ u. u.unit) units.now))) (map units_in v.items)) }
    ensures below { let n = unit_count shape.now
        in IfOk result (λ v. AllByRecursion (λ live. live < 2 ^ n) v.items) }
{
    let mut online = Vec::with_capacity(alloc, shape.chunks as usize)?;
    for line in 0..shape.chunks {
        online.push(online_units(units, shape, line))?;
    }
    Ok(online)
}

// Whether a block of a unit's chunk of a line is written.
fn is_written_in(units: &[MemoryUnit], shape: &Shape, line: u32, unit: u32, block: u32) -> bool
    requires fit { AreFit shape.now (map (λ u. u.unit) units.now) }
    requires unit { unit < length units.now }
    requires line { line < shape.now.chunks }
    ensures { let i = image_of shape.now (map (λ u. u.unit) units.now)
        in result ≡ is_some (written_at i line (unit, block)) }
{
    // the shape says which chunks there are
    let _ = shape;
    let (_state, pointer) = units[unit as usize].chunk(line).state();
    block < pointer
}

// A block of a unit's chunk of a line, where it is written.
fn written_in<'a>(
    units: &'a [MemoryUnit],
    shape: &Shape,
    line: u32,
    unit: u32,
    block: u32,
) -> Option<Block<'a>>
    requires fit { AreFit shape.now (map (λ u. u.unit) units.now) }
    requires unit { unit < length units.now }
    requires line { line < shape.now.chunks }
    ensures { let i = image_of shape.now (map (λ u. u.unit) units.now)
        in result ≡ written_at i line (unit, block) }
{
    // the shape says which chunks there are
    let _ = shape;
    let chunk = units[unit as usize].chunk(line);
    match chunk.written(block) {
        None => None,
        Some((sector, mark)) => Some(Block { sector, mark }),
    }
}
