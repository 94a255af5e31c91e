//! A drive in memory.
ghost use Rattle.std.specs.Prelude.{ℕ, ◌≡◌, ◌+◌, ◌*◌, ◌%◌, ◌<◌, ◌↔◌, IsNone, IfNone, length, map, replicate, slice_get, IfOk, OnOk, OnErr, Option, Some};
ghost use Rattle.pblk_model.specs.Accepted.{IsAccepted, shape_refusal};
ghost use Rattle.pblk_model.specs.Blocks.{blocks_of};
ghost use Rattle.pblk_model.specs.Chunk.{PointerFits};
ghost use Rattle.pblk_model.specs.Geometry.{shape_with};
ghost use Rattle.pblk_model.specs.ImageFile.{blank_drive};
ghost use Rattle.pblk_model.specs.Shape.{units};
ghost use Rattle.ocssd_geometry.specs.Numbers.{IsGeometry, numbers_of};
ghost use Rattle.atomic_table.specs.Seated.{TableId};
ghost use Rattle.unit_port.specs.Armed.{events_since};
ghost use Rattle.unit_port.specs.Unit.{IsStopped};
ghost use Rattle.ocssd_drive.specs.Drive.{AreArmedTogether, FuseFell, HasWord, IsWhole, armed_units, fitting_fuse, new_drive, shape_of, stored, with_chunk_at, with_replaced, with_restored, with_units};
ghost use Rattle.ocssd_drive.specs.Spelled.{RestoresDrive};
ghost use Rattle.ocssd_drive.specs.Journal.{IsCalm};
ghost use Rattle.ocssd_drive.specs.Outcomes.{AreEventsBy};
ghost use Rattle.ocssd_drive.specs.Units.{WornUnit, IsChunkIn, IsUnitOf, disarmed, new_unit, worn_chunk};

use crate::arm::{fitting, install, make_armings};
use crate::disarm::disarm_units;
use crate::memory_unit::MemoryUnit;
use bytes::Bytes;
use ocssd_chunks::Chunk;
use ocssd_geometry::Geometry;
use pblk_model::{ChunkState, Mark, Shape, ShapeErr};
use std::alloc::{AllocError, Global};
use std::marker::Model;
use unit_port::{FaultPlan, Fuse};

/// A drive in memory: its geometry, the settings of the target on it, and its parallel units,
/// numbered by group and then by place in the group (Open-Channel SSD Specification 2.0, Geometry).
///
/// `sector` is a block's size in bytes, `capacity` the number of user sectors, `ring` the number of
/// entries of the write buffer.
#[derive(Debug, Drop)]
pub struct Drive {
    pub geometry: Geometry,
    pub sector: u32,
    pub capacity: u64,
    pub ring: u32,
    pub units: Vec<MemoryUnit>,
}

// Contracts see its numbers and its units.
impl Model for Drive {
    ghost use Rattle.ocssd_drive.specs.Drive.{DriveView, IsWhole};

    ghost Value = { DriveView };

    ghost use Rattle.ocssd_drive.specs.DriveFields.{drive_view};

    ghost view = { drive_view };

    ghost invariant = { λ d. IsWhole (drive_view d) };
}

impl Drive {
    /// Why there is no drive of this geometry with these settings, or None where there is one: the
    /// first reason, as `Shape::refusal` names it (Open-Channel SSD Specification 2.0, Geometry).
    pub fn refusal(geometry: &Geometry, sector: u32, capacity: u64, ring: u32) -> Option<ShapeErr>
        ensures refusal { let shape = shape_with (numbers_of geometry.now) sector capacity ring
            in result ≡ shape_refusal shape }
        ensures accepted { let shape = shape_with (numbers_of geometry.now) sector capacity ring
            in IsNone result ↔ IsAccepted shape }
        ensures none { let shape = shape_with (numbers_of geometry.now) sector capacity ring
            in IfNone result (IsAccepted shape) }
    {
        let shape = geometry.shape(sector, capacity, ring);
        shape.refusal()
    }

    /// A drive of this geometry with these settings: its units have Free chunks alone, wear indices
    /// 0 and empty logs, and aren't armed (Open-Channel SSD Specification 2.0, Geometry).
    ///
    /// The geometry is one that its own `refusal` finds no fault with, as those that
    /// `Geometry::read` gives, and `Drive::refusal` finds none with it and these settings.
    ///
    /// Takes memory for all blocks of the drive, and fails only where there isn't as much.
    pub fn new(
        alloc: Global,
        geometry: Geometry,
        sector: u32,
        capacity: u64,
        ring: u32,
    ) -> Result<Drive, AllocError>
        requires geometry { IsGeometry geometry }
        requires shape { IsAccepted (shape_with (numbers_of geometry) sector capacity ring) }
        ensures new { IfOk result (λ d. d ≡ new_drive geometry sector capacity ring) }
        ensures stored { IfOk result
            (λ d. stored d ≡ blank_drive (numbers_of geometry) sector capacity ring) }
        ensures whole { IfOk result IsWhole }
    {
        let shape = geometry.shape(sector, capacity, ring);
        let units = new_units(alloc, &shape)?;
        Ok(Drive {
            geometry,
            sector,
            capacity,
            ring,
            units,
        })
    }

    /// The numbers of the drive and of the target on it.
    pub fn shape(&self) -> Shape
        ensures shape { result ≡ shape_of self.now }
        ensures whole { IsWhole self.now }
    {
        let geometry = &self.geometry;
        geometry.shape(self.sector, self.capacity, self.ring)
    }

    /// A unit of the drive; there are as many as the shape says, numbered by group and then by
    /// place in the group, from 0.
    pub fn unit(&self, unit: u32) -> &MemoryUnit
        requires { unit < units (shape_of self.now) }
        ensures unit { slice_get self.now.units unit ≡ Some result.now }
        ensures fits { IsUnitOf (shape_of self.now) result.now }
    {
        &self.units[unit as usize]
    }

    /// Gives a chunk of a unit this wear index, this state, and the blocks of these bytes and
    /// marks, in place of what it had. All else stays. It isn't logged.
    ///
    /// `bytes` has a sector for each of `marks`, of which there are a multiple of WS_MIN: none for
    /// Free and Offline, from 1 to below CLBA for Open, up to CLBA for Closed.
    pub fn restore(
        &mut self,
        unit: u32,
        chunk: u32,
        wear: u8,
        state: ChunkState,
        bytes: &[u8],
        marks: &[Mark],
    )
        requires unit { unit < units (shape_of self.old) }
        requires chunk { chunk < self.old.geometry.chunks }
        requires whole { length bytes.now ≡ length marks.now * self.old.sector }
        requires place { PointerFits state self.old.geometry.clba (length marks.now) }
        requires multiple { length marks.now % self.old.geometry.ws_min ≡ 0 }
        ensures restored { let blocks = blocks_of self.old.sector bytes.now marks.now
            in self.new ≡ with_restored unit chunk (worn_chunk state blocks wear) self.old }

        // The same, of the drive as it is kept in a file.
        ensures stored { let blocks = blocks_of self.old.sector bytes.now marks.now
            in stored self.new
            ≡ with_chunk_at unit chunk (worn_chunk state blocks wear) (stored self.old) }
        ensures numbers { shape_of self.new ≡ shape_of self.old }
        ensures whole { IsWhole self.new }
    {
        let found = &mut self.units[unit as usize];
        found.restore(chunk, wear, state, bytes, marks);
    }

    /// As `restore`, with `count` blocks that stay where they are: in these bytes each block is its
    /// sector and then its mark, two numbers of eight little-endian bytes. Nothing is copied, and
    /// the bytes live until the chunk is reset or given others.
    pub fn adopt(
        &mut self,
        unit: u32,
        chunk: u32,
        wear: u8,
        state: ChunkState,
        count: u32,
        kept: Bytes,
    )
        requires unit { unit < units (shape_of self.old) }
        requires chunk { chunk < self.old.geometry.chunks }
        requires whole { length kept ≡ count * (self.old.sector + 16) }
        requires place { PointerFits state self.old.geometry.clba count }
        requires multiple { count % self.old.geometry.ws_min ≡ 0 }
        ensures restored { RestoresDrive unit chunk wear state count kept self.old self.new }
        ensures numbers { shape_of self.new ≡ shape_of self.old }
        ensures whole { IsWhole self.new }
    {
        let found = &mut self.units[unit as usize];
        found.adopt(chunk, wear, state, count, kept);
    }

    /// Puts a chunk of a drive of this one's shape in the place of a chunk of a unit, whose wear
    /// index stays. All else stays. It isn't logged (Open-Channel SSD Specification 2.0, Chunk
    /// states and write pointer).
    pub fn replace_chunk(&mut self, unit: u32, chunk: u32, with: Chunk)
        requires unit { unit < units (shape_of self.old) }
        requires chunk { chunk < self.old.geometry.chunks }
        requires with { IsChunkIn (shape_of self.old) with }
        ensures replaced { self.new ≡ with_replaced unit chunk with.chunk self.old }
        ensures numbers { shape_of self.new ≡ shape_of self.old }
        ensures whole { IsWhole self.new }
    {
        let found = &mut self.units[unit as usize];
        found.replace_chunk(chunk, with);
    }

    /// Arms the units with plans and a fuse, in place of what they were armed with. With a fuse
    /// they share a stop word, which each command of each unit loads first.
    ///
    /// Where two plans fall on one command, the first in `plans` counts; where a plan and the fuse
    /// fall on one command, the fuse counts. A plan or a fuse for a unit that the drive doesn't
    /// have counts as none. For want of memory the drive stays as it was.
    pub fn arm(
        &mut self,
        alloc: Global,
        plans: &[FaultPlan],
        fuse: Option<Fuse>,
    ) -> Result<(), AllocError>
        ensures armed { let fits = fitting_fuse (length self.old.units) fuse
            in OnOk result ((word : Option TableId) × HasWord fits word
            × (self.new ≡ with_units (armed_units plans.now fits word self.old.units) self.old)) }
        ensures together { OnOk result (AreArmedTogether self.new.units) }
        ensures refused { OnErr result (self.new ≡ self.old) }
        ensures numbers { shape_of self.new ≡ shape_of self.old }
        ensures whole { IsWhole self.new }
    {
        let fuse = fitting(self.units.len(), fuse);
        let armings = make_armings(alloc, self.units.len() as u32, plans, fuse)?;
        install(&mut self.units, armings, plans, fuse);
        Ok(())
    }

    /// Takes plans and fuse away.
    ///
    /// It asks for a drive that was armed: its units are those that one call of `arm` armed, in
    /// their order. They may have had any commands since. That is what the clause `together` of
    /// `arm` tells; a command changes nothing of what its unit was armed with, as the clause
    /// `event` of each command tells; and units that were taken out of the drive must come back to
    /// their places.
    ///
    /// A unit was stopped since they were armed only where the fuse's unit had its nth program or
    /// reset since. Each outcome since is by the plans and the fuse, and by whether the command
    /// found the stop word set. Without plans no command had failed, and without a fuse none was
    /// stopped.
    pub fn disarm(&mut self)
        requires { AreArmedTogether self.old.units }
        ensures units { self.new ≡ with_units (map disarmed self.old.units) self.old }
        ensures stopped { (i : ℕ) (u : WornUnit) → slice_get self.old.units i ≡ Some u
            → IsStopped u.unit → FuseFell self.old.units u.unit.armed }
        ensures calm { (i : ℕ) (u : WornUnit) → slice_get self.old.units i ≡ Some u
            → IsCalm u.unit.armed u.unit.log }
        ensures outcomes { (i : ℕ) (u : WornUnit) → slice_get self.old.units i ≡ Some u
            → let since = events_since u.unit.armed u.unit.log in
            AreEventsBy u.unit.shape u.unit.armed since }
        ensures whole { IsWhole self.new }
    {
        disarm_units(&mut self.units);
    }
}

// The units of a drive of this shape.
fn new_units(alloc: Global, shape: &Shape) -> Result<Vec<MemoryUnit>, AllocError>
    requires { IsAccepted shape.now }
    ensures { IfOk result (λ made. made.items ≡ replicate (units shape.now) (new_unit shape.now)) }
{
    let count = shape.units();
    let mut made = Vec::with_capacity(alloc, count as usize)?;
    for _unit in 0..count {
        made.push(MemoryUnit::new(alloc, shape)?)?;
    }
    Ok(made)
}
