//! A vector of addresses.
ghost use Rattle.std.specs.Prelude.{ℕ, ◌≡◌, ◌↔◌, ◌/◌, length, IfOk, IsErrOf, map};
ghost use Rattle.pblk_model.specs.Blocks.{blocks_of};
ghost use Rattle.ocssd_geometry.specs.Numbers.{numbers_of};
ghost use Rattle.vector_io.specs.Addresses.{AreInside, IsCount, IsVector, ModelVector, IsFirstOutside, IsFirstRepeated};
ghost use Rattle.unit_port.specs.Commands.{AreKept, AreTaken, AreUnitsOf};
ghost use Rattle.vector_io.specs.Plans.{AreFirstBlocks, AreOfChunksApart, HaveSectors, blocks_in, reads, resets, writes};
ghost use Rattle.vector_io.specs.Status.{Answers, Reads};

use crate::addresses::refusal;
use crate::reads::read_all;
use crate::resets::reset_all;
use crate::status::Status;
use crate::writes::write_all;
use ocssd_geometry::Geometry;
use pblk_model::{Address, Mark};
use std::alloc::{AllocError, Global};
use std::marker::Model;
use thiserror::Error;
use unit_port::Unit;

/// Why addresses are no vector: the first reason in this order. An index is a place among the addresses,
/// from 0.
#[derive(Clone, Copy, Debug, PartialEq, Eq, Error)]
pub enum VectorErr {
    /// There is none, or there are more than 64.
    #[error("a vector has from 1 to 64 addresses")]
    Count,
    /// The address with this index is the first that isn't one of a block of the drive.
    #[error("the address with index {0} is not on the drive")]
    Address(u32),
    /// The address with this index is the first that stood before.
    #[error("the address with index {0} stood before")]
    Repeated(u32),
    /// There isn't enough memory.
    #[error("out of memory")]
    Memory,
}

/// From 1 to 64 addresses of blocks of a drive, no two of them equal, and the drive's geometry
/// (Open-Channel SSD Specification 2.0, Vector read, write and reset).
#[derive(Debug, Drop)]
pub struct Vector {
    geometry: Geometry,
    addresses: Vec<Address>,
}

// Contracts see the geometry's numbers and the addresses.
impl Model for Vector {
    ghost use Rattle.vector_io.specs.Addresses.{ModelVector, IsVector};
    ghost use Rattle.ocssd_geometry.specs.Numbers.{numbers_of};

    ghost Value = { ModelVector };

    ghost view = { λ v. record { geometry = numbers_of v.geometry; addresses = v.addresses.items } };

    ghost invariant = { λ v. IsVector (numbers_of v.geometry) v.addresses.items };
}

impl Vector {
    /// A vector of these addresses, on a drive of this geometry.
    ///
    /// Refused, in this order: `Count` where there is none or are more than 64; `Address` with the index
    /// of the first that isn't an address of the drive; `Repeated` with the index of the first that stood
    /// before; `Memory`.
    pub fn new(
        alloc: Global,
        addresses: &[Address],
        geometry: &Geometry,
    ) -> Result<Vector, VectorErr>
        ensures count { IsErrOf result VectorErr.Count ↔ ¬ IsCount (length addresses.now) }
        ensures address { (i : ℕ) → IsErrOf result (VectorErr.Address i)
            ↔ (IsCount (length addresses.now)
            × IsFirstOutside (numbers_of geometry.now) addresses.now i) }
        ensures repeated { (i : ℕ) → IsErrOf result (VectorErr.Repeated i)
            ↔ (IsCount (length addresses.now) × AreInside (numbers_of geometry.now) addresses.now
            × IsFirstRepeated addresses.now i) }
        ensures vector { IfOk result (λ v. v ≡ record {
          geometry = numbers_of geometry.now;
          addresses = addresses.now;
        }) }
        ensures sound { IfOk result (λ v. IsVector v.geometry v.addresses) }
    {
        if let Some(refusal) = refusal(addresses, geometry) {
            return Err(refusal);
        }
        match copied(alloc, addresses) {
            Ok(addresses) => Ok(Vector {
                geometry: *geometry,
                addresses,
            }),
            Err(_) => Err(VectorErr::Memory),
        }
    }

    /// Reads the block of each address (Open-Channel SSD Specification 2.0, Vector read). `out` has room for
    /// as many sectors as there are addresses, and `marks` for their marks.
    ///
    /// The fetches are made one after another; each adds its event to its unit's log. Where no bit of an
    /// address is set its sector is in `out`, and its mark in `marks`, at the address's index; where one is
    /// set, both are there as before. A bit of `empty` says that the block isn't readable yet.
    ///
    /// The units are those of a drive of the vector's geometry, and no chunk is Offline, unless its unit is
    /// stopped.
    pub fn read<U: Unit>(&self, units: &mut [U], out: &mut [u8], marks: &mut [Mark]) -> Status
        requires units { AreUnitsOf self.now.geometry (map U.model units.old) }
        requires marks { length marks.old ≡ length self.now.addresses }
        requires sectors { HaveSectors (length out.old) (length marks.old) (map U.model units.old) }
        requires taken { AreTaken (map U.model units.old)
            (reads self.now.geometry self.now.addresses) }
        ensures reads { let size = length out.old / length marks.old
            in let plan = reads self.now.geometry self.now.addresses
            in Reads plan (map U.model units.old) result (map U.model units.new)
            (blocks_of size out.old marks.old) (blocks_of size out.new marks.new) }
        ensures kept { AreKept (map U.model units.old) (map U.model units.new) }
    {
        let addresses = &self.addresses;
        let size = out.len() / marks.len();
        read_all(&self.geometry, addresses, units, size, out, marks)
    }

    /// Writes a block to each address (Open-Channel SSD Specification 2.0, Vector write). `bytes` has the
    /// sectors one after another, and `marks` their marks.
    ///
    /// Addresses that follow one another block after block of a chunk are one program. The programs are
    /// made one after another; each adds its event to its unit's log and leaves the chunks as the event
    /// says. No bit of `empty` is set.
    ///
    /// The units are those of a drive of the vector's geometry, and no two programs are of one chunk. No
    /// chunk refuses its program, unless its unit is stopped: it is Free or Open, the program begins at its
    /// write pointer, and has a positive multiple of WS_MIN that fits below CLBA.
    pub fn write<U: Unit>(&self, units: &mut [U], bytes: &[u8], marks: &[Mark]) -> Status
        requires units { AreUnitsOf self.now.geometry (map U.model units.old) }
        requires marks { length marks.now ≡ length self.now.addresses }
        requires sectors { HaveSectors (length bytes.now) (length marks.now)
            (map U.model units.old) }
        requires apart { let blocks = blocks_in bytes.now marks.now
            in AreOfChunksApart (writes self.now.geometry self.now.addresses blocks) }
        requires taken { let blocks = blocks_in bytes.now marks.now
            in AreTaken (map U.model units.old)
            (writes self.now.geometry self.now.addresses blocks) }
        ensures answers { let blocks = blocks_in bytes.now marks.now
            in let plan = writes self.now.geometry self.now.addresses blocks
            in Answers plan (map U.model units.old) result (map U.model units.new) }
        ensures empty { result.empty ≡ 0 }
        ensures kept { AreKept (map U.model units.old) (map U.model units.new) }
    {
        let addresses = &self.addresses;
        let size = bytes.len() / marks.len();
        write_all(&self.geometry, addresses, units, size, bytes, marks)
    }

    /// Resets the chunk of each address, one after another (Open-Channel SSD Specification 2.0, Vector chunk
    /// reset).
    ///
    /// The units are those of a drive of the vector's geometry. Each address is that of the first block of
    /// its chunk, and the chunk is neither Free nor Offline, unless its unit is stopped.
    ///
    /// Each reset adds its event to its unit's log, in the order of the addresses, and leaves the chunks as
    /// the event says. No bit of `empty` is set.
    pub fn reset<U: Unit>(&self, units: &mut [U]) -> Status
        requires units { AreUnitsOf self.now.geometry (map U.model units.old) }
        requires blocks { AreFirstBlocks self.now.addresses }
        requires taken { AreTaken (map U.model units.old)
            (resets self.now.geometry self.now.addresses) }
        ensures answers { let plan = resets self.now.geometry self.now.addresses
            in Answers plan (map U.model units.old) result (map U.model units.new) }
        ensures empty { result.empty ≡ 0 }
        ensures kept { AreKept (map U.model units.old) (map U.model units.new) }
    {
        reset_all(&self.geometry, &self.addresses, units)
    }
}

fn copied(alloc: Global, addresses: &[Address]) -> Result<Vec<Address>, AllocError>
    ensures { IfOk result (λ copy. copy.items ≡ addresses.now) }
{
    let mut copy = Vec::with_capacity(alloc, addresses.len())?;
    copy.extend_from_slice(addresses)?;
    Ok(copy)
}
