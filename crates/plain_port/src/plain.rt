//! The port.
ghost use Rattle.std.specs.Prelude.{◌≡◌, ◌↔◌, ◌+◌, ◌*◌, ◌<◌, ◌≤◌, ◌^◌, [], ◌∷◌, ◌++◌, length, max, replicate, None, IfOk, IsTrue};
ghost use Rattle.pblk_model.specs.Bytes.{zeros};
ghost use Rattle.block_port.specs.Own.{sectors_of};
ghost use Rattle.plain_port.specs.Plain.{with_write};
ghost use Rattle.block_port.specs.Port.{IsFront, IsPastEnd, IsSectorSize, written_by};

use crate::sectors::{blank, get, put};
use block_port::{
    DriveAnswer, FlushErr, Front, Note, OwnWrite, Place, Port, ReadErr, WornAnswer, WriteErr,
    Written,
};
use std::alloc::{AllocError, Global};
use std::marker::Model;
use std::sync::Wait;
use unit_port::Log;

/// No position is at or past this one.
const LAST: u64 = 1 << 62;

/// What a call is to answer in place of doing its work.
#[derive(Clone, Copy, Debug, PartialEq, Eq)]
pub enum Planned {
    /// This event of this unit.
    Drive { unit: u32, event: u64 },
    /// There is no room. Where `wanted` isn't above `have`, or the call is a read, it counts as no
    /// plan.
    Worn { wanted: u64, have: u64 },
}

/// A port to sectors in memory, which are zeros at first. Its writes are the whole history, and
/// each is known at once.
///
/// Its calls may be planned to be refused.
#[derive(Drop)]
pub struct PlainPort {
    sector: u32,
    capacity: u64,
    // of all sectors, one after another
    bytes: Vec<u8>,
    // what the next calls answer, the last of them first
    plan: Vec<Option<Planned>>,
    // how many lines the history has
    lines: u64,
    taken: u64,
    seen: u64,
    flushed: u64,
    own: Log<OwnWrite>,
    faults: Log<DriveAnswer>,
    worns: Log<WornAnswer>,
}

impl Model for PlainPort {
    ghost use Rattle.block_port.specs.Port.{ModelPort};

    ghost Value = { ModelPort };

    ghost use Rattle.plain_port.specs.Plain.{model, IsPlain};

    ghost view = { model };

    ghost invariant = { IsPlain };
}

impl PlainPort {
    /// A port to `capacity` sectors of zeros, each of `sector` bytes, 512 or 4096, and in all at
    /// most 4 GiB. Nothing was written, seen or flushed.
    ///
    /// `plan` says what its next writes, reads and flushes answer, the last of it first; calls with
    /// sectors past the capacity don't count. Fails only where there isn't as much memory.
    pub fn new(
        alloc: Global,
        capacity: u64,
        sector: u32,
        plan: Vec<Option<Planned>>,
    ) -> Result<PlainPort, AllocError>
        requires sector { IsSectorSize sector }
        requires few { capacity * sector ≤ 2 ^ 32 }
        ensures { IfOk result (λ port. port ≡ record {
          start = replicate capacity (zeros sector);
          known = [];
          taken = 0;
          seen = 0;
          own = [];
          flushed = 0;
          faults = [];
          worns = [];
          capacity = capacity;
          sector = sector;
          footing = None;
        }) }
    {
        Ok(PlainPort {
            sector,
            capacity,
            bytes: blank(alloc, capacity as usize, sector as usize)?,
            plan,
            lines: 0,
            taken: 0,
            seen: 0,
            flushed: 0,
            own: Log::new(alloc)?,
            faults: Log::new(alloc)?,
            worns: Log::new(alloc)?,
        })
    }

    // Whether the sectors from `lba` on that so many bytes are aren't all below the capacity.
    fn is_past_end(&self, lba: u64, len: usize) -> bool
        ensures { IsTrue result ↔ IsPastEnd self.now lba len }
    {
        match lba.checked_add((len / self.sector as usize) as u64) {
            None => true,
            Some(end) => end > self.capacity,
        }
    }

    // What the next call is to answer.
    fn planned(&mut self) -> Option<Planned>
        ensures { self.new ≡ self.old }
    {
        self.plan.pop()?
    }

    fn add_fault(&mut self, unit: u32, event: u64)
        ensures { self.new ≡ record self.old {
          faults = self.old.faults ++ record { unit = unit; event = event } ∷ [];
        } }
    {
        self.faults.add(&DriveAnswer { unit, event });
    }

    fn add_worn(&mut self, count: u32, wanted: u64, have: u64)
        ensures { self.new ≡ record self.old {
          worns = self.old.worns ++ record {
            written = written_by self.old;
            count = count;
            wanted = wanted;
            have = have;
          } ∷ [];
        } }
    {
        self.worns.add(&WornAnswer {
            written: self.lines,
            count,
            wanted,
            have,
        });
    }

    // The next position: past all that is taken and seen.
    fn next(&self) -> u64
        ensures next { result ≡ max self.now.taken self.now.seen }
        ensures small { result < 2 ^ 63 }
    {
        self.taken.max(self.seen)
    }

    // A front of all that was written, past all that was seen.
    fn look(&mut self) -> Front
        ensures position { result.position ≡ max self.old.taken self.old.seen }
        ensures users { result.users ≡ length self.old.known }
        ensures front { IsFront self.new result }
        ensures looked { self.new ≡ record self.old {
          taken = result.position;
          seen = result.position;
        } }
    {
        let position = self.next();
        self.taken = position;
        self.seen = position;
        Front {
            users: self.lines,
            position,
        }
    }

    // Writes sectors from `lba` on, at the next positions.
    fn append(&mut self, lba: u64, bytes: &[u8], count: u32) -> Place
        requires count { count ≤ 16 }
        requires bytes { length bytes.now ≡ count * self.old.sector }
        requires inside { lba + count ≤ self.old.capacity }
        requires room { max self.old.taken self.old.seen + count ≤ 2 ^ 62 }
        ensures first { result.first ≡ max self.old.taken self.old.seen }
        ensures count { result.count ≡ count }
        ensures written { let sectors = sectors_of self.old.sector count bytes.now in
            self.new
            ≡ with_write (record { place = result; lba = lba; sectors = sectors }) self.old }
    {
        let place = Place {
            first: self.next(),
            count,
        };
        let (size, capacity) = (self.sector as usize, self.capacity as usize);
        let at = lba as usize;
        put(&mut self.bytes, size, capacity, at, bytes, count as usize);
        self.own.add(&Written {
            place,
            lba,
            size: self.sector,
            bytes,
        });
        self.lines += u64::from(count);
        self.taken = place.first + u64::from(count);
        self.seen = self.taken;
        place
    }
}

impl Port for PlainPort {
    ghost model = { λ p. p };

    fn write<R: Wait>(&mut self, _rt: &R, lba: u64, bytes: &[u8]) -> Result<Place, WriteErr> {
        if self.is_past_end(lba, bytes.len()) {
            return Err(WriteErr::Range);
        }
        let count = (bytes.len() / self.sector as usize) as u32;
        match self.planned() {
            Some(Planned::Drive { unit, event }) => {
                self.add_fault(unit, event);
                return Err(WriteErr::Drive { unit, event });
            }
            Some(Planned::Worn { wanted, have }) if have < wanted => {
                self.add_worn(count, wanted, have);
                return Err(WriteErr::Worn { wanted, have });
            }
            _ => {}
        }
        let wanted = self.next() + u64::from(count);
        if wanted > LAST {
            self.add_worn(count, wanted, LAST);
            return Err(WriteErr::Worn { wanted, have: LAST });
        }
        Ok(self.append(lba, bytes, count))
    }

    fn read<R: Wait>(&mut self, _rt: &R, lba: u64, out: &mut [u8]) -> Result<Front, ReadErr> {
        if self.is_past_end(lba, out.len()) {
            return Err(ReadErr::Range);
        }
        if let Some(Planned::Drive { unit, event }) = self.planned() {
            self.add_fault(unit, event);
            return Err(ReadErr::Drive { unit, event });
        }
        let (size, capacity) = (self.sector as usize, self.capacity as usize);
        let count = out.len() / size;
        get(&self.bytes, size, capacity, lba as usize, out, count);
        Ok(self.look())
    }

    fn flush<R: Wait>(&mut self, _rt: &R) -> Result<Front, FlushErr> {
        match self.planned() {
            Some(Planned::Drive { unit, event }) => {
                self.add_fault(unit, event);
                return Err(FlushErr::Drive { unit, event });
            }
            Some(Planned::Worn { wanted, have }) if have < wanted => {
                self.add_worn(0, wanted, have);
                return Err(FlushErr::Worn { wanted, have });
            }
            _ => {}
        }
        let front = self.look();
        self.flushed = self.flushed.max(front.position);
        Ok(front)
    }

    fn tell(&self) -> Note {
        Note {
            position: self.seen,
        }
    }

    fn hear(&mut self, note: Note) {
        self.seen = self.seen.max(note.position);
    }

    fn sector(&self) -> u32 {
        self.sector
    }
}
