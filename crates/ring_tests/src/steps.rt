//! One sector goes in or comes out, and what the ring told.
ghost use Rattle.std.specs.Prelude.{◌≡◌, ◌<◌};
ghost use Rattle.write_ring.specs.Handles.{IsPassOf, pass_view, ring_key};
ghost use Rattle.ring_crew.specs.Ready.{HasOneFrame, IsTaker};

use ring_crew::{Got, grant, number, take};
use sector_pool::Source;
use write_ring::{Batch, Intake, Pass, Ring, TryPut};

/// How many bytes each sector has.
pub const SECTOR: u32 = 16;

/// What a call told.
#[derive(Clone, Copy, Debug, PartialEq, Eq, Drop)]
pub enum Told {
    /// The position.
    Put(u64),
    /// `claimed`, and the limit.
    Full(u64, u64),
    /// What was expected, and what was found.
    Raced(u64, u64),
    /// The position and the sector. The bytes have this sector's number.
    Took(u64, u64),
    /// The position, where the bytes have another number.
    Wrong(u64),
    /// `claimed`.
    Empty(u64),
    /// The position.
    Unfilled(u64),
    /// What a load of `claimed` found.
    Claimed(u64),
}

impl Told {
    /// The same of a position so many further on, and of a sector so many further on.
    pub fn after(self, by: u8) -> Told {
        let by = u64::from(by);
        match self {
            Told::Put(position) => Told::Put(position.wrapping_add(by)),
            Told::Took(position, lba) => {
                Told::Took(position.wrapping_add(by), lba.wrapping_add(by))
            }
            other => other,
        }
    }
}

// The bytes that a sector is filled with.
fn image(lba: u64) -> [u8; SECTOR as usize] {
    let mut sector = [0; SECTOR as usize];
    number(&mut sector, lba);
    sector
}

fn refused(by: TryPut) -> Told {
    match by {
        TryPut::Full { claimed, limit } => Told::Full(claimed, limit),
        TryPut::Raced { expected, found } => Told::Raced(expected, found),
    }
}

/// A user writes a sector.
pub fn put_user(ring: &Ring, pass: &mut Pass, batch: &mut Batch, lba: u64) -> Told
    requires pass { IsPassOf ring.now pass.old }
    requires ready { HasOneFrame ring.now batch.old }
    requires size { batch.old.region.size ≡ 16 }
    requires lba { lba < (ring_key ring.now).capacity }
    ensures pass { IsPassOf ring.now pass.new }
    ensures ready { HasOneFrame ring.now batch.new }
    ensures region { batch.new.region ≡ batch.old.region }
    ensures shares { (pass_view pass.new).pass.shares ≡ (pass_view pass.old).pass.shares }
{
    batch.fill(lba, None, &image(lba));
    match ring.try_put(pass, batch) {
        Ok(place) => Told::Put(place.first),
        Err(by) => {
            batch.clear();
            refused(by)
        }
    }
}

/// The intake copies a sector.
pub fn put_copy(ring: &Ring, intake: &mut Intake, batch: &mut Batch, room: u32, lba: u64) -> Told
    requires taker { IsTaker ring.now intake.old room }
    requires ready { HasOneFrame ring.now batch.old }
    requires size { batch.old.region.size ≡ 16 }
    requires lba { lba < (ring_key ring.now).capacity }
    ensures taker { IsTaker ring.now intake.new room }
    ensures ready { HasOneFrame ring.now batch.new }
    ensures region { batch.new.region ≡ batch.old.region }
{
    let source = Source {
        line: 0,
        at: 4,
        position: 0,
    };
    batch.fill(lba, Some(source), &image(lba));
    match ring.try_copy(intake, batch) {
        Ok(place) => Told::Put(place.first),
        Err(by) => {
            batch.clear();
            refused(by)
        }
    }
}

/// The next entry is taken, its slot is free again, and users are granted one position more.
pub fn took(ring: &Ring, intake: &mut Intake, room: u32) -> Told
    requires taker { IsTaker ring.now intake.old room }
    ensures taker { IsTaker ring.now intake.new room }
{
    let got = take(ring, intake, room, true);
    grant(ring, intake, got.freed(), room);
    match got {
        Got::Entry(position, lba) => Told::Took(position, lba),
        Got::Wrong(position) => Told::Wrong(position),
        Got::Empty(claimed) => Told::Empty(claimed),
        Got::Unfilled(at) => Told::Unfilled(at),
    }
}
