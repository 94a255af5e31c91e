//! Rows of the lists that a port keeps of its own answers.

ghost use Rattle.block_port.specs.Own.{sectors_of};

use pblk_model::{Place, Shows};
use std::marker::Model;

/// A write that a port answered: its place, and its sectors.
///
/// Such rows exist in contracts alone, so no value of this type is ever made.
pub struct OwnWrite {
    unmade: Unmade,
}

// No value of it can be made.
enum Unmade {}

impl Model for OwnWrite {
    ghost use Rattle.block_port.specs.Own.{OwnWrite};

    ghost Value = { OwnWrite };

    ghost view = { λ w. elim w.unmade as (λ _. OwnWrite) [ ] };
}

/// Shows a write: its place, and its sectors from `lba` on, which stand in the bytes one after
/// another and have this size.
#[derive(Clone, Copy, Debug)]
pub struct Written<'a> {
    pub place: Place,
    pub lba: u64,
    pub size: u32,
    pub bytes: &'a [u8],
}

impl Shows for Written<'_> {
    type Event = OwnWrite;

    ghost shown = { λ w. record {
      place = w.place;
      lba = w.lba;
      sectors = sectors_of w.size w.place.count w.bytes.now;
    } };
}

/// A call that answered Drive: the unit, from 0, and the number of its event in that unit's log,
/// from 1.
#[derive(Clone, Copy, Debug, PartialEq, Eq)]
pub struct DriveAnswer {
    pub unit: u32,
    pub event: u64,
}

impl Shows for DriveAnswer {
    type Event = DriveAnswer;

    ghost shown = { λ a. a };
}

/// A call that answered Worn: how many sectors its port had written before it; how many it asked
/// for, 0 where it was a flush; what was wanted, and what there was.
#[derive(Clone, Copy, Debug, PartialEq, Eq)]
pub struct WornAnswer {
    pub written: u64,
    pub count: u32,
    pub wanted: u64,
    pub have: u64,
}

impl Shows for WornAnswer {
    type Event = WornAnswer;

    ghost shown = { λ a. a };
}
