//! Why an engine's calls don't do what they are for.

ghost use Rattle.std.specs.Prelude.{◌≡◌};
ghost use Rattle.pblk_engine.specs.Pumps.{fault_of};
ghost use Rattle.pblk_engine.specs.declared.errors.SettleErr.TheVariants.{Drive};

use thiserror::Error;
use unit_port::UnitErr;

/// This event of this unit, made in this call, was a stopped command or a fetch that failed. Units
/// are numbered from 0, and the events of a unit's log from 1. From 2^64 - 1 on the number of an
/// event stands still.
#[derive(Clone, Copy, Debug, PartialEq, Eq, Error)]
#[error("event {event} of unit {unit} failed or was stopped")]
pub struct DriveErr {
    pub unit: u32,
    pub event: u64,
}

/// A fetch of this unit, made in this call, gave no block: it failed, or was stopped. Units and
/// events are numbered as in [`DriveErr`].
#[derive(Clone, Copy, Debug, PartialEq, Eq, Error)]
#[error("event {event} of unit {unit}, a fetch: {cause}")]
pub struct FetchErr {
    pub unit: u32,
    pub event: u64,
    pub cause: UnitErr,
}

impl From<FetchErr> for DriveErr {
    ghost from_gives = { λ e w. w ≡ fault_of e };

    fn from(e: FetchErr) -> Self {
        DriveErr {
            unit: e.unit,
            event: e.event,
        }
    }
}

/// Why a call doesn't come to what it works for.
#[derive(Clone, Copy, Debug, PartialEq, Eq, Error)]
pub enum SettleErr {
    /// This event of this unit, made in this call, was a stopped command or a fetch that failed.
    /// Units are numbered from 0, and the events of a unit's log from 1. From 2^64 - 1 on the
    /// number of an event stands still.
    #[error("event {event} of unit {unit} failed or was stopped")]
    Drive { unit: u32, event: u64 },
    /// All that was claimed is taken, and the engine is at rest. Positions below `wanted` were
    /// asked for. Those below `have` are on the drive, or are granted where room was asked for.
    #[error("{wanted} is wanted, and there is {have}")]
    Worn { wanted: u64, have: u64 },
}

impl From<DriveErr> for SettleErr {
    ghost from_gives = { λ e w. w ≡ Drive e.unit e.event };

    fn from(e: DriveErr) -> Self {
        SettleErr::Drive {
            unit: e.unit,
            event: e.event,
        }
    }
}
