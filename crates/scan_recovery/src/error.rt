//! Why a drive couldn't be scanned.

ghost use Rattle.std.specs.Prelude.{◌≡◌};
ghost use Rattle.scan_recovery.specs.declared.error.ScanErr.TheVariants.{Memory};

use std::alloc::AllocError;
use thiserror::Error;

/// Why a drive couldn't be padded or scanned.
#[derive(Clone, Copy, Debug, PartialEq, Eq, Error)]
pub enum ScanErr {
    /// This event of this unit, made in this call, was stopped or is a fetch that failed. Events
    /// are numbered from 1 in the unit's log, and from 2^64 - 1 on the number stands still.
    #[error("event {event} of unit {unit} failed")]
    Drive { unit: u32, event: u64 },
    /// There wasn't enough memory.
    #[error("out of memory")]
    Memory,
}

impl From<AllocError> for ScanErr {
    ghost from_gives = { λ _ e. e ≡ Memory };

    fn from(_e: AllocError) -> Self {
        ScanErr::Memory
    }
}
