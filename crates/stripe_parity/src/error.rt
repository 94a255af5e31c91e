//! Why there is no parity, or no unit made anew from it.

ghost use Rattle.std.specs.Prelude.{◌≡◌};
ghost use Rattle.stripe_parity.specs.declared.error.ParityErr.TheVariants.{Memory};
ghost use Rattle.stripe_parity.specs.Refusals.{refusal_of};

use scan_recovery::ScanErr;
use std::alloc::AllocError;
use thiserror::Error;

/// Why there is no parity, or no unit made anew from it.
#[derive(Clone, Copy, Debug, PartialEq, Eq, Error)]
pub enum ParityErr {
    /// The bytes don't begin as a parity file.
    #[error("not a parity file")]
    Magic,
    /// The file has another version than 1.
    #[error("the version of the parity file is unknown")]
    Version,
    /// The numbers of the file aren't the drive's, or its zero field isn't 0.
    #[error("the parity file is one of another drive")]
    Numbers,
    /// The input, which has so many bytes, ends within a part.
    #[error("the parity file ends after {0} bytes")]
    Short(u64),
    /// Bytes remain after the last part.
    #[error("bytes remain after the parity file")]
    Long,
    /// What is kept of this chunk can't be: it is the first such one, by unit and then by chunk.
    #[error("chunk {chunk} of unit {unit} has no such state")]
    State { unit: u32, chunk: u32 },
    /// This chunk of a unit that isn't the lost one has another state or write pointer than the
    /// parity says: it is the first such one, by unit and then by chunk.
    #[error("chunk {chunk} of unit {unit} is not as the parity says")]
    Differs { unit: u32, chunk: u32 },
    /// This event of this unit, made in this call, is a fetch that failed or was stopped. Events
    /// are numbered from 1 in the unit's log, and from 2^64 - 1 on the number stands still.
    #[error("event {event} of unit {unit} failed")]
    Drive { unit: u32, event: u64 },
    /// There wasn't enough memory.
    #[error("out of memory")]
    Memory,
}

impl From<AllocError> for ParityErr {
    ghost from_gives = { λ _ e. e ≡ Memory };

    fn from(_e: AllocError) -> Self {
        ParityErr::Memory
    }
}

impl From<ScanErr> for ParityErr {
    ghost from_gives = { λ s e. e ≡ refusal_of s };

    fn from(e: ScanErr) -> Self {
        match e {
            ScanErr::Drive { unit, event } => ParityErr::Drive { unit, event },
            ScanErr::Memory => ParityErr::Memory,
        }
    }
}
