//! Why a target isn't opened.

ghost use Rattle.std.specs.Prelude.{◌≡◌};
ghost use Rattle.block_target.specs.Opened.{open_error};

use scan_recovery::ScanErr;
use thiserror::Error;

/// Why a target wasn't opened.
#[derive(Clone, Copy, Debug, PartialEq, Eq, Error)]
pub enum OpenErr {
    /// This event of this unit, made in this call, was a stopped command, or a fetch of a written
    /// block that failed. Units are numbered from 0, and the events of a unit's log from 1.
    #[error("event {event} of unit {unit} failed or was stopped")]
    Drive { unit: u32, event: u64 },
    /// There isn't the memory for it.
    #[error("there is not enough memory")]
    Memory,
}

/// A target that wasn't opened: its units, and why. A drive that was sealed holds what it held
/// before.
pub struct Refused<U> {
    /// All units, in their order.
    pub units: Vec<U>,
    /// Why the target wasn't opened.
    pub cause: OpenErr,
}

/// Why a target isn't opened where its drive couldn't be made ready.
pub(crate) fn cause_of(e: ScanErr) -> OpenErr
    ensures { result ≡ open_error e }
{
    match e {
        ScanErr::Drive { unit, event } => OpenErr::Drive { unit, event },
        ScanErr::Memory => OpenErr::Memory,
    }
}
