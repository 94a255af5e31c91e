//! What the chronicle begins with, and what is appended to it.
ghost use Rattle.chronicle_crew.specs.Ready.{blank_past, stopped_fetch};

use chronicle::{Event, Past};
use pblk_model::Shows;

/// How many units the drive has.
pub(crate) const UNITS: u32 = 8;

/// Shows a blank drive of eight units, to which nothing was done yet.
#[derive(Clone, Copy, Debug, Drop)]
pub(crate) struct Blank;

impl Shows for Blank {
    type Event = Past;

    ghost shown = { λ _. blank_past };
}

/// Shows a fetch of the first block of a unit that was stopped, with the worker that made it and
/// how many commands that had made before. A stop may come at any time, so this is allowed after
/// whatever else was done.
#[derive(Clone, Copy, Debug, Drop)]
pub(crate) struct StoppedFetch {
    pub(crate) worker: u64,
    pub(crate) made: u64,
}

impl Shows for StoppedFetch {
    type Event = Event;

    ghost shown = { λ f. stopped_fetch (record { worker = f.worker; made = f.made }) };
}
