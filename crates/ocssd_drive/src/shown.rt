//! What is shown to a unit's logs.

use crate::stop_word::StopSeat;
use pblk_model::{Got, Mark, Shows, UnitEvent};
use unit_port::{Armed, FaultPlan, Fuse, Log, UnitErr};

/// What became of a program or a reset, with the multiples of WS_MIN that had landed where it wasn't done.
#[derive(Clone, Copy)]
pub(crate) enum Landed {
    Done,
    Failed(u32),
    Stopped(u32),
}

/// A program, as it is shown to the unit's log. `size` is that of a sector.
#[derive(Drop)]
pub(crate) struct Programmed<'a> {
    pub(crate) chunk: u32,
    pub(crate) at: u32,
    pub(crate) size: u32,
    pub(crate) bytes: &'a [u8],
    pub(crate) marks: &'a [Mark],
    pub(crate) landed: Landed,
}

impl Shows for Programmed<'_> {
    type Event = UnitEvent;

    ghost use Rattle.ocssd_drive.specs.Shown.{programmed};

    ghost shown = { programmed };
}

/// A fetch, as it is shown to the unit's log, with the bytes that it left.
#[derive(Drop)]
pub(crate) struct Fetched<'a> {
    pub(crate) chunk: u32,
    pub(crate) block: u32,
    pub(crate) out: &'a [u8],
    pub(crate) got: Result<Got, UnitErr>,
}

impl Shows for Fetched<'_> {
    type Event = UnitEvent;

    ghost use Rattle.ocssd_drive.specs.Shown.{fetched};

    ghost shown = { fetched };
}

/// A reset, as it is shown to the unit's log.
#[derive(Drop)]
pub(crate) struct WasReset {
    pub(crate) chunk: u32,
    pub(crate) landed: Landed,
}

impl Shows for WasReset {
    type Event = UnitEvent;

    ghost use Rattle.ocssd_drive.specs.Shown.{was_reset};

    ghost shown = { was_reset };
}

/// What a unit is armed with, and how long its log is.
#[derive(Drop)]
pub(crate) struct Arms<'a> {
    pub(crate) unit: u32,
    pub(crate) plans: &'a [FaultPlan],
    pub(crate) fuse: &'a Option<Fuse>,
    pub(crate) stop: &'a Option<StopSeat>,
    pub(crate) log: &'a Log<UnitEvent>,
}

impl Shows for Arms<'_> {
    type Event = Armed;

    ghost use Rattle.ocssd_drive.specs.Shown.{arms};

    ghost shown = { arms };
}
