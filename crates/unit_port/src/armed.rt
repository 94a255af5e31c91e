//! What a drive is armed with: plans of faults, and a fuse.

use std::marker::Model;

/// A kind of command of a unit (Open-Channel SSD Specification 2.0, Vector write, read and reset).
#[derive(Clone, Copy, Debug, PartialEq, Eq)]
pub enum CommandKind {
    Program,
    Fetch,
    Reset,
}

/// A plan that a command fails: the `nth` command of this kind of this unit, counted from 1 since the
/// drive was armed. Units are numbered from 0. A plan with nth 0 falls on no command.
///
/// A program that fails still lands its first `cut` multiples of WS_MIN, or all but one where `cut` is
/// larger, and closes the chunk. A fetch that fails leaves all as it was, and a reset that fails takes the
/// chunk offline; for both `cut` means nothing.
#[derive(Clone, Copy, Debug, PartialEq, Eq)]
pub struct FaultPlan {
    pub unit: u32,
    pub kind: CommandKind,
    pub nth: u32,
    pub cut: u32,
}

/// Where a whole drive stops: at the `nth` program or reset of this unit, counted in common from 1 since
/// the drive was armed. Units are numbered from 0. A fuse with nth 0 falls at no command.
///
/// From then on each command of each unit of the drive answers Stopped and changes nothing but its log.
///
/// The command at which it falls answers Stopped too. A program still lands its first `cut` multiples of
/// WS_MIN, or all of them where `cut` is larger, and leaves the chunk Closed at its end and Open before. A
/// reset is done where `cut` isn't 0. Fetches are not counted, so the fuse falls at none.
#[derive(Clone, Copy, Debug, PartialEq, Eq)]
pub struct Fuse {
    pub unit: u32,
    pub nth: u32,
    pub cut: u32,
}

/// What a unit was armed with, and when, as contracts see it.
///
/// It exists in contracts alone, so no value of this type is ever made.
pub struct Armed {
    unmade: Unmade,
}

// No value of it can be made.
enum Unmade {}

impl Model for Armed {
    ghost use Rattle.unit_port.specs.Armed.{Armed};

    ghost Value = { Armed };

    ghost view = { λ a. elim a.unmade as (λ _. Armed) [ ] };
}
