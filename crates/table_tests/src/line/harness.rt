//! The table of a small drive's lines, and what it tells.
ghost use Rattle.std.specs.Prelude.{◌≡◌, ◌<◌, length};
ghost use Rattle.std.specs.Bool.{OnTrue};
ghost use Rattle.pblk_model.specs.Shape.{small};
ghost use Rattle.line_table.specs.Rows.{IsChange};

use crate::line::blank::blank;
use crate::line::used::used;
use line_table::{LineState, Lines};
use pblk_layout::Layout;
use pblk_model::Shape;
use std::alloc::{AllocError, Global};

/// How many lines a small drive has.
const LINES: u32 = 8;

/// How many units it has.
const UNITS: u32 = 2;

/// What is asked of a table.
#[derive(Clone, Copy, Debug)]
pub(crate) enum Asked {
    State(u32),
    Live(u32),
    Taker(u32),
    Gain(u32),
    Lose(u32, u64),
    Lower(u32),
    Note(u32, u64),
    /// The line, its new state and its new width.
    Turn(u32, LineState, u32),
    /// From which line on.
    OutlivedFrom(u32),
}

/// What it told.
#[derive(Clone, Copy, Debug, PartialEq, Eq)]
pub(crate) enum Told {
    State(LineState),
    Live(u32),
    Taker(Option<u64>),
    Line(Option<u32>),
    Done,
    Refused,
}

/// The table of a small drive.
#[derive(Drop)]
pub(crate) struct Bench {
    lines: Lines,
    ghost small: { lines.shape ≡ small },
    ghost eight: { length lines.rows ≡ 8 },
}

impl Bench {
    /// The table of a blank drive.
    pub(crate) fn blank(alloc: Global) -> Result<Bench, AllocError> {
        let layout = Layout::new(&Shape::small());
        let found = blank(alloc)?;
        Ok(Bench {
            lines: Lines::new(alloc, &layout, &found)?,
        })
    }

    /// The table of a drive with lines of every kind.
    pub(crate) fn used(alloc: Global) -> Result<Bench, AllocError> {
        let layout = Layout::new(&Shape::small());
        let found = used(alloc)?;
        Ok(Bench {
            lines: Lines::new(alloc, &layout, &found)?,
        })
    }

    pub(crate) fn free_addresses(&self) -> u64 {
        self.lines.free_addresses()
    }

    pub(crate) fn least_free(&self) -> Option<u32> {
        self.lines.least_free()
    }
}

// Whether a line may go from one state to another, where it then has so many data addresses.
fn may_turn(from: LineState, to: LineState, addresses: u32) -> bool
    ensures { OnTrue result (IsChange from to addresses) }
{
    match (from, to) {
        (LineState::Free, LineState::Open) => true,
        (LineState::Open, LineState::Full) => true,
        (LineState::Open, LineState::Failed) => true,
        (LineState::Full, LineState::Freed) => true,
        (LineState::Failed, LineState::Freed) => true,
        (LineState::Freed, LineState::Free) => addresses != 0,
        (LineState::Freed, LineState::Dead) => addresses == 0,
        _ => false,
    }
}

fn gain(bench: &mut Bench, line: u32) -> Told
    requires { line < 8 }
{
    if bench.lines.live(line) == u32::MAX {
        return Told::Refused;
    }
    bench.lines.gain(line);
    Told::Done
}

fn lose(bench: &mut Bench, line: u32, by: u64) -> Told
    requires { line < 8 }
{
    if bench.lines.live(line) == 0 {
        return Told::Refused;
    }
    bench.lines.lose(line, by);
    Told::Done
}

fn lower(bench: &mut Bench, line: u32) -> Told
    requires { line < 8 }
{
    if bench.lines.live(line) == 0 {
        return Told::Refused;
    }
    bench.lines.lower(line);
    Told::Done
}

fn note(bench: &mut Bench, line: u32, by: u64) -> Told
    requires { line < 8 }
{
    bench.lines.note_taker(line, by);
    Told::Done
}

fn turn(bench: &mut Bench, line: u32, to: LineState, width: u32) -> Told
    requires { line < 8 }
{
    let layout = Layout::new(&Shape::small());
    if width > UNITS || !may_turn(bench.lines.state(line), to, layout.data_len(width)) {
        return Told::Refused;
    }
    bench.lines.turn(line, to, width);
    Told::Done
}

/// Asks a table, unless the call's condition doesn't hold.
pub(crate) fn ask(bench: &mut Bench, asked: Asked) -> Told {
    match asked {
        Asked::State(line) if line < LINES => Told::State(bench.lines.state(line)),
        Asked::Live(line) if line < LINES => Told::Live(bench.lines.live(line)),
        Asked::Taker(line) if line < LINES => Told::Taker(bench.lines.taker(line)),
        Asked::Gain(line) if line < LINES => gain(bench, line),
        Asked::Lose(line, by) if line < LINES => lose(bench, line, by),
        Asked::Lower(line) if line < LINES => lower(bench, line),
        Asked::Note(line, by) if line < LINES => note(bench, line, by),
        Asked::Turn(line, to, width) if line < LINES => turn(bench, line, to, width),
        Asked::OutlivedFrom(from) => Told::Line(bench.lines.outlived_from(from)),
        _ => Told::Refused,
    }
}
