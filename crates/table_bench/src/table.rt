//! The lines of a blank drive.
ghost use Rattle.std.specs.Prelude.{ℕ, ◌≡◌, ◌<◌, length, IfSome};
ghost use Rattle.pblk_model.specs.Shape.{units};
ghost use Rattle.pblk_model.specs.LineOrder.{data_len};
ghost use Rattle.line_table.specs.Rows.{IsChange};

use crate::blank::blank;
use crate::draw::{DRAWS, Draw, draw_all};
use crate::drive::Drive;
use crate::sheet::Sheet;
use anyhow::{Result, ensure};
use line_table::{LineState, Lines};
use std::alloc::Global;
use std::rt::Clock;

#[derive(Drop)]
pub(crate) struct Table {
    lines: Lines,
    count: u32,
    width: u32,
    ghost counted: { length lines.rows ≡ count },
    ghost some: { 0 < count },
    ghost whole: { width ≡ units lines.shape },
    ghost has_data: { 0 < data_len lines.shape width },
}

// The state after this one of a line that has data at its new width.
fn next_state(from: LineState) -> Option<LineState>
    ensures { IfSome result (λ to. (addresses : ℕ) → 0 < addresses → IsChange from to addresses) }
{
    match from {
        LineState::Free => Some(LineState::Open),
        LineState::Open => Some(LineState::Full),
        LineState::Full => Some(LineState::Freed),
        LineState::Failed => Some(LineState::Freed),
        LineState::Freed => Some(LineState::Free),
        LineState::Dead => None,
    }
}

impl Table {
    pub(crate) fn new(alloc: Global, drive: &Drive) -> Result<Table> {
        let layout = drive.layout;
        let width = layout.shape().units();
        let count = layout.shape().chunks;
        ensure!(count != 0, "a drive has a line");
        ensure!(layout.data_len(width) != 0, "a line has data");
        let found = blank(alloc, &layout)?;
        let lines = Lines::new(alloc, &layout, &found)?;
        Ok(Table {
            lines,
            count,
            width,
        })
    }

    fn any(&self, draw: &mut Draw) -> u32
        ensures { result < self.now.count }
    {
        draw.below(u64::from(self.count)) as u32
    }

    // How many lines are Free.
    fn state(&self) -> u64 {
        let mut draw = Draw::new();
        let mut sum = 0u64;
        for _ in 0..DRAWS {
            let state = self.lines.state(self.any(&mut draw));
            sum = sum.wrapping_add(u64::from(state == LineState::Free));
        }
        sum
    }

    fn live(&self) -> u64 {
        let mut draw = Draw::new();
        let mut sum = 0u64;
        for _ in 0..DRAWS {
            sum = sum.wrapping_add(u64::from(self.lines.live(self.any(&mut draw))));
        }
        sum
    }

    fn taker(&self) -> u64 {
        let mut draw = Draw::new();
        let mut sum = 0u64;
        for _ in 0..DRAWS {
            let taker = self.lines.taker(self.any(&mut draw));
            sum = sum.wrapping_add(taker.unwrap_or(0));
        }
        sum
    }

    fn gain_one(&mut self, line: u32) -> u64
        requires { line < self.old.count }
    {
        if self.lines.live(line) == u32::MAX {
            return 0;
        }
        self.lines.gain(line);
        1
    }

    fn gain(&mut self) -> u64 {
        let mut draw = Draw::new();
        let mut sum = 0u64;
        for _ in 0..DRAWS {
            let line = self.any(&mut draw);
            sum = sum.wrapping_add(self.gain_one(line));
        }
        sum
    }

    fn lose_one(&mut self, line: u32) -> u64
        requires { line < self.old.count }
    {
        if self.lines.live(line) == 0 {
            return 0;
        }
        self.lines.lose(line, 1);
        1
    }

    fn lose(&mut self) -> u64 {
        let mut draw = Draw::new();
        let mut sum = 0u64;
        for _ in 0..DRAWS {
            let line = self.any(&mut draw);
            sum = sum.wrapping_add(self.lose_one(line));
        }
        sum
    }

    // With the least Free line at each turn, of which one more than its number is added.
    fn gain_and_least_free(&mut self) -> u64 {
        let mut draw = Draw::new();
        let mut sum = 0u64;
        for _ in 0..DRAWS {
            let line = self.any(&mut draw);
            let least = self.lines.least_free();
            sum = sum
                .wrapping_add(self.gain_one(line))
                .wrapping_add(least.map_or(0, |line| u64::from(line) + 1));
        }
        sum
    }

    // With the free addresses at each turn.
    fn lose_and_free_addresses(&mut self) -> u64 {
        let mut draw = Draw::new();
        let mut sum = 0u64;
        for _ in 0..DRAWS {
            let line = self.any(&mut draw);
            sum = sum
                .wrapping_add(self.lose_one(line))
                .wrapping_add(self.lines.free_addresses());
        }
        sum
    }

    fn turn_one(&mut self, line: u32) -> u64
        requires { line < self.old.count }
    {
        match next_state(self.lines.state(line)) {
            None => 0,
            Some(to) => {
                self.lines.turn(line, to, self.width);
                1
            }
        }
    }

    // Each line goes through its four states, and is Free again.
    fn turn(&mut self) -> u64 {
        let mut sum = 0u64;
        for turn in 0..DRAWS {
            let line = (turn / 4 % u64::from(self.count)) as u32;
            sum = sum.wrapping_add(self.turn_one(line));
        }
        sum
    }

    fn round_of_looks<C: Clock>(&mut self, clock: &C, sheet: &mut Sheet) -> Result<()> {
        sheet.start(clock)?;
        let sum = draw_all(u64::from(self.count));
        sheet.stop(clock, "draw line", DRAWS, sum)?;
        sheet.start(clock)?;
        let sum = self.state();
        sheet.stop(clock, "lines.state", DRAWS, sum)?;
        sheet.start(clock)?;
        let sum = self.gain_and_least_free();
        sheet.stop(clock, "lines.gain and lines.least_free", DRAWS, sum)?;
        sheet.start(clock)?;
        let sum = self.lose_and_free_addresses();
        sheet.stop(clock, "lines.lose and lines.free_addresses", DRAWS, sum)
    }

    /// Measures each call.
    pub(crate) fn round<C: Clock>(&mut self, clock: &C, sheet: &mut Sheet) -> Result<()> {
        self.round_of_looks(clock, sheet)?;
        sheet.start(clock)?;
        let sum = self.gain();
        sheet.stop(clock, "lines.gain", DRAWS, sum)?;
        sheet.start(clock)?;
        let sum = self.live();
        sheet.stop(clock, "lines.live", DRAWS, sum)?;
        sheet.start(clock)?;
        let sum = self.lose();
        sheet.stop(clock, "lines.lose", DRAWS, sum)?;
        sheet.start(clock)?;
        let sum = self.taker();
        sheet.stop(clock, "lines.taker", DRAWS, sum)?;
        sheet.start(clock)?;
        let sum = self.turn();
        sheet.stop(clock, "lines.turn", DRAWS, sum)
    }
}
