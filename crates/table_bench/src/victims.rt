//! The lines that may be collected, in an index of few and in one of many lines.
ghost use Rattle.std.specs.Prelude.{◌≡◌, ◌<◌, length};

use crate::draw::{DRAWS, Draw};
use crate::sheet::Sheet;
use anyhow::{Result, ensure};
use std::alloc::Global;
use std::rt::Clock;
use victim_index::Victims;

/// An index that is measured.
#[derive(Clone, Copy, Debug)]
struct Size {
    lines: u32,
    /// How many lines a round takes out of it, the best one each time.
    taken: u64,
    draw: &'static str,
    set: &'static str,
    set_and_best: &'static str,
    best_and_remove: &'static str,
}

const SIZES: &[Size] = &[
    Size {
        lines: 100,
        taken: 100,
        draw: "draw victim of 100",
        set: "victims.set of 100",
        set_and_best: "victims.set and victims.best of 100",
        best_and_remove: "victims.best and victims.remove of 100",
    },
    Size {
        lines: 10_000,
        taken: DRAWS,
        draw: "draw victim of 10000",
        set: "victims.set of 10000",
        set_and_best: "victims.set and victims.best of 10000",
        best_and_remove: "victims.best and victims.remove of 10000",
    },
];

/// How many live sectors a line has at most, and one more.
const LIVE: u64 = 4096;

/// From which number on sequence numbers aren't drawn.
const SEQS: u64 = 1 << 31;

/// How many rounds are made at most: one on many lines takes some milliseconds.
const ROUNDS: u32 = 500;

#[derive(Drop)]
struct Index {
    victims: Victims,
    count: u32,
    ghost counted: { length victims ≡ count },
    ghost some: { 0 < count },
}

/// A line, its live sectors and its sequence number.
#[derive(Clone, Copy, Debug)]
struct Victim {
    line: u32,
    live: u32,
    seq: u64,
}

impl Index {
    fn new(alloc: Global, size: &Size) -> Result<Index> {
        ensure!(size.lines != 0, "an index has a line");
        Ok(Index {
            victims: Victims::new(alloc, size.lines)?,
            count: size.lines,
        })
    }

    // Holds each line anew. Loops that are compared begin so: a line that is set to what it is held
    // with costs less.
    fn fill(&mut self) {
        let mut draw = Draw::new();
        for line in 0..self.count {
            let drawn = self.any(&mut draw);
            self.hold(Victim { line, ..drawn });
        }
    }

    fn hold(&mut self, victim: Victim)
        requires { victim.line < self.old.count }
        ensures { self.new.count ≡ self.old.count }
    {
        self.victims
            .set(victim.line, false, victim.live, victim.seq);
    }

    fn any(&self, draw: &mut Draw) -> Victim
        ensures { result.line < self.now.count }
    {
        Victim {
            line: draw.below(u64::from(self.count)) as u32,
            live: draw.below(LIVE) as u32,
            seq: draw.below(SEQS),
        }
    }

    // The loop that draws what is set, and does nothing with it but to add it up.
    fn draw(&self) -> u64 {
        let mut draw = Draw::new();
        let mut sum = 0u64;
        for _ in 0..DRAWS {
            let victim = self.any(&mut draw);
            sum = sum
                .wrapping_add(u64::from(victim.line))
                .wrapping_add(u64::from(victim.live))
                .wrapping_add(victim.seq);
        }
        sum
    }

    fn set(&mut self) -> u64 {
        let mut draw = Draw::new();
        for _ in 0..DRAWS {
            let victim = self.any(&mut draw);
            self.hold(victim);
        }
        DRAWS
    }

    // One more than the number of the best line.
    fn best(&self) -> u64 {
        self.victims.best().map_or(0, |line| u64::from(line) + 1)
    }

    // With the best line at each turn.
    fn set_and_best(&mut self) -> u64 {
        let mut draw = Draw::new();
        let mut sum = 0u64;
        for _ in 0..DRAWS {
            let victim = self.any(&mut draw);
            self.hold(victim);
            sum = sum.wrapping_add(self.best());
        }
        sum
    }

    // Takes the best line out of it, again and again.
    fn best_and_remove(&mut self, turns: u64) -> u64 {
        let mut sum = 0u64;
        for _ in 0..turns {
            if let Some(line) = self.victims.best() {
                self.victims.remove(line);
                sum = sum.wrapping_add(u64::from(line) + 1);
            }
        }
        sum
    }

    fn round<C: Clock>(&mut self, clock: &C, sheet: &mut Sheet, size: &Size) -> Result<()> {
        sheet.start(clock)?;
        let sum = self.draw();
        sheet.stop(clock, size.draw, DRAWS, sum)?;
        self.fill();
        sheet.start(clock)?;
        let sum = self.set();
        sheet.stop(clock, size.set, DRAWS, sum)?;
        self.fill();
        sheet.start(clock)?;
        let sum = self.set_and_best();
        sheet.stop(clock, size.set_and_best, DRAWS, sum)?;
        sheet.start(clock)?;
        let sum = self.best_and_remove(size.taken);
        sheet.stop(clock, size.best_and_remove, size.taken, sum)
    }
}

/// Measures each call, on an index of each size.
pub(crate) fn measure<C: Clock>(
    alloc: Global,
    clock: &C,
    sheet: &mut Sheet,
    rounds: u32,
) -> Result<()> {
    for size in SIZES {
        let mut index = Index::new(alloc, size)?;
        for _ in 0..rounds.min(ROUNDS) {
            index.round(clock, sheet, size)?;
        }
    }
    Ok(())
}
