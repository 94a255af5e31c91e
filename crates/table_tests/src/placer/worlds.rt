//! Random worlds of three drives.
ghost use Rattle.std.specs.Prelude.{◌≤◌};

use crate::placer::harness::{Asked, Pair, Told};
use pblk_layout::Layout;
use pblk_model::Shape;
use std::alloc::{AllocError, Global};
use std::process::Abort;
use std::test::Fail;

/// Numbers that jump about, the same in each run.
#[derive(Drop)]
struct Draw {
    state: u64,
}

impl Draw {
    // The next number below `count`, or 0.
    fn below(&mut self, count: u64) -> u64
        ensures { result ≤ count }
    {
        self.state = self
            .state
            .wrapping_mul(6364136223846793005)
            .wrapping_add(1442695040888963407);
        (self.state >> 33) % count.max(1)
    }

    fn below_small(&mut self, count: u32) -> u32 {
        self.below(u64::from(count)) as u32
    }
}

/// How many stripes of each kind landed, how many of any kind were lost and how many stopped, and how many
/// looks told different stripes.
#[derive(Clone, Copy, Debug, PartialEq, Eq)]
struct Seen {
    starts: u32,
    data: u32,
    pads: u32,
    ends: u32,
    lost: u32,
    stopped: u32,
    differ: u32,
}

const NONE: Seen = Seen {
    starts: 0,
    data: 0,
    pads: 0,
    ends: 0,
    lost: 0,
    stopped: 0,
    differ: 0,
};

/// A pair of placers, and what a target knows beside them.
#[derive(Drop)]
struct World {
    pair: Pair,
    draw: Draw,
    units: u32,
    lines: u32,
    // how many blocks a stripe has
    blocks: u64,
    // the position of the next new entry
    next: u64,
    // those that were lost and don't wait yet
    lost: Vec<u64>,
    seen: Seen,
}

impl World {
    fn new(alloc: Global, shape: &Shape, layout: &Layout, seed: u64) -> Result<World, AllocError> {
        Ok(World {
            pair: Pair::new(alloc, layout)?,
            draw: Draw { state: seed },
            units: shape.units(),
            lines: shape.chunks,
            blocks: u64::from(shape.ws_opt),
            next: 0,
            lost: Vec::new(alloc),
            seen: NONE,
        })
    }

    // Some of the units, as bits.
    fn some_units(&mut self) -> u64 {
        self.draw.below(1u64.wrapping_shl(self.units))
    }

    // About half as many new entries as a stripe has blocks.
    fn wait(&mut self, alloc: Global) -> Result<(), AllocError> {
        for _ in 0..self.draw.below(self.blocks).saturating_add(1) {
            if self.pair.ask(alloc, Asked::Wait(self.next))? == Told::Done {
                self.next = self.next.wrapping_add(1 + self.draw.below(2));
            }
        }
        Ok(())
    }

    // Some of those that were lost, in no order.
    fn wait_again(&mut self, alloc: Global) -> Result<(), AllocError> {
        for _ in 0..self.blocks {
            let count = self.lost.len() as u64;
            if count != 0 {
                let index = self.draw.below(count) as usize;
                if let Some(position) = self.lost.get(index).copied() {
                    if self.pair.ask(alloc, Asked::WaitLost(position))? == Told::Done {
                        let _ = self.lost.swap_remove(index);
                    }
                }
            }
        }
        Ok(())
    }

    fn note_landed(&mut self, told: Told) {
        let seen = &mut self.seen;
        let count = match told {
            Told::Start(..) => &mut seen.starts,
            Told::Data(..) => &mut seen.data,
            Told::Pad(..) => &mut seen.pads,
            Told::End(..) => &mut seen.ends,
            _ => return,
        };
        *count = count.saturating_add(1);
    }

    // A unit is answered: mostly its stripe has landed.
    fn answer(&mut self, alloc: Global) -> Result<(), AllocError> {
        let unit = self.draw.below_small(self.units);
        match self.draw.below(96) {
            0..=1 => {
                let positions = self.pair.entries(alloc, unit)?;
                if is_stripe(self.pair.ask(alloc, Asked::Lost(unit))?) {
                    self.lost.extend_from_slice(&positions)?;
                    self.seen.lost = self.seen.lost.saturating_add(1);
                }
            }
            2..=9 => {
                if is_stripe(self.pair.ask(alloc, Asked::Stopped(unit))?) {
                    self.seen.stopped = self.seen.stopped.saturating_add(1);
                }
            }
            _ => {
                let told = self.pair.ask(alloc, Asked::Landed(unit))?;
                self.note_landed(told);
            }
        }
        Ok(())
    }

    fn act(&mut self, alloc: Global) -> Result<(), AllocError> {
        match self.draw.below(16) {
            0 | 1 => self.wait(alloc)?,
            2 => self.wait_again(alloc)?,
            3 => {
                let to = self.draw.below(self.next.saturating_add(2));
                if self.draw.below(8) == 0 {
                    self.pair.ask(alloc, Asked::PadTo(to))?;
                }
            }
            4 => {
                let line = self.draw.below_small(self.lines);
                let online = self.some_units();
                self.pair.ask(alloc, Asked::Begin(line, online))?;
            }
            5..=9 => {
                let busy = self.some_units() & self.some_units();
                self.pair.ask(alloc, Asked::Place(busy))?;
            }
            _ => self.answer(alloc)?,
        }
        Ok(())
    }

    fn look(&mut self, alloc: Global, busy: u64) -> Result<(), AllocError> {
        if self.pair.ask(alloc, Asked::Next(busy))? == Told::Differ {
            self.seen.differ = self.seen.differ.saturating_add(1);
        }
        Ok(())
    }

    // What is told where no unit is busy, one alone, all but one, and some.
    fn compare(&mut self, alloc: Global) -> Result<(), AllocError> {
        self.look(alloc, 0)?;
        for unit in 0..self.units {
            let bit = 1u64.wrapping_shl(unit);
            self.look(alloc, bit)?;
            self.look(alloc, !bit)?;
        }
        let busy = self.some_units();
        self.look(alloc, busy)
    }

    fn run(&mut self, alloc: Global, steps: u32) -> Result<(), AllocError> {
        for _ in 0..steps {
            self.act(alloc)?;
            self.compare(alloc)?;
        }
        Ok(())
    }
}

fn is_stripe(told: Told) -> bool {
    !matches!(told, Told::Refused)
}

// Two units of eight chunks of 24 blocks, in stripes of a block.
const NARROW: Shape = Shape {
    ws_min: 1,
    ws_opt: 1,
    mw_cunits: 0,
    ..Shape::SMALL
};

// Four units of eight chunks of 768 blocks, in stripes of 64, the most that there may be.
const WIDE: Shape = Shape {
    groups: 2,
    clba: 768,
    ws_min: 64,
    ws_opt: 64,
    mw_cunits: 0,
    ring: 2048,
    ..Shape::SMALL
};

// What is seen in a random world of a drive, in so many steps.
fn seen_on(
    alloc: Global,
    shape: &Shape,
    seed: u64,
    steps: u32,
) -> Result<Option<Seen>, AllocError> {
    match shape.refusal() {
        Some(_) => Ok(None),
        None => {
            let layout = Layout::new(shape);
            let mut world = World::new(alloc, shape, &layout, seed)?;
            world.run(alloc, steps)?;
            Ok(Some(world.seen))
        }
    }
}

// Each world sees stripes of all kinds land, and some lost and stopped.
fn is_rich(seen: &Seen) -> bool {
    seen.starts > 0
        && seen.data > 0
        && seen.pads > 0
        && seen.ends > 0
        && seen.lost > 0
        && seen.stopped > 0
}

fn compare_on<R: Abort>(rt: &R, alloc: Global, shape: &Shape) -> Result<(), Fail> {
    let seen = seen_on(alloc, shape, 1, 3000)?.ok_or("accepted")?;
    assert_eq!(rt; seen.differ, 0);
    assert!(rt; is_rich(&seen), "{seen:?}");
    Ok(())
}

#[test]
fn both_tell_the_same_in_stripes_of_one(rt: HostRuntime) -> Result<(), Fail> {
    compare_on(&rt, rt.alloc(), &NARROW)
}

#[test]
fn both_tell_the_same_in_stripes_of_four(rt: HostRuntime) -> Result<(), Fail> {
    compare_on(&rt, rt.alloc(), &Shape::small())
}

#[test]
fn both_tell_the_same_in_stripes_of_64(rt: HostRuntime) -> Result<(), Fail> {
    compare_on(&rt, rt.alloc(), &WIDE)
}
