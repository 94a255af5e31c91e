//! The pool and the window of a drive's write buffer.
ghost use Rattle.std.specs.Prelude.{◌≡◌, ◌+◌, length};
ghost use Rattle.std.specs.Bool.{OnTrue};
ghost use Rattle.std.specs.List.{AllByRecursion};
ghost use Rattle.pblk_model.specs.Frames.{FrameView, count_out};
ghost use Rattle.write_window.specs.Window.{IsHeld};

use crate::draw::{DRAWS, Draw};
use crate::sheet::Sheet;
use anyhow::Result;
use pblk_model::Shape;
use sector_pool::{Class, Entry, Frame, Pool};
use std::alloc::{AllocError, Global};
use std::marker::Model;
use std::rt::Clock;
use write_window::Window;

/// A window, the pool of its frames, and those that are in neither.
pub(crate) struct Buffer {
    pool: Pool,
    window: Window,
    frames: Vec<Frame>,
    sector: Vec<u8>,
    size: u32,
}

// The frames of the entries and the others are the pool's, and all that are out.
impl Model for Buffer {
    ghost use Rattle.std.specs.Prelude.{◌≡◌, ◌+◌, length};
    ghost use Rattle.std.specs.List.{AllByRecursion};
    ghost use Rattle.pblk_model.specs.Frames.{PoolView, FrameView, count_out};
    ghost use Rattle.write_window.specs.Window.{AreOf};

    ghost Value = { PoolView };

    ghost view = { λ b. b.pool };

    ghost invariant = { λ b. AreOf b.pool.region b.window.entries
        × (AllByRecursion (λ (f : FrameView). f.region ≡ b.pool.region) b.frames.items
        × ((length b.window.entries + length b.frames.items ≡ count_out b.pool.left)
        × ((b.window.size ≡ b.size) × (b.pool.region.size ≡ length b.sector.items)))) };
}

// Gives frames back to their pool.
fn give_all(frames: Vec<Frame>, pool: &mut Pool)
    requires own { AllByRecursion (λ (f : FrameView). f.region ≡ pool.old.region) frames.items }
    ensures region { pool.new.region ≡ pool.old.region }
    ensures out { count_out pool.old.left ≡ count_out pool.new.left + length frames.items }
{
    let mut frames = frames;
    while let Some(frame) = frames.pop() {
        pool.give(frame);
    }
    frames.destroy_empty();
}

fn holds(window: &Window, position: u64) -> bool
    ensures { OnTrue result (IsHeld window.now position) }
{
    window.freed() <= position && position < window.taken()
}

impl Buffer {
    /// That of a blank drive's target.
    pub(crate) fn new(alloc: Global, shape: &Shape) -> Result<Buffer, AllocError> {
        let sector = vec![in alloc; 1u8; shape.sector as usize]?;
        let pool = Pool::new(alloc, shape.ring, shape.sector)?;
        match Window::new(alloc, shape.ring, 0) {
            Ok(window) => Ok(Buffer {
                pool,
                window,
                frames: Vec::new(alloc),
                sector,
                size: shape.ring,
            }),
            Err(error) => match pool.close() {
                Ok(()) => Err(error),
                Err(_pool) => unreachable!(),
            },
        }
    }

    /// Ends the window and then its pool.
    pub(crate) fn close(self) {
        let Buffer {
            mut pool,
            window,
            frames,
            sector: _,
            size: _,
        } = self;
        give_all(frames, &mut pool);
        window.close(&mut pool);
        match pool.close() {
            Ok(()) => (),
            Err(_pool) => unreachable!(),
        }
    }

    // Keeps a frame of the pool.
    fn take_one(&mut self) -> u64 {
        match self.pool.take() {
            None => 0,
            Some(frame) => match self.frames.push(frame) {
                Ok(()) => 1,
                Err(refused) => {
                    self.pool.give(refused.value);
                    0
                }
            },
        }
    }

    // Gives back a frame that was kept.
    fn give_one(&mut self) -> u64 {
        match self.frames.pop() {
            None => 0,
            Some(frame) => {
                self.pool.give(frame);
                1
            }
        }
    }

    fn fill_one(&mut self) -> u64 {
        match self.pool.take() {
            None => 0,
            Some(mut frame) => {
                frame.fill(&self.sector);
                match self.frames.push(frame) {
                    Ok(()) => 1,
                    Err(refused) => {
                        self.pool.give(refused.value);
                        0
                    }
                }
            }
        }
    }

    fn push_one(&mut self) -> u64 {
        let position = self.window.taken();
        if position >= 1 << 63 || position - self.window.freed() >= u64::from(self.size) {
            return 0;
        }
        match self.frames.pop() {
            None => 0,
            Some(frame) => {
                self.window.push(Entry {
                    position,
                    class: Class::User,
                    lba: 0,
                    source: None,
                    frame,
                });
                1
            }
        }
    }

    fn landed_one(&mut self, position: u64) -> u64 {
        if !holds(&self.window, position) {
            return 0;
        }
        self.window.landed(position);
        1
    }

    fn readable_one(&mut self, position: u64) -> u64 {
        if !holds(&self.window, position) || !self.window.has_landed(position) {
            return 0;
        }
        self.window.readable(position);
        1
    }

    fn pop_free_one(&mut self) -> u64 {
        match self.window.pop_free() {
            None => 0,
            Some(frame) => match self.frames.push(frame) {
                Ok(()) => 1,
                Err(refused) => {
                    self.pool.give(refused.value);
                    0
                }
            },
        }
    }

    fn take(&mut self) -> u64 {
        let mut sum = 0u64;
        for _ in 0..self.size {
            sum = sum.wrapping_add(self.take_one());
        }
        sum
    }

    fn fill(&mut self) -> u64 {
        let mut sum = 0u64;
        for _ in 0..self.size {
            sum = sum.wrapping_add(self.fill_one());
        }
        sum
    }

    // How many frames begin with a one.
    fn bytes(&self) -> u64 {
        let mut sum = 0u64;
        for frame in self.frames.as_slice() {
            sum = sum.wrapping_add(u64::from(frame.bytes().first() == Some(&1)));
        }
        sum
    }

    fn give(&mut self) -> u64 {
        let mut sum = 0u64;
        for _ in 0..self.size {
            sum = sum.wrapping_add(self.give_one());
        }
        sum
    }

    fn push(&mut self) -> u64 {
        let mut sum = 0u64;
        for _ in 0..self.size {
            sum = sum.wrapping_add(self.push_one());
        }
        sum
    }

    // How many sectors begin with a one.
    fn get(&self) -> u64 {
        let first = self.window.freed();
        let mut draw = Draw::new();
        let mut sum = 0u64;
        for _ in 0..DRAWS {
            let position = first.wrapping_add(draw.below(u64::from(self.size.max(1))));
            sum = sum.wrapping_add(match self.window.get(position) {
                None => 0,
                Some(sector) => u64::from(sector.first() == Some(&1)),
            });
        }
        sum
    }

    fn landed(&mut self) -> u64 {
        let first = self.window.freed();
        let mut sum = 0u64;
        for index in 0..self.size {
            sum = sum.wrapping_add(self.landed_one(first.wrapping_add(u64::from(index))));
        }
        sum
    }

    fn readable(&mut self) -> u64 {
        let first = self.window.freed();
        let mut sum = 0u64;
        for index in 0..self.size {
            sum = sum.wrapping_add(self.readable_one(first.wrapping_add(u64::from(index))));
        }
        sum
    }

    fn pop_free(&mut self) -> u64 {
        let mut sum = 0u64;
        for _ in 0..self.size {
            sum = sum.wrapping_add(self.pop_free_one());
        }
        sum
    }

    // With the synced front at each turn, as far as it is past the first entry.
    fn landed_and_synced(&mut self) -> u64 {
        let first = self.window.freed();
        let mut sum = 0u64;
        for index in 0..self.size {
            let front = self.window.synced().position;
            sum = sum
                .wrapping_add(self.landed_one(first.wrapping_add(u64::from(index))))
                .wrapping_add(front.wrapping_sub(first));
        }
        sum
    }

    // With the front of the freed at each turn, which stays.
    fn readable_and_freed(&mut self) -> u64 {
        let first = self.window.freed();
        let mut sum = 0u64;
        for index in 0..self.size {
            let front = self.window.freed();
            sum = sum
                .wrapping_add(self.readable_one(first.wrapping_add(u64::from(index))))
                .wrapping_add(front.wrapping_sub(first));
        }
        sum
    }

    fn round_of_frames<C: Clock>(&mut self, clock: &C, sheet: &mut Sheet) -> Result<()> {
        let turns = u64::from(self.size);
        sheet.start(clock)?;
        let sum = self.take();
        sheet.stop(clock, "pool.take", turns, sum)?;
        sheet.start(clock)?;
        let sum = self.give();
        sheet.stop(clock, "pool.give", turns, sum)?;
        sheet.start(clock)?;
        let sum = self.fill();
        sheet.stop(clock, "pool.take and frame.fill", turns, sum)?;
        sheet.start(clock)?;
        let sum = self.bytes();
        sheet.stop(clock, "frame.bytes", turns, sum)
    }

    fn round_of_entries<C: Clock>(&mut self, clock: &C, sheet: &mut Sheet) -> Result<()> {
        let turns = u64::from(self.size);
        sheet.start(clock)?;
        let sum = self.push();
        sheet.stop(clock, "window.push", turns, sum)?;
        sheet.start(clock)?;
        let sum = self.get();
        sheet.stop(clock, "window.get", DRAWS, sum)?;
        sheet.start(clock)?;
        let sum = self.landed();
        sheet.stop(clock, "window.landed", turns, sum)?;
        sheet.start(clock)?;
        let sum = self.readable();
        sheet.stop(clock, "window.readable", turns, sum)?;
        sheet.start(clock)?;
        let sum = self.pop_free();
        sheet.stop(clock, "window.pop_free", turns, sum)
    }

    fn round_of_fronts<C: Clock>(&mut self, clock: &C, sheet: &mut Sheet) -> Result<()> {
        let turns = u64::from(self.size);
        self.push();
        sheet.start(clock)?;
        let sum = self.landed_and_synced();
        sheet.stop(clock, "window.landed and window.synced", turns, sum)?;
        sheet.start(clock)?;
        let sum = self.readable_and_freed();
        sheet.stop(clock, "window.readable and window.freed", turns, sum)?;
        self.pop_free();
        Ok(())
    }

    /// Measures each call.
    pub(crate) fn rounds<C: Clock>(
        &mut self,
        clock: &C,
        sheet: &mut Sheet,
        rounds: u32,
    ) -> Result<()> {
        for _ in 0..rounds {
            self.round_of_frames(clock, sheet)?;
            self.round_of_entries(clock, sheet)?;
            self.round_of_fronts(clock, sheet)?;
            self.give();
        }
        Ok(())
    }
}
