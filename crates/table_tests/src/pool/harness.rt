//! A pool with the frames that are out, and what it tells.

use sector_pool::{Frame, Pool};
use std::alloc::{AllocError, Global};
use std::marker::Model;

/// What is asked of a pool.
#[derive(Clone, Copy, Debug)]
pub enum Asked {
    Take,
    /// Of the frame that was taken last.
    Give,
    Close,
}

/// What it told.
#[derive(Clone, Copy, Debug, PartialEq, Eq)]
pub enum Told {
    Taken,
    NoneLeft,
    Given,
    NoneOut,
    Closed,
    Refused,
    Ended,
    NoMemory,
}

/// A pool, and all its frames that are out.
pub struct Bench {
    pool: Pool,
    frames: Vec<Frame>,
}

// The frames are the pool's, and there is one for each range that is out.
impl Model for Bench {
    ghost use Rattle.std.specs.Prelude.{◌≡◌, length};
    ghost use Rattle.std.specs.List.{AllByRecursion};
    ghost use Rattle.pblk_model.specs.Frames.{PoolView, FrameView, count_out};

    ghost Value = { PoolView };

    ghost view = { λ b. b.pool };

    ghost invariant = { λ b. AllByRecursion (λ (f : FrameView). f.region ≡ b.pool.region) b.frames.items
        × (length b.frames.items ≡ count_out b.pool.left) };
}

impl Bench {
    pub fn new(alloc: Global, count: u32, size: u32) -> Result<Bench, AllocError> {
        let pool = Pool::new(alloc, count, size)?;
        Ok(Bench {
            pool,
            frames: Vec::new(alloc),
        })
    }

    pub fn left(&self) -> u32 {
        self.pool.left()
    }
}

fn take(bench: Bench) -> (Bench, Told) {
    let Bench {
        mut pool,
        mut frames,
    } = bench;
    match pool.take() {
        None => (Bench { pool, frames }, Told::NoneLeft),
        Some(frame) => match frames.push(frame) {
            Ok(()) => (Bench { pool, frames }, Told::Taken),
            Err(refused) => {
                pool.give(refused.value);
                (Bench { pool, frames }, Told::NoMemory)
            }
        },
    }
}

fn give(bench: Bench) -> (Bench, Told) {
    let Bench {
        mut pool,
        mut frames,
    } = bench;
    match frames.pop() {
        None => (Bench { pool, frames }, Told::NoneOut),
        Some(frame) => {
            pool.give(frame);
            (Bench { pool, frames }, Told::Given)
        }
    }
}

fn close(bench: Bench) -> (Option<Bench>, Told) {
    let Bench { pool, frames } = bench;
    match pool.close() {
        Ok(()) => {
            frames.destroy_empty();
            (None, Told::Closed)
        }
        Err(pool) => (Some(Bench { pool, frames }), Told::Refused),
    }
}

/// Asks a pool, unless it has ended.
pub fn ask(bench: Option<Bench>, asked: Asked) -> (Option<Bench>, Told) {
    let Some(bench) = bench else {
        return (None, Told::Ended);
    };
    match asked {
        Asked::Take => {
            let (bench, told) = take(bench);
            (Some(bench), told)
        }
        Asked::Give => {
            let (bench, told) = give(bench);
            (Some(bench), told)
        }
        Asked::Close => close(bench),
    }
}
