//! A window, the pool of its frames, and what it tells.
ghost use Rattle.std.specs.Bool.{OnTrue};
ghost use Rattle.write_window.specs.Window.{IsHeld};

use pblk_model::Front;
use sector_pool::{Class, Entry, Pool};
use std::alloc::{AllocError, Global};
use std::marker::Model;
use write_window::Window;

/// How many bytes a sector has.
const SECTOR: u32 = 4;

/// What is asked of a window.
#[derive(Clone, Copy, Debug)]
pub enum Asked {
    /// An entry of the next position, whose sector has this byte first.
    Push(Class, u8),
    /// The first byte of a position's sector.
    Get(u64),
    Landed(u64),
    Readable(u64),
    /// The frame goes back to its pool.
    PopFree,
    Synced,
    Freed,
}

/// What it told.
#[derive(Clone, Copy, Debug, PartialEq, Eq)]
pub enum Told {
    Done,
    Byte(u8),
    NotHeld,
    NotReadable,
    /// The first byte of the frame that went.
    Popped(Option<u8>),
    /// The users' writes and the position.
    Front(u64, u64),
    Freed(u64),
    NoFrame,
    Refused,
}

/// A window, and the pool of its frames.
pub struct Bench {
    pool: Pool,
    window: Window,
    size: u64,
}

// The frames of the entries are the pool's, and all that are out.
impl Model for Bench {
    ghost use Rattle.std.specs.Prelude.{◌≡◌, length};
    ghost use Rattle.pblk_model.specs.Frames.{PoolView, count_out};
    ghost use Rattle.write_window.specs.Window.{AreOf};

    ghost Value = { PoolView };

    ghost view = { λ b. b.pool };

    ghost invariant = { λ b. AreOf b.pool.region b.window.entries
        × ((length b.window.entries ≡ count_out b.pool.left)
        × ((b.window.size ≡ b.size) × (b.pool.region.size ≡ 4))) };
}

impl Bench {
    /// A window with room for `size` entries from the position `first` on, and a pool of `frames` frames.
    pub fn new(alloc: Global, size: u32, first: u64, frames: u32) -> Result<Bench, AllocError> {
        let pool = Pool::new(alloc, frames, SECTOR)?;
        match Window::new(alloc, size, first) {
            Ok(window) => Ok(Bench {
                pool,
                window,
                size: u64::from(size),
            }),
            Err(error) => match pool.close() {
                Ok(()) => Err(error),
                Err(_pool) => unreachable!(),
            },
        }
    }

    /// Ends the window and then its pool, and tells how many frames came back to it.
    pub fn close(self) -> u32 {
        let Bench {
            mut pool,
            window,
            size: _,
        } = self;
        window.close(&mut pool);
        let left = pool.left();
        match pool.close() {
            Ok(()) => left,
            Err(_pool) => unreachable!(),
        }
    }
}

fn push(bench: Bench, class: Class, byte: u8) -> (Bench, Told) {
    let Bench {
        mut pool,
        mut window,
        size,
    } = bench;
    let position = window.taken();
    if position >= 1 << 63 || position - window.freed() >= size {
        return (Bench { pool, window, size }, Told::Refused);
    }
    match pool.take() {
        None => (Bench { pool, window, size }, Told::NoFrame),
        Some(mut frame) => {
            frame.fill(&[byte, 0, 0, 0]);
            window.push(Entry {
                position,
                class,
                lba: 0,
                source: None,
                frame,
            });
            (Bench { pool, window, size }, Told::Done)
        }
    }
}

fn get(window: &Window, position: u64) -> Told {
    match window.get(position) {
        None => Told::NotHeld,
        Some(sector) => match sector.first() {
            None => Told::Refused,
            Some(byte) => Told::Byte(*byte),
        },
    }
}

fn holds(window: &Window, position: u64) -> bool
    ensures { OnTrue result (IsHeld window.now position) }
{
    window.freed() <= position && position < window.taken()
}

fn landed(bench: Bench, position: u64) -> (Bench, Told) {
    let Bench {
        pool,
        mut window,
        size,
    } = bench;
    if !holds(&window, position) {
        return (Bench { pool, window, size }, Told::Refused);
    }
    window.landed(position);
    (Bench { pool, window, size }, Told::Done)
}

fn readable(bench: Bench, position: u64) -> (Bench, Told) {
    let Bench {
        pool,
        mut window,
        size,
    } = bench;
    if !holds(&window, position) || !window.has_landed(position) {
        return (Bench { pool, window, size }, Told::Refused);
    }
    window.readable(position);
    (Bench { pool, window, size }, Told::Done)
}

fn pop_free(bench: Bench) -> (Bench, Told) {
    let Bench {
        mut pool,
        mut window,
        size,
    } = bench;
    match window.pop_free() {
        None => (Bench { pool, window, size }, Told::NotReadable),
        Some(frame) => {
            let byte = frame.bytes().first().copied();
            pool.give(frame);
            (Bench { pool, window, size }, Told::Popped(byte))
        }
    }
}

/// Asks a window, unless the call's condition doesn't hold.
pub fn ask(bench: Bench, asked: Asked) -> (Bench, Told) {
    match asked {
        Asked::Push(class, byte) => push(bench, class, byte),
        Asked::Landed(position) => landed(bench, position),
        Asked::Readable(position) => readable(bench, position),
        Asked::PopFree => pop_free(bench),
        Asked::Get(position) => {
            let told = get(&bench.window, position);
            (bench, told)
        }
        Asked::Synced => {
            let Front { users, position } = bench.window.synced();
            (bench, Told::Front(users, position))
        }
        Asked::Freed => {
            let freed = bench.window.freed();
            (bench, Told::Freed(freed))
        }
    }
}
