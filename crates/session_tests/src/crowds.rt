//! Four sessions at once that do what numbers say.

ghost use Rattle.std.specs.Prelude.{◌≡◌, ◌≤◌, length, IfOk};

use crate::drives::{EIGHT_UNITS, SMALL, blank};
use crate::history::{Wrong, is_kept, judge, refused};
use crate::lists::list;
use crate::roamers::{Board, Mix, Roamer};
use pblk_model::Shape;
use std::alloc::{AllocError, Global};
use std::sync::Wait;
use std::test::Fail;
use std::thread::Threads;
use target_crew::{armed, serve};

/// What sessions are to do.
#[derive(Clone, Copy)]
pub(crate) struct Asked {
    pub(crate) shape: Shape,
    /// How many of them there are, from 1 to 4.
    pub(crate) sessions: u32,
    /// How many commands each of them has.
    pub(crate) turns: u32,
    pub(crate) mix: Mix,
    pub(crate) seed: u64,
}

/// The sessions, before they do anything.
pub(crate) fn crowd<'b>(
    alloc: Global,
    board: &'b Board,
    asked: &Asked,
) -> Result<Vec<Roamer<'b>>, AllocError>
    ensures { IfOk result (λ rs. length rs.items ≡ asked.now.sessions) }
{
    let mut roamers = Vec::with_capacity(alloc, asked.sessions as usize)?;
    for number in 0..asked.sessions {
        roamers.push(Roamer::new(
            alloc,
            u64::from(number),
            board,
            asked.mix,
            asked.turns,
            asked.shape.capacity,
            asked.seed,
        )?)?;
    }
    Ok(roamers)
}

// What they do is right, and the closed drive holds what the last lines say.
fn run<R: Threads + Wait + Sync>(rt: &R, alloc: Global, asked: &Asked) -> Result<(), Fail>
    requires some { 1 ≤ asked.now.sessions }
    requires few { asked.now.sessions ≤ 4 }
{
    let board = Board::new();
    let drive = blank(alloc, &asked.shape)?;
    let (shape, units) = armed(alloc, drive, &[], None)?;
    let roamers = crowd(alloc, &board, asked)?;
    let closed = serve(rt, alloc, units, &shape, roamers)?;
    closed.settled?;
    let roamers = closed.works;
    if let Some(deed) = refused(roamers.as_slice()) {
        return Err(Wrong::Refused(deed).into());
    }
    let lines = judge(alloc, shape.capacity, roamers.as_slice())?;
    let held = list(rt, alloc, &shape, closed.units)?;
    let all = lines.len() as u64;
    if !is_kept(
        alloc,
        shape.capacity,
        lines.as_slice(),
        all,
        held.as_slice(),
    )? {
        return Err(Fail::new("the drive holds something else"));
    }
    Ok(())
}

// Each of four sessions does so many things.
fn four_on(shape: Shape, seed: u64) -> Asked
    ensures { result.sessions ≡ 4 }
{
    Asked {
        shape,
        sessions: 4,
        turns: 12_500,
        mix: Mix {
            writes: 6,
            reads: 7,
            flushes: 1,
            sectors: 4,
        },
        seed,
    }
}

#[test]
fn four_sessions_share_a_small_drive(rt: HostRuntime) -> Result<(), Fail> {
    run(&rt, rt.alloc(), &four_on(SMALL, 1))
}

#[test]
fn four_sessions_share_eight_units(rt: HostRuntime) -> Result<(), Fail> {
    run(&rt, rt.alloc(), &four_on(EIGHT_UNITS, 2))
}

#[test]
fn sessions_flush_at_once(rt: HostRuntime) -> Result<(), Fail> {
    let asked = Asked {
        shape: SMALL,
        sessions: 2,
        turns: 1000,
        mix: Mix {
            writes: 6,
            reads: 0,
            flushes: 10,
            sectors: 1,
        },
        seed: 3,
    };
    run(&rt, rt.alloc(), &asked)
}

#[test]
fn sessions_write_to_a_full_ring(rt: HostRuntime) -> Result<(), Fail> {
    for sessions in [2, 4] {
        let asked = Asked {
            shape: SMALL,
            sessions,
            turns: 500,
            mix: Mix {
                writes: 16,
                reads: 0,
                flushes: 0,
                sectors: 16,
            },
            seed: 4,
        };
        run(&rt, rt.alloc(), &asked)?;
    }
    Ok(())
}
