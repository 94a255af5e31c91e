//! A drive stops while four sessions are at work.

ghost use Rattle.std.specs.Prelude.{◌≤◌};

use crate::crowds::{Asked, crowd};
use crate::drives::{SMALL, blank};
use crate::history::{flushed, is_kept, judge, refused};
use crate::lists::list;
use crate::roamers::{Board, Mix};
use std::alloc::Global;
use std::sync::Wait;
use std::test::Fail;
use std::thread::Threads;
use target_crew::{armed, serve};
use unit_port::Fuse;

// All calls return, what they tell is right, and what was flushed is kept.
fn run<R: Threads + Wait + Sync>(
    rt: &R,
    alloc: Global,
    asked: &Asked,
    fuse: Fuse,
) -> Result<(), Fail>
    requires some { 1 ≤ asked.now.sessions }
    requires few { asked.now.sessions ≤ 4 }
{
    let board = Board::new();
    let drive = blank(alloc, &asked.shape)?;
    let (shape, units) = armed(alloc, drive, &[], Some(fuse))?;
    let roamers = crowd(alloc, &board, asked)?;
    let closed = serve(rt, alloc, units, &shape, roamers)?;
    let roamers = closed.works;
    if closed.settled.is_ok() || refused(roamers.as_slice()).is_none() {
        return Err(Fail::new("nothing stopped"));
    }
    let lines = judge(alloc, shape.capacity, roamers.as_slice())?;
    let held = list(rt, alloc, &shape, closed.units)?;
    let least = flushed(roamers.as_slice());
    if !is_kept(
        alloc,
        shape.capacity,
        lines.as_slice(),
        least,
        held.as_slice(),
    )? {
        return Err(Fail::new("the drive holds something else"));
    }
    Ok(())
}

#[test]
fn a_stop_is_told_and_what_was_flushed_is_kept(rt: HostRuntime) -> Result<(), Fail> {
    let asked = Asked {
        shape: SMALL,
        sessions: 4,
        turns: 200,
        mix: Mix {
            writes: 7,
            reads: 5,
            flushes: 3,
            sectors: 4,
        },
        seed: 5,
    };
    for (unit, nth, cut) in [(0, 1, 0), (1, 3, 1), (0, 20, 1), (1, 61, 0), (0, 80, 2)] {
        run(&rt, rt.alloc(), &asked, Fuse { unit, nth, cut })?;
    }
    Ok(())
}
