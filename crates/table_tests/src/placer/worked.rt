//! Worlds of the small drive by hand. A line of both units has twelve stripes of four blocks, which go round
//! the two units: one of start record, ten of data and one of end record. A line of one unit has six stripes,
//! of which four are data.

use crate::placer::harness::{Asked, Pair, Told};
use Asked::{Begin, Landed, Lost, Next, PadTo, Place, Stopped, Wait, WaitLost};
use Told::{Data, Done, End, Nothing, Pad, Refused, Start};
use pblk_layout::Layout;
use pblk_model::Shape;
use std::alloc::{AllocError, Global};
use std::process::Abort;
use std::test::Fail;

fn run<R: Abort>(
    rt: &R,
    alloc: Global,
    pair: &mut Pair,
    steps: &[(Asked, Told)],
) -> Result<(), AllocError> {
    for (asked, told) in steps {
        let answer = pair.ask(alloc, *asked)?;
        assert_eq!(rt; answer, *told, "{asked:?}");
    }
    Ok(())
}

fn small(alloc: Global) -> Result<Pair, AllocError> {
    Pair::new(alloc, &Layout::new(&Shape::small()))
}

// No line is open at first. Data waits for the start record, for its unit, and for a stripe's entries or the
// pad target.
const OPENED: &[(Asked, Told)] = &[
    (Next(0), Nothing),
    (Begin(0, 3), Done),
    (Begin(0, 3), Refused),
    (Begin(8, 3), Refused),
    (Begin(1, 4), Refused),
    (Begin(1, 0), Refused),
    (Next(0), Start(0, 0, 0, 0)),
    (Next(2), Start(0, 0, 0, 0)),
    (Next(1), Nothing),
    (Landed(0), Refused),
    (Place(0), Start(0, 0, 0, 0)),
    (Wait(0), Done),
    (Wait(1), Done),
    (Wait(2), Done),
    (Wait(3), Done),
    (Next(0), Nothing),
    (Landed(0), Start(0, 0, 0, 0)),
    (Next(0), Data(0, 4, 1, 0, 4, 0)),
    (Next(2), Nothing),
    (Wait(3), Refused),
    (Wait(4), Done),
    (Wait(5), Done),
    (Wait(6), Done),
    (Place(0), Data(0, 4, 1, 0, 4, 0)),
    (Wait(3), Refused),
    (Next(0), Nothing),
    (PadTo(4), Done),
    (Next(0), Nothing),
    (PadTo(5), Done),
    (Next(0), Data(0, 8, 0, 4, 3, 4)),
    (PadTo(2), Done),
    (Next(0), Data(0, 8, 0, 4, 3, 4)),
    (Place(2), Data(0, 8, 0, 4, 3, 4)),
    (Wait(7), Done),
    (Wait(8), Done),
    (Wait(9), Done),
    (Wait(10), Done),
    (Next(0), Nothing),
    (Landed(1), Data(0, 4, 1, 0, 4, 0)),
    (Landed(1), Refused),
    (Landed(0), Data(0, 8, 0, 4, 3, 4)),
    (Next(0), Data(0, 12, 1, 4, 4, 7)),
];

// The end record waits for the last data, and then the line is open no more.
const ENDED: &[(Asked, Told)] = &[
    (Wait(35), Done),
    (Wait(36), Done),
    (Next(0), Nothing),
    (PadTo(36), Done),
    (Place(0), Data(0, 40, 0, 20, 2, 35)),
    (Next(0), Nothing),
    (Landed(0), Data(0, 40, 0, 20, 2, 35)),
    (Place(0), End(0, 44, 1, 20)),
    (Begin(0, 3), Refused),
    (Landed(1), End(0, 44, 1, 20)),
    (Next(0), Nothing),
    (Begin(0, 3), Done),
    (Next(0), Start(0, 0, 0, 0)),
];

// Stripes 3 to 9 with the positions 7 to 34, of which the first four wait.
fn fill<R: Abort>(rt: &R, alloc: Global, pair: &mut Pair) -> Result<(), AllocError> {
    for stripe in 3..10u32 {
        let first = 7 + 4 * u64::from(stripe - 3);
        let data = Data(0, 4 * stripe, stripe % 2, stripe / 2 * 4, 4, first);
        assert_eq!(rt; pair.ask(alloc, Place(0))?, data);
        assert_eq!(rt; pair.ask(alloc, Landed(stripe % 2))?, data);
        for position in first + 4..first + 8 {
            if position < 35 {
                assert_eq!(rt; pair.ask(alloc, Wait(position))?, Done);
            }
        }
    }
    Ok(())
}

#[test]
fn a_line_is_filled_in_order(rt: HostRuntime) -> Result<(), Fail> {
    let mut pair = small(rt.alloc())?;
    run(&rt, rt.alloc(), &mut pair, OPENED)?;
    fill(&rt, rt.alloc(), &mut pair)?;
    run(&rt, rt.alloc(), &mut pair, ENDED)?;
    Ok(())
}

// A lost stripe closes its chunk. The other chunk gets pads to its end, whatever waits. The lost entries are
// placed again in the next line, before the others and in order.
const LOST: &[(Asked, Told)] = &[
    (Begin(0, 3), Done),
    (Place(0), Start(0, 0, 0, 0)),
    (Landed(0), Start(0, 0, 0, 0)),
    (Wait(0), Done),
    (Wait(1), Done),
    (Wait(2), Done),
    (Wait(3), Done),
    (Wait(4), Done),
    (Wait(5), Done),
    (Wait(6), Done),
    (Wait(7), Done),
    (Place(0), Data(0, 4, 1, 0, 4, 0)),
    (Place(0), Data(0, 8, 0, 4, 4, 4)),
    (Lost(1), Data(0, 4, 1, 0, 4, 0)),
    (Next(0), Nothing),
    (Landed(0), Data(0, 8, 0, 4, 4, 4)),
    (Next(0), Pad(0, 16, 0, 8)),
    (WaitLost(2), Done),
    (WaitLost(0), Done),
    (WaitLost(3), Done),
    (WaitLost(1), Done),
    (WaitLost(1), Refused),
    (Wait(8), Done),
    (Next(0), Pad(0, 16, 0, 8)),
    (Begin(3, 3), Done),
    (Begin(4, 3), Refused),
    (Next(0), Pad(0, 16, 0, 8)),
    (Next(1), Nothing),
    (Place(0), Pad(0, 16, 0, 8)),
    (Next(0), Nothing),
    (Landed(0), Pad(0, 16, 0, 8)),
    (Place(0), Pad(0, 24, 0, 12)),
    (Landed(0), Pad(0, 24, 0, 12)),
    (Place(0), Pad(0, 32, 0, 16)),
    (Landed(0), Pad(0, 32, 0, 16)),
    (Place(0), Pad(0, 40, 0, 20)),
    (Next(0), Nothing),
    (Begin(4, 2), Refused),
    (Landed(0), Pad(0, 40, 0, 20)),
    (Begin(0, 2), Done),
    (Next(0), Start(3, 0, 0, 0)),
    (Next(1), Start(0, 0, 1, 0)),
    (Place(0), Start(3, 0, 0, 0)),
    (Landed(0), Start(3, 0, 0, 0)),
    (Place(0), Data(3, 4, 1, 0, 4, 0)),
    (Next(0), Nothing),
    (PadTo(9), Done),
    (Next(0), Data(3, 8, 0, 4, 1, 8)),
    (Next(1), Nothing),
    (Landed(1), Data(3, 4, 1, 0, 4, 0)),
];

// Without a whole start record a line has no data: pads to the end of its other chunk alone.
const START_LOST: &[(Asked, Told)] = &[
    (Begin(2, 3), Done),
    (Place(0), Start(2, 0, 0, 0)),
    (Lost(0), Start(2, 0, 0, 0)),
    (Wait(0), Done),
    (Wait(1), Done),
    (Wait(2), Done),
    (Wait(3), Done),
    (Next(2), Nothing),
    (Place(0), Pad(2, 4, 1, 0)),
    (Landed(1), Pad(2, 4, 1, 0)),
    (Place(0), Pad(2, 12, 1, 4)),
    (Landed(1), Pad(2, 12, 1, 4)),
    (Place(0), Pad(2, 20, 1, 8)),
    (Landed(1), Pad(2, 20, 1, 8)),
    (Place(0), Pad(2, 28, 1, 12)),
    (Landed(1), Pad(2, 28, 1, 12)),
    // a pad that is lost too closes the last chunk
    (Place(0), Pad(2, 36, 1, 16)),
    (Lost(1), Pad(2, 36, 1, 16)),
    (Next(0), Nothing),
    (Begin(2, 3), Done),
    (Next(0), Start(2, 0, 0, 0)),
];

// A stopped stripe is offered again before all others, by unit, also in a line that has failed.
const STOPPED: &[(Asked, Told)] = &[
    (Begin(0, 3), Done),
    (Place(0), Start(0, 0, 0, 0)),
    (Stopped(0), Start(0, 0, 0, 0)),
    (Landed(0), Refused),
    (Next(1), Nothing),
    (Place(0), Start(0, 0, 0, 0)),
    (Next(0), Nothing),
    (Landed(0), Start(0, 0, 0, 0)),
    (Wait(0), Done),
    (Wait(1), Done),
    (Wait(2), Done),
    (Wait(3), Done),
    (Wait(4), Done),
    (Wait(5), Done),
    (Wait(6), Done),
    (Wait(7), Done),
    (Place(0), Data(0, 4, 1, 0, 4, 0)),
    (Place(0), Data(0, 8, 0, 4, 4, 4)),
    (Stopped(1), Data(0, 4, 1, 0, 4, 0)),
    (Stopped(0), Data(0, 8, 0, 4, 4, 4)),
    (Wait(8), Done),
    (Wait(9), Done),
    (Wait(10), Done),
    (Wait(11), Done),
    (Wait(5), Refused),
    (Next(0), Data(0, 8, 0, 4, 4, 4)),
    (Next(1), Data(0, 4, 1, 0, 4, 0)),
    (Next(3), Nothing),
    (Place(1), Data(0, 4, 1, 0, 4, 0)),
    (Place(0), Data(0, 8, 0, 4, 4, 4)),
    (Next(0), Nothing),
    (Landed(1), Data(0, 4, 1, 0, 4, 0)),
    (Landed(0), Data(0, 8, 0, 4, 4, 4)),
    (Wait(12), Done),
    (Wait(13), Done),
    (Wait(14), Done),
    (Wait(15), Done),
    (Place(0), Data(0, 12, 1, 4, 4, 8)),
    (Place(0), Data(0, 16, 0, 8, 4, 12)),
    (Stopped(0), Data(0, 16, 0, 8, 4, 12)),
    (Lost(1), Data(0, 12, 1, 4, 4, 8)),
    (Begin(1, 1), Done),
    (Next(0), Data(0, 16, 0, 8, 4, 12)),
    (Place(0), Data(0, 16, 0, 8, 4, 12)),
    (Next(0), Nothing),
    (Landed(0), Data(0, 16, 0, 8, 4, 12)),
    (Next(0), Pad(0, 24, 0, 12)),
];

// Of two lines the one that was opened first comes first, whatever its number.
const TWO: &[(Asked, Told)] = &[
    (Begin(5, 3), Done),
    (Begin(2, 2), Done),
    (Begin(3, 3), Refused),
    (Next(0), Start(5, 0, 0, 0)),
    (Place(1), Start(2, 0, 1, 0)),
    (Place(0), Start(5, 0, 0, 0)),
    (Wait(0), Done),
    (Wait(1), Done),
    (Wait(2), Done),
    (Wait(3), Done),
    (Next(0), Nothing),
    (Landed(1), Start(2, 0, 1, 0)),
    (Next(0), Data(2, 4, 1, 4, 4, 0)),
    (Landed(0), Start(5, 0, 0, 0)),
    (Next(0), Data(5, 4, 1, 0, 4, 0)),
    (Next(2), Nothing),
    (Place(0), Data(5, 4, 1, 0, 4, 0)),
    (Wait(4), Done),
    (PadTo(5), Done),
    (Next(0), Data(5, 8, 0, 4, 1, 4)),
    (Next(1), Nothing),
];

// Lost entries come first and in order; one entry below the pad target is enough, wherever it waits.
const WAITING: &[(Asked, Told)] = &[
    (Begin(0, 3), Done),
    (Place(0), Start(0, 0, 0, 0)),
    (Landed(0), Start(0, 0, 0, 0)),
    (PadTo(3), Done),
    (Next(0), Nothing),
    (WaitLost(9), Done),
    (Wait(3), Done),
    (Next(0), Nothing),
    (PadTo(4), Done),
    (Next(0), Data(0, 4, 1, 0, 2, 9)),
    (WaitLost(5), Done),
    (Next(0), Data(0, 4, 1, 0, 3, 5)),
    (WaitLost(5), Refused),
    (Wait(2), Refused),
    (Wait(4), Done),
    (Next(0), Data(0, 4, 1, 0, 4, 5)),
];

#[test]
fn worlds_by_hand(rt: HostRuntime) -> Result<(), Fail> {
    let worlds: [&[(Asked, Told)]; 5] = [LOST, START_LOST, STOPPED, TWO, WAITING];
    for steps in worlds {
        let mut pair = small(rt.alloc())?;
        run(&rt, rt.alloc(), &mut pair, steps)?;
    }
    Ok(())
}
