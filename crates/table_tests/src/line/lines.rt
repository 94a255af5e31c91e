//! The lines of a small drive: through every change of state, and as they are found.

use crate::line::harness::{Asked, Bench, Told, ask};
use line_table::LineState;
use std::test::Fail;

// What is asked in order, what is told, and then the free addresses and the least Free line. A line
// has 40 data addresses at width 2, 16 at width 1, and none at width 0.
const STEPS: &[(Asked, Told, u64, Option<u32>)] = &[
    (Asked::State(0), Told::State(LineState::Free), 320, Some(0)),
    (Asked::State(8), Told::Refused, 320, Some(0)),
    (
        Asked::Turn(0, LineState::Full, 2),
        Told::Refused,
        320,
        Some(0),
    ),
    (
        Asked::Turn(0, LineState::Open, 3),
        Told::Refused,
        320,
        Some(0),
    ),
    (Asked::Turn(0, LineState::Open, 2), Told::Done, 280, Some(1)),
    (Asked::Turn(2, LineState::Open, 2), Told::Done, 240, Some(1)),
    (Asked::Turn(1, LineState::Open, 2), Told::Done, 200, Some(3)),
    (Asked::State(1), Told::State(LineState::Open), 200, Some(3)),
    (Asked::OutlivedFrom(0), Told::Line(None), 200, Some(3)),
    // live sectors, and what takes them
    (Asked::Live(0), Told::Live(0), 200, Some(3)),
    (Asked::Lose(0, 1), Told::Refused, 200, Some(3)),
    (Asked::Gain(0), Told::Done, 200, Some(3)),
    (Asked::Gain(0), Told::Done, 200, Some(3)),
    (Asked::Live(0), Told::Live(2), 200, Some(3)),
    (Asked::Live(1), Told::Live(0), 200, Some(3)),
    (Asked::Taker(0), Told::Taker(None), 200, Some(3)),
    (Asked::Lose(0, 7), Told::Done, 200, Some(3)),
    (Asked::Lose(0, 5), Told::Done, 200, Some(3)),
    (Asked::Live(0), Told::Live(0), 200, Some(3)),
    (Asked::Taker(0), Told::Taker(Some(7)), 200, Some(3)),
    (Asked::Taker(1), Told::Taker(None), 200, Some(3)),
    // a sector that is taken before it has landed, and lands later
    (Asked::Lower(1), Told::Refused, 200, Some(3)),
    (Asked::Gain(1), Told::Done, 200, Some(3)),
    (Asked::Lower(1), Told::Done, 200, Some(3)),
    (Asked::Live(1), Told::Live(0), 200, Some(3)),
    (Asked::Taker(1), Told::Taker(None), 200, Some(3)),
    (Asked::Note(1, 6), Told::Done, 200, Some(3)),
    (Asked::Note(1, 4), Told::Done, 200, Some(3)),
    (Asked::Live(1), Told::Live(0), 200, Some(3)),
    (Asked::Taker(1), Told::Taker(Some(6)), 200, Some(3)),
    (Asked::OutlivedFrom(0), Told::Line(None), 200, Some(3)),
    // full, freed and free again
    (Asked::Turn(0, LineState::Full, 2), Told::Done, 200, Some(3)),
    (Asked::OutlivedFrom(0), Told::Line(Some(0)), 200, Some(3)),
    (Asked::OutlivedFrom(1), Told::Line(None), 200, Some(3)),
    (Asked::State(0), Told::State(LineState::Full), 200, Some(3)),
    (Asked::State(1), Told::State(LineState::Open), 200, Some(3)),
    (
        Asked::Turn(0, LineState::Free, 2),
        Told::Refused,
        200,
        Some(3),
    ),
    (
        Asked::Turn(0, LineState::Freed, 2),
        Told::Done,
        200,
        Some(3),
    ),
    (
        Asked::Turn(0, LineState::Dead, 2),
        Told::Refused,
        200,
        Some(3),
    ),
    (Asked::Turn(0, LineState::Free, 2), Told::Done, 240, Some(0)),
    (Asked::Taker(0), Told::Taker(Some(7)), 240, Some(0)),
    (Asked::OutlivedFrom(0), Told::Line(None), 240, Some(0)),
    // failed, and with a chunk less
    (
        Asked::Turn(1, LineState::Failed, 2),
        Told::Done,
        240,
        Some(0),
    ),
    (Asked::OutlivedFrom(0), Told::Line(Some(1)), 240, Some(0)),
    (Asked::Gain(1), Told::Done, 240, Some(0)),
    (Asked::OutlivedFrom(0), Told::Line(None), 240, Some(0)),
    (Asked::Lower(1), Told::Done, 240, Some(0)),
    (Asked::OutlivedFrom(1), Told::Line(Some(1)), 240, Some(0)),
    (Asked::OutlivedFrom(2), Told::Line(None), 240, Some(0)),
    (
        Asked::OutlivedFrom(u32::MAX),
        Told::Line(None),
        240,
        Some(0),
    ),
    (
        Asked::State(1),
        Told::State(LineState::Failed),
        240,
        Some(0),
    ),
    (
        Asked::Turn(1, LineState::Full, 2),
        Told::Refused,
        240,
        Some(0),
    ),
    (
        Asked::Turn(1, LineState::Freed, 2),
        Told::Done,
        240,
        Some(0),
    ),
    (Asked::Turn(1, LineState::Free, 1), Told::Done, 256, Some(0)),
    // opened again
    (Asked::Turn(0, LineState::Open, 2), Told::Done, 216, Some(1)),
    (Asked::Taker(0), Told::Taker(None), 216, Some(1)),
    (Asked::Turn(1, LineState::Open, 1), Told::Done, 200, Some(3)),
    // and dead
    (
        Asked::Turn(1, LineState::Failed, 0),
        Told::Done,
        200,
        Some(3),
    ),
    (
        Asked::Turn(1, LineState::Freed, 0),
        Told::Done,
        200,
        Some(3),
    ),
    (
        Asked::Turn(1, LineState::Free, 0),
        Told::Refused,
        200,
        Some(3),
    ),
    (Asked::Turn(1, LineState::Dead, 0), Told::Done, 200, Some(3)),
    (Asked::State(1), Told::State(LineState::Dead), 200, Some(3)),
    (
        Asked::Turn(1, LineState::Free, 2),
        Told::Refused,
        200,
        Some(3),
    ),
    (Asked::State(0), Told::State(LineState::Open), 200, Some(3)),
    (Asked::State(7), Told::State(LineState::Free), 200, Some(3)),
];

#[test]
fn a_line_goes_through_its_states(rt: HostRuntime) -> Result<(), Fail> {
    let mut bench = Bench::blank(rt.alloc())?;
    assert_eq!(rt; bench.free_addresses(), 320);
    assert_eq!(rt; bench.least_free(), Some(0));
    for &(asked, told, addresses, least) in STEPS {
        assert_eq!(rt; ask(&mut bench, asked), told, "{asked:?}");
        assert_eq!(rt; bench.free_addresses(), addresses, "{asked:?}");
        assert_eq!(rt; bench.least_free(), least, "{asked:?}");
    }
    Ok(())
}

// Of a drive with lines of every kind, the state of each line, its live sectors, what took one from
// it, and which Full or Failed line has none.
const OPENED: &[(Asked, Told)] = &[
    (Asked::State(0), Told::State(LineState::Full)),
    (Asked::State(1), Told::State(LineState::Failed)),
    (Asked::State(2), Told::State(LineState::Freed)),
    (Asked::State(3), Told::State(LineState::Dead)),
    (Asked::State(4), Told::State(LineState::Free)),
    (Asked::State(5), Told::State(LineState::Free)),
    (Asked::State(6), Told::State(LineState::Free)),
    (Asked::State(7), Told::State(LineState::Free)),
    (Asked::Live(0), Told::Live(2)),
    (Asked::Live(1), Told::Live(0)),
    (Asked::Live(2), Told::Live(0)),
    (Asked::Live(3), Told::Live(0)),
    (Asked::Live(4), Told::Live(0)),
    (Asked::Live(7), Told::Live(0)),
    (Asked::Taker(0), Told::Taker(None)),
    (Asked::Taker(7), Told::Taker(None)),
    (Asked::OutlivedFrom(0), Told::Line(Some(1))),
    (Asked::OutlivedFrom(2), Told::Line(None)),
];

// Line 4 has one chunk and so 16 data addresses, and the three behind it have 40 each.
#[test]
fn lines_open_as_they_are_found(rt: HostRuntime) -> Result<(), Fail> {
    let mut bench = Bench::used(rt.alloc())?;
    for &(asked, told) in OPENED {
        assert_eq!(rt; ask(&mut bench, asked), told, "{asked:?}");
    }
    assert_eq!(rt; bench.free_addresses(), 136);
    assert_eq!(rt; bench.least_free(), Some(4));
    Ok(())
}
