//! How the Open chunks of a drive are padded.

use crate::harness::{Case, compare};
use image_crew::Step;
use ocssd_drive::CommandKind;
use std::test::Fail;

// A start record and a sector, each with the chunk of its unit Open behind it.
const ONE_SECTOR: [Step; 3] = [
    Step::First(0, 1),
    Step::One(0, 4, 5, 0),
    Step::Pads(0, 5, 3),
];

// Two lines with a stripe on each unit, and all four chunks Open.
const FOUR_CHUNKS: [Step; 4] = [
    Step::First(0, 1),
    Step::Sectors(0, 4, 4, 0, 0),
    Step::First(1, 2),
    Step::Sectors(1, 4, 4, 4, 4),
];

static CASES: [Case; 8] = [
    Case {
        steps: &[],
        fails: None,
        stops: None,
        told: &[
            "padded",
            "0 events",
            "0 events",
            "no head, front 0, end 0",
            "chunks ----------------",
            "events 0 0",
        ],
    },
    // From block 4 to 24 a chunk takes five programs.
    Case {
        steps: &ONE_SECTOR,
        fails: None,
        stops: None,
        told: &[
            "padded",
            "5 events, 0 closed 24 with 20 pads",
            "5 events, 0 closed 24 with 23 pads",
            "head 0, front 0, end 1",
            "sector 5 of position 0 at 0.4",
            "line 0 seq 1 bound 0 top 1 young",
            "chunks c-------c-------",
            "events 33 33",
        ],
    },
    // The drive stops at the first one, which lands two blocks of its four.
    Case {
        steps: &ONE_SECTOR,
        fails: None,
        stops: Some((0, 1, 1)),
        told: &[
            "drive 0 1",
            "1 events, 0 open 6 with 2 pads",
            "0 events, 0 open 4 with 3 pads",
        ],
    },
    // The next padding goes on at block 6, with a program to block 8 alone.
    Case {
        steps: &[
            Step::First(0, 1),
            Step::One(0, 4, 5, 0),
            Step::Pads(0, 5, 3),
            Step::Pads(0, 8, 2),
        ],
        fails: None,
        stops: Some((0, 2, 0)),
        told: &[
            "drive 0 2",
            "2 events, 0 open 8 with 4 pads",
            "0 events, 0 open 4 with 3 pads",
        ],
    },
    // It ends after five programs too.
    Case {
        steps: &[
            Step::First(0, 1),
            Step::One(0, 4, 5, 0),
            Step::Pads(0, 5, 3),
            Step::Pads(0, 8, 2),
        ],
        fails: None,
        stops: None,
        told: &[
            "padded",
            "5 events, 0 closed 24 with 20 pads",
            "5 events, 0 closed 24 with 23 pads",
            "head 0, front 0, end 1",
            "sector 5 of position 0 at 0.4",
            "line 0 seq 1 bound 0 top 1 young",
            "chunks c-------c-------",
            "events 33 33",
        ],
    },
    // A line is padded before the next one, and in it a unit before the next one.
    Case {
        steps: &FOUR_CHUNKS,
        fails: None,
        stops: Some((1, 1, 0)),
        told: &[
            "drive 1 1",
            "5 events, 0 closed 24 with 20 pads, 1 open 4 with 0 pads",
            "1 events, 0 open 4 with 0 pads, 1 open 4 with 0 pads",
        ],
    },
    Case {
        steps: &FOUR_CHUNKS,
        fails: None,
        stops: Some((0, 6, 0)),
        told: &[
            "drive 0 6",
            "6 events, 0 closed 24 with 20 pads, 1 open 4 with 0 pads",
            "5 events, 0 closed 24 with 20 pads, 1 open 4 with 0 pads",
        ],
    },
    // A program that fails leaves its chunk Closed, and the padding goes on.
    Case {
        steps: &ONE_SECTOR,
        fails: Some((0, CommandKind::Program, 2, 1)),
        stops: None,
        told: &[
            "padded",
            "2 events, 0 closed 10 with 6 pads",
            "5 events, 0 closed 24 with 23 pads",
            "head 0, front 0, end 1",
            "sector 5 of position 0 at 0.4",
            "line 0 seq 1 bound 0 top 1 young",
            "chunks c-------c-------",
            "events 16 33",
        ],
    },
];

#[test]
fn open_chunks_are_padded(rt: HostRuntime) -> Result<(), Fail> {
    compare(&rt, rt.alloc(), &CASES)?;
    Ok(())
}
