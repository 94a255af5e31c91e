//! What a scan finds on a drive.

use crate::harness::{Case, compare};
use image_crew::Step;
use ocssd_drive::{ChunkState, CommandKind};
use pblk_model::Mark;
use std::test::Fail;

// A start record and a stripe on the same unit, whose positions leave out the first four.
const HOLE: [Step; 2] = [Step::First(0, 1), Step::Sectors(0, 8, 4, 4, 4)];

static IMAGES: [Case; 10] = [
    Case {
        steps: &HOLE,
        fails: None,
        stops: None,
        told: &[
            "padded",
            "4 events, 0 closed 24 with 16 pads",
            "0 events",
            "head 0, front 0, end 0",
            "line 0 seq 1 bound 0 top 0 young",
            "chunks c---------------",
            "events 32 0",
        ],
    },
    // The hole is written over by a mount that bounds the old line at 0.
    Case {
        steps: &[
            Step::First(0, 1),
            Step::Sectors(0, 8, 4, 4, 4),
            Step::Start(1, 2, 2, 0, Some((0, 1, 0))),
            Step::Sectors(1, 4, 4, 10, 0),
        ],
        fails: None,
        stops: None,
        told: &[
            "padded",
            "9 events, 0 closed 24 with 16 pads, 1 closed 24 with 20 pads",
            "5 events, 1 closed 24 with 20 pads",
            "head 1, front 0, end 4",
            "sector 10 of position 0 at 1.4 to sector 13",
            "line 0 seq 1 bound 0 top 0",
            "line 1 seq 2 bound 0 top 4 young",
            "chunks cc-------c------",
            "events 65 33",
        ],
    },
    // Two full lines, and what is left where a chunk of the older one was reset.
    Case {
        steps: &[
            Step::Start(0, 1, 1, 0, None),
            Step::Sectors(0, 4, 40, 0, 0),
            Step::End(0, 1, 0),
            Step::Start(1, 2, 1, 40, None),
            Step::Sectors(1, 4, 40, 0, 40),
            Step::End(1, 2, 40),
        ],
        fails: None,
        stops: None,
        told: &[
            "padded",
            "0 events, 0 closed 24 with 0 pads, 1 closed 24 with 0 pads",
            "0 events, 0 closed 24 with 0 pads, 1 closed 24 with 0 pads",
            "head 1, front 40, end 80",
            "sector 0 of position 40 at 1.4 to sector 39",
            "line 0 seq 1 bound 0 top 40 full young",
            "line 1 seq 2 bound 0 top 80 full young",
            "chunks cc------cc------",
            "events 8 8",
        ],
    },
    Case {
        steps: &[
            Step::Start(0, 1, 1, 0, None),
            Step::Sectors(0, 4, 40, 0, 0),
            Step::End(0, 1, 0),
            Step::Start(1, 2, 1, 40, None),
            Step::Sectors(1, 4, 40, 0, 40),
            Step::End(1, 2, 40),
            Step::Clear(0, 0, ChunkState::Free),
        ],
        fails: None,
        stops: None,
        told: &[
            "padded",
            "0 events, 1 closed 24 with 0 pads",
            "0 events, 0 closed 24 with 0 pads, 1 closed 24 with 0 pads",
            "head 1, front 40, end 80",
            "sector 0 of position 40 at 1.4 to sector 39",
            "line 1 seq 2 bound 0 top 80 full young",
            "stray 0",
            "chunks -c------cc------",
            "events 4 4",
        ],
    },
    // A fetch that fails ends the scan; the unit's four programs count before it.
    Case {
        steps: &HOLE,
        fails: Some((0, CommandKind::Fetch, 3, 0)),
        stops: None,
        told: &[
            "padded",
            "4 events, 0 closed 24 with 16 pads",
            "0 events",
            "drive 0 7",
        ],
    },
    // An end record speaks for written blocks alone: stripes 6, 8 and 10 of the line are missing.
    Case {
        steps: &[
            Step::First(0, 1),
            Step::Pads(0, 4, 20),
            Step::Pads(0, 28, 4),
            Step::Pads(0, 36, 4),
            Step::End(0, 1, 0),
            Step::Close(0, 0),
        ],
        fails: None,
        stops: None,
        told: &[
            "padded",
            "0 events, 0 closed 12 with 8 pads",
            "0 events, 0 closed 24 with 20 pads",
            "head 0, front 0, end 20",
            "sector 0 of position 0 at 0.4 to sector 19",
            "line 0 seq 1 bound 0 top 20 full young",
            "chunks c-------c-------",
            "events 4 4",
        ],
    },
    // So does one behind a full line: of the newer line's stripes those at 24, 32 and 40 are
    // missing.
    Case {
        steps: &[
            Step::Start(0, 1, 1, 0, None),
            Step::Sectors(0, 4, 40, 0, 0),
            Step::End(0, 1, 0),
            Step::Start(1, 2, 1, 40, None),
            Step::Sectors(1, 4, 20, 0, 40),
            Step::Sectors(1, 28, 4, 24, 64),
            Step::Sectors(1, 36, 4, 32, 72),
            Step::End(1, 2, 40),
            Step::Close(0, 1),
        ],
        fails: None,
        stops: None,
        told: &[
            "padded",
            "0 events, 0 closed 24 with 0 pads, 1 closed 12 with 0 pads",
            "0 events, 0 closed 24 with 0 pads, 1 closed 24 with 0 pads",
            "head 1, front 40, end 60",
            "sector 0 of position 40 at 1.4 to sector 19",
            "sector 20 of position 20 at 0.24 to sector 39",
            "line 0 seq 1 bound 0 top 40 full young",
            "line 1 seq 2 bound 0 top 60 full young",
            "chunks cc------cc------",
            "events 8 8",
        ],
    },
    // A position that was given up is no gap, and a sector that there isn't bears no position.
    Case {
        steps: &[
            Step::First(0, 1),
            Step::One(0, 4, 6, 0),
            Step::One(0, 5, Mark::VOID_LBA, 1),
            Step::One(0, 6, 7, 2),
            Step::One(0, 7, 64, 3),
        ],
        fails: None,
        stops: None,
        told: &[
            "padded",
            "5 events, 0 closed 24 with 20 pads",
            "5 events, 0 closed 24 with 20 pads",
            "head 0, front 0, end 3",
            "sector 6 of position 0 at 0.4",
            "sector 7 of position 2 at 0.6",
            "line 0 seq 1 bound 0 top 3 young",
            "chunks c-------c-------",
            "events 33 33",
        ],
    },
    // A line of one chunk: of its 24 blocks 4 are start record, 16 data and 4 end record.
    Case {
        steps: &[
            Step::Clear(1, 2, ChunkState::Offline),
            Step::First(2, 1),
            Step::Sectors(2, 4, 16, 0, 0),
            Step::End(2, 1, 0),
        ],
        fails: None,
        stops: None,
        told: &[
            "padded",
            "0 events, 2 closed 24 with 0 pads",
            "0 events, 2 offline",
            "head 2, front 0, end 16",
            "sector 0 of position 0 at 2.4 to sector 15",
            "line 2 seq 1 bound 0 top 16 full young",
            "chunks --c-------x-----",
            "events 8 0",
        ],
    },
    // A line that lost a chunk has no whole start record any more. One with Pads alone has none
    // either.
    Case {
        steps: &[
            Step::Start(0, 1, 1, 0, None),
            Step::Sectors(0, 4, 40, 0, 0),
            Step::End(0, 1, 0),
            Step::Pads(6, 4, 2),
            Step::Clear(1, 0, ChunkState::Offline),
        ],
        fails: None,
        stops: None,
        told: &[
            "padded",
            "0 events, 0 closed 24 with 0 pads",
            "6 events, 0 offline, 6 closed 24 with 24 pads",
            "no head, front 0, end 0",
            "stray 0",
            "stray 6",
            "chunks c-------x-----c-",
            "events 4 6",
        ],
    },
];

// The newest record of a sector: by position, then by sequence number, then by line address, and of
// two that are alike in these that of the lesser line.
static NEWEST: [Case; 7] = [
    // A later position in an older line.
    Case {
        steps: &[
            Step::First(0, 1),
            Step::One(0, 4, 4, 0),
            Step::One(0, 5, 3, 2),
            Step::Close(0, 0),
            Step::Close(1, 0),
            Step::First(1, 2),
            Step::One(1, 4, 3, 1),
            Step::One(1, 5, 5, 3),
            Step::Close(0, 1),
            Step::Close(1, 1),
        ],
        fails: None,
        stops: None,
        told: &[
            "padded",
            "0 events, 0 closed 4 with 0 pads, 1 closed 4 with 0 pads",
            "0 events, 0 closed 2 with 0 pads, 1 closed 2 with 0 pads",
            "head 1, front 0, end 4",
            "sector 3 of position 2 at 0.5",
            "sector 4 of position 0 at 0.4",
            "sector 5 of position 3 at 1.5",
            "line 0 seq 1 bound 0 top 3 young",
            "line 1 seq 2 bound 0 top 4 young",
            "chunks cc------cc------",
            "events 16 4",
        ],
    },
    // Of one position the later sequence number, in either line.
    Case {
        steps: &[
            Step::First(0, 1),
            Step::One(0, 4, 3, 0),
            Step::One(0, 5, 4, 1),
            Step::Close(0, 0),
            Step::Close(1, 0),
            Step::First(1, 2),
            Step::One(1, 4, 3, 0),
            Step::One(1, 5, 5, 2),
            Step::Close(0, 1),
            Step::Close(1, 1),
        ],
        fails: None,
        stops: None,
        told: &[
            "padded",
            "0 events, 0 closed 4 with 0 pads, 1 closed 4 with 0 pads",
            "0 events, 0 closed 2 with 0 pads, 1 closed 2 with 0 pads",
            "head 1, front 0, end 3",
            "sector 3 of position 0 at 1.4",
            "sector 4 of position 1 at 0.5",
            "sector 5 of position 2 at 1.5",
            "line 0 seq 1 bound 0 top 2 young",
            "line 1 seq 2 bound 0 top 3 young",
            "chunks cc------cc------",
            "events 16 4",
        ],
    },
    Case {
        steps: &[
            Step::First(0, 2),
            Step::One(0, 4, 3, 0),
            Step::One(0, 5, 4, 1),
            Step::Close(0, 0),
            Step::Close(1, 0),
            Step::First(1, 1),
            Step::One(1, 4, 5, 2),
            Step::One(1, 5, 3, 0),
            Step::Close(0, 1),
            Step::Close(1, 1),
        ],
        fails: None,
        stops: None,
        told: &[
            "padded",
            "0 events, 0 closed 4 with 0 pads, 1 closed 4 with 0 pads",
            "0 events, 0 closed 2 with 0 pads, 1 closed 2 with 0 pads",
            "head 0, front 0, end 3",
            "sector 3 of position 0 at 0.4 to sector 4",
            "sector 5 of position 2 at 1.4",
            "line 0 seq 2 bound 0 top 2 young",
            "line 1 seq 1 bound 0 top 3 young",
            "chunks cc------cc------",
            "events 16 4",
        ],
    },
    // Of one sequence number too the later line address, in one line and in two.
    Case {
        steps: &[
            Step::First(0, 1),
            Step::One(0, 4, 3, 0),
            Step::One(0, 5, 3, 0),
            Step::Close(0, 0),
            Step::Close(1, 0),
        ],
        fails: None,
        stops: None,
        told: &[
            "padded",
            "0 events, 0 closed 4 with 0 pads",
            "0 events, 0 closed 2 with 0 pads",
            "head 0, front 0, end 1",
            "sector 3 of position 0 at 0.5",
            "line 0 seq 1 bound 0 top 1 young",
            "chunks c-------c-------",
            "events 8 2",
        ],
    },
    Case {
        steps: &[
            Step::First(0, 1),
            Step::One(0, 4, 3, 0),
            Step::One(0, 5, 4, 1),
            Step::Close(0, 0),
            Step::Close(1, 0),
            Step::First(1, 1),
            Step::One(1, 4, 5, 2),
            Step::One(1, 5, 3, 0),
            Step::Close(0, 1),
            Step::Close(1, 1),
        ],
        fails: None,
        stops: None,
        told: &[
            "padded",
            "0 events, 0 closed 4 with 0 pads, 1 closed 4 with 0 pads",
            "0 events, 0 closed 2 with 0 pads, 1 closed 2 with 0 pads",
            "head 0, front 0, end 3",
            "sector 3 of position 0 at 1.5",
            "sector 4 of position 1 at 0.5",
            "sector 5 of position 2 at 1.4",
            "line 0 seq 1 bound 0 top 2 young",
            "line 1 seq 1 bound 0 top 3 young",
            "chunks cc------cc------",
            "events 16 4",
        ],
    },
    // Of one line address too the lesser line.
    Case {
        steps: &[
            Step::First(0, 1),
            Step::One(0, 4, 3, 0),
            Step::One(0, 5, 4, 1),
            Step::Close(0, 0),
            Step::Close(1, 0),
            Step::First(1, 1),
            Step::One(1, 4, 3, 0),
            Step::One(1, 5, 5, 2),
            Step::Close(0, 1),
            Step::Close(1, 1),
        ],
        fails: None,
        stops: None,
        told: &[
            "padded",
            "0 events, 0 closed 4 with 0 pads, 1 closed 4 with 0 pads",
            "0 events, 0 closed 2 with 0 pads, 1 closed 2 with 0 pads",
            "head 0, front 0, end 3",
            "sector 3 of position 0 at 0.4 to sector 4",
            "sector 5 of position 2 at 1.5",
            "line 0 seq 1 bound 0 top 2 young",
            "line 1 seq 1 bound 0 top 3 young",
            "chunks cc------cc------",
            "events 16 4",
        ],
    },
    // The end record gives the marks of its blocks, and they are weighed as they are.
    Case {
        steps: &[
            Step::First(0, 1),
            Step::Sectors(0, 4, 40, 0, 7),
            Step::End(0, 1, 0),
            Step::First(1, 2),
            Step::One(1, 4, 3, 3),
            Step::One(1, 5, 4, 3),
            Step::Close(0, 1),
            Step::Close(1, 1),
        ],
        fails: None,
        stops: None,
        told: &[
            "padded",
            "0 events, 0 closed 24 with 0 pads, 1 closed 4 with 0 pads",
            "0 events, 0 closed 24 with 0 pads, 1 closed 2 with 0 pads",
            "head 1, front 0, end 40",
            "sector 0 of position 0 at 0.4 to sector 2",
            "sector 3 of position 3 at 1.4",
            "sector 4 of position 4 at 0.8 to sector 39",
            "line 0 seq 1 bound 0 top 40 full young",
            "line 1 seq 2 bound 0 top 4 young",
            "chunks cc------cc------",
            "events 12 6",
        ],
    },
];

// An older line counts below the bound of the head's row that has its own sequence number.
static BOUNDS: [Case; 3] = [
    Case {
        steps: &[
            Step::First(0, 1),
            Step::One(0, 4, 5, 0),
            Step::Pads(0, 5, 3),
            Step::Start(1, 3, 3, 1, Some((0, 1, 1))),
            Step::One(1, 4, 6, 1),
            Step::Pads(1, 5, 3),
        ],
        fails: None,
        stops: None,
        told: &[
            "padded",
            "10 events, 0 closed 24 with 20 pads, 1 closed 24 with 20 pads",
            "10 events, 0 closed 24 with 23 pads, 1 closed 24 with 23 pads",
            "head 1, front 1, end 2",
            "sector 5 of position 0 at 0.4",
            "sector 6 of position 1 at 1.4",
            "line 0 seq 1 bound 1 top 1",
            "line 1 seq 3 bound 0 top 2 young",
            "chunks cc------cc------",
            "events 66 66",
        ],
    },
    Case {
        steps: &[
            Step::First(0, 1),
            Step::One(0, 4, 5, 0),
            Step::Pads(0, 5, 3),
            Step::Start(1, 3, 3, 1, Some((0, 1, 0))),
            Step::One(1, 4, 6, 1),
            Step::Pads(1, 5, 3),
        ],
        fails: None,
        stops: None,
        told: &[
            "padded",
            "10 events, 0 closed 24 with 20 pads, 1 closed 24 with 20 pads",
            "10 events, 0 closed 24 with 23 pads, 1 closed 24 with 23 pads",
            "head 1, front 1, end 2",
            "sector 6 of position 1 at 1.4",
            "line 0 seq 1 bound 0 top 0",
            "line 1 seq 3 bound 0 top 2 young",
            "chunks cc------cc------",
            "events 66 66",
        ],
    },
    Case {
        steps: &[
            Step::First(0, 1),
            Step::One(0, 4, 5, 0),
            Step::Pads(0, 5, 3),
            Step::Start(1, 3, 3, 1, Some((0, 2, 1))),
            Step::One(1, 4, 6, 1),
            Step::Pads(1, 5, 3),
        ],
        fails: None,
        stops: None,
        told: &[
            "padded",
            "10 events, 0 closed 24 with 20 pads, 1 closed 24 with 20 pads",
            "10 events, 0 closed 24 with 23 pads, 1 closed 24 with 23 pads",
            "head 1, front 1, end 2",
            "sector 6 of position 1 at 1.4",
            "line 0 seq 1 bound 0 top 0",
            "line 1 seq 3 bound 0 top 2 young",
            "chunks cc------cc------",
            "events 66 66",
        ],
    },
];

#[test]
fn images_are_scanned(rt: HostRuntime) -> Result<(), Fail> {
    compare(&rt, rt.alloc(), &IMAGES)?;
    Ok(())
}

#[test]
fn the_newest_record_wins(rt: HostRuntime) -> Result<(), Fail> {
    compare(&rt, rt.alloc(), &NEWEST)?;
    Ok(())
}

#[test]
fn an_older_line_has_its_bound(rt: HostRuntime) -> Result<(), Fail> {
    compare(&rt, rt.alloc(), &BOUNDS)?;
    Ok(())
}
