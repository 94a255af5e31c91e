//! What images hold, but for their sectors.

use image_crew::{Step, restored};
use pblk_model::Mark;
use scan_recovery::{Head, Summary, contents, summary};
use std::test::Fail;

const BLANK: Summary = Summary {
    end: 0,
    counted: 0,
    live: 0,
    head: None,
};

// Images, and what they hold.
static ROWS: [(&[Step], Summary); 5] = [
    (&[], BLANK),
    // Two full lines, of which the second writes all sectors of the first again.
    (
        &[
            Step::First(0, 1),
            Step::Sectors(0, 4, 40, 0, 0),
            Step::End(0, 1, 0),
            Step::Start(1, 2, 1, 40, None),
            Step::Sectors(1, 4, 40, 0, 40),
            Step::End(1, 2, 40),
        ],
        Summary {
            end: 80,
            counted: 80,
            live: 40,
            head: Some(Head { line: 1, seq: 2 }),
        },
    ),
    // The first four positions are missing.
    (
        &[Step::First(0, 1), Step::Sectors(0, 8, 4, 4, 4)],
        Summary {
            head: Some(Head { line: 0, seq: 1 }),
            ..BLANK
        },
    ),
    // The next mount writes over them, and bounds the old line at 0.
    (
        &[
            Step::First(0, 1),
            Step::Sectors(0, 8, 4, 4, 4),
            Step::Start(1, 2, 2, 0, Some((0, 1, 0))),
            Step::Sectors(1, 4, 4, 10, 0),
        ],
        Summary {
            end: 4,
            counted: 4,
            live: 4,
            head: Some(Head { line: 1, seq: 2 }),
        },
    ),
    // A position that was given up bears no sector, and a sector that there isn't bears no
    // position.
    (
        &[
            Step::First(0, 1),
            Step::One(0, 4, 6, 0),
            Step::One(0, 5, Mark::VOID_LBA, 1),
            Step::One(0, 6, 7, 2),
            Step::One(0, 7, 64, 3),
        ],
        Summary {
            end: 3,
            counted: 2,
            live: 2,
            head: Some(Head { line: 0, seq: 1 }),
        },
    ),
];

#[test]
fn images_are_summed_up(rt: HostRuntime) -> Result<(), Fail> {
    for (steps, wanted) in &ROWS {
        let drive = restored(rt.alloc(), steps)?;
        assert_eq!(rt; summary(rt.alloc(), &drive)?, *wanted);
        assert_eq!(rt; contents(rt.alloc(), &drive)?.end, wanted.end);
    }
    Ok(())
}
