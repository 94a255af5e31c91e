//! What images hold that were written by hand.

use crate::recovery::harness::{Held, tag_of, told};
use image_crew::{Step, Units, made, sector};
use pblk_model::{ChunkState, Mark};
use std::alloc::{AllocError, Global};
use std::test::Fail;

// An image, what its sectors hold, and its end.
#[derive(Clone, Copy)]
struct Case<'a> {
    name: &'a str,
    steps: &'a [Step],
    held: Held,
    end: u64,
}

const NOTHING: Held = Held {
    first: 0,
    count: 0,
    tag: 0,
    step: 0,
};

// Two full lines, one after the other: sectors 0 to 39 of one tag, and then again of another.
const TWO_FULL: [Step; 6] = [
    Step::First(0, 1),
    Step::Tagged(0, 4, 40, 1, 0, 0),
    Step::End(0, 1, 0),
    Step::Start(1, 2, 1, 40, None),
    Step::Tagged(1, 4, 40, 2, 0, 40),
    Step::End(1, 2, 40),
];

static CASES: [Case; 14] = [
    Case {
        name: "blank",
        steps: &[Step::Pads(0, 0, 0)],
        held: NOTHING,
        end: 0,
    },
    Case {
        name: "one sector",
        steps: &[
            Step::First(0, 1),
            Step::Tagged(0, 4, 1, 17, 5, 0),
            Step::Pads(0, 5, 3),
        ],
        held: Held {
            first: 5,
            count: 1,
            tag: 17,
            step: 0,
        },
        end: 1,
    },
    Case {
        name: "a hole",
        steps: &[Step::First(0, 1), Step::Tagged(0, 8, 4, 9, 4, 4)],
        held: NOTHING,
        end: 0,
    },
    Case {
        name: "a hole written over",
        steps: &[
            Step::First(0, 1),
            Step::Tagged(0, 8, 4, 9, 4, 4),
            Step::Start(1, 2, 2, 0, Some((0, 1, 0))),
            Step::Tagged(1, 4, 4, 5, 10, 0),
        ],
        held: Held {
            first: 10,
            count: 4,
            tag: 5,
            step: 0,
        },
        end: 4,
    },
    Case {
        name: "a cut stripe",
        steps: &[Step::First(0, 1), Step::Tagged(0, 4, 2, 9, 0, 0)],
        held: Held {
            first: 0,
            count: 2,
            tag: 9,
            step: 0,
        },
        end: 2,
    },
    Case {
        name: "a position given up, and a sector that there isn't",
        steps: &[
            Step::First(0, 1),
            Step::Tagged(0, 4, 1, 3, 6, 0),
            Step::Tagged(0, 5, 1, 4, Mark::VOID_LBA, 1),
            Step::Tagged(0, 6, 1, 5, 7, 2),
            Step::Tagged(0, 7, 1, 6, 64, 3),
        ],
        held: Held {
            first: 6,
            count: 2,
            tag: 3,
            step: 2,
        },
        end: 3,
    },
    // The end record gives the marks, and not the blocks; and stripes 6, 8 and 10 of the line
    // are not written.
    Case {
        name: "a full line cut short",
        steps: &[
            Step::First(0, 1),
            Step::TaggedPads(0, 4, 20, 100),
            Step::TaggedPads(0, 28, 4, 124),
            Step::TaggedPads(0, 36, 4, 132),
            Step::End(0, 1, 0),
        ],
        held: Held {
            first: 0,
            count: 20,
            tag: 100,
            step: 1,
        },
        end: 20,
    },
    Case {
        name: "two full lines",
        steps: &TWO_FULL,
        held: Held {
            first: 0,
            count: 40,
            tag: 2,
            step: 0,
        },
        end: 80,
    },
    Case {
        name: "a chunk freed",
        steps: &[
            Step::First(0, 1),
            Step::Tagged(0, 4, 40, 1, 0, 0),
            Step::End(0, 1, 0),
            Step::Start(1, 2, 1, 40, None),
            Step::Tagged(1, 4, 40, 2, 0, 40),
            Step::End(1, 2, 40),
            Step::Clear(0, 0, ChunkState::Free),
        ],
        held: Held {
            first: 0,
            count: 40,
            tag: 2,
            step: 0,
        },
        end: 80,
    },
    // Two lines of one mount hold sector 3 at position 0: the greater sequence number wins, and
    // then the lesser line.
    Case {
        name: "a tie that the greater line wins",
        steps: &[
            Step::First(0, 1),
            Step::Tagged(0, 4, 1, 7, 3, 0),
            Step::First(1, 2),
            Step::Tagged(1, 4, 1, 8, 3, 0),
        ],
        held: Held {
            first: 3,
            count: 1,
            tag: 8,
            step: 0,
        },
        end: 1,
    },
    Case {
        name: "a tie that the lesser line wins",
        steps: &[
            Step::First(0, 2),
            Step::Tagged(0, 4, 1, 7, 3, 0),
            Step::First(1, 1),
            Step::Tagged(1, 4, 1, 8, 3, 0),
        ],
        held: Held {
            first: 3,
            count: 1,
            tag: 7,
            step: 0,
        },
        end: 1,
    },
    Case {
        name: "a tie of one sequence number",
        steps: &[
            Step::First(0, 1),
            Step::Tagged(0, 4, 1, 7, 3, 0),
            Step::First(1, 1),
            Step::Tagged(1, 4, 1, 8, 3, 0),
        ],
        held: Held {
            first: 3,
            count: 1,
            tag: 7,
            step: 0,
        },
        end: 1,
    },
    // A line of an older mount has sector 5 at position 0, and the head's line sector 6 at
    // position 1.
    Case {
        name: "an older line's position below its bound",
        steps: &[
            Step::First(0, 1),
            Step::Tagged(0, 4, 1, 9, 5, 0),
            Step::Start(1, 2, 2, 1, Some((0, 1, 1))),
            Step::Tagged(1, 4, 1, 9, 6, 1),
        ],
        held: Held {
            first: 5,
            count: 2,
            tag: 9,
            step: 0,
        },
        end: 2,
    },
    Case {
        name: "an older line's position at its bound",
        steps: &[
            Step::First(0, 1),
            Step::Tagged(0, 4, 1, 9, 5, 0),
            Step::Start(1, 2, 2, 1, Some((0, 1, 0))),
            Step::Tagged(1, 4, 1, 9, 6, 1),
        ],
        held: Held {
            first: 6,
            count: 1,
            tag: 9,
            step: 0,
        },
        end: 2,
    },
];

// The last sector that doesn't hold what it should, if any.
fn wrong_sector(
    alloc: Global,
    sectors: &[Vec<u8>],
    held: Held,
) -> Result<Option<usize>, AllocError> {
    let mut wrong = None;
    for (lba, there) in sectors.iter().enumerate() {
        let wanted = sector(alloc, tag_of(held, lba as u64))?;
        if there.as_slice() != wanted.as_slice() {
            wrong = Some(lba);
        }
    }
    Ok(wrong)
}

// How many sectors an image has, which of them is wrong, and its end.
fn judged(alloc: Global, case: &Case) -> Result<(usize, Option<usize>, u64), AllocError> {
    let Some((sectors, end)) = told(alloc, made(alloc, case.steps)?)? else {
        return Ok((0, None, 0));
    };
    let wrong = wrong_sector(alloc, &sectors, case.held)?;
    Ok((sectors.len(), wrong, end))
}

#[test]
fn images_hold_their_sectors(rt: HostRuntime) -> Result<(), Fail> {
    for case in &CASES {
        assert_eq!(rt;
            (case.name, judged(rt.alloc(), case)?),
            (case.name, (64, None, case.end))
        );
    }
    Ok(())
}

/// Two full lines, one after the other.
pub fn two_full(alloc: Global) -> Result<Units, AllocError> {
    made(alloc, &TWO_FULL)
}
