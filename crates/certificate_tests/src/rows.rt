//! Certificates that are right, and ones that aren't.

use crate::harness::{Case, certified, compare, refusals, swapped};
use image_crew::{Step, joined};
use std::test::Fail;

// One sector was written.
const ONE: &[Step] = &[
    Step::First(0, 1),
    Step::Tagged(0, 4, 1, 17, 5, 0),
    Step::Pads(0, 5, 3),
];

// Two lines are full, and the second has the same sectors as the first.
const FULL: &[Step] = &[
    Step::First(0, 1),
    Step::Tagged(0, 4, 40, 1, 0, 0),
    Step::End(0, 1, 0),
    Step::Start(1, 2, 1, 40, None),
    Step::Tagged(1, 4, 40, 2, 0, 40),
    Step::End(1, 2, 40),
];

const CASES: [Case; 14] = [
    Case {
        steps: ONE,
        lines: &[
            "head 0",
            "end 1",
            "line 0 1 0",
            "bear 0 0 4",
            "win 5 0 0 4",
            "live 0 1",
        ],
        told: "tidy yes",
    },
    // the block at address 5 is a Pad
    Case {
        steps: ONE,
        lines: &[
            "head 0",
            "end 1",
            "line 0 1 0",
            "bear 0 0 4",
            "win 5 0 0 5",
            "live 0 1",
        ],
        told: "check Winner 5",
    },
    Case {
        steps: ONE,
        lines: &[
            "head 0",
            "end 2",
            "line 0 1 0",
            "bear 0 0 4",
            "win 5 0 0 4",
            "live 0 1",
        ],
        told: "check Bearer 1",
    },
    Case {
        steps: ONE,
        lines: &["head 0", "end 0", "line 0 1 0", "win 5 0 0 4", "live 0 1"],
        told: "check End",
    },
    Case {
        steps: ONE,
        lines: &[
            "head 0",
            "end 1",
            "line 0 2 0",
            "bear 0 0 4",
            "win 5 0 0 4",
            "live 0 1",
        ],
        told: "check Line 0",
    },
    Case {
        steps: ONE,
        lines: &[
            "head none",
            "end 1",
            "line 0 1 0",
            "bear 0 0 4",
            "win 5 0 0 4",
            "live 0 1",
        ],
        told: "check Head",
    },
    Case {
        steps: ONE,
        lines: &[
            "head 0",
            "end 1",
            "line 0 1 0",
            "bear 0 0 5",
            "win 5 0 0 4",
            "live 0 1",
        ],
        told: "check Bearer 0",
    },
    Case {
        steps: ONE,
        lines: &["head 0", "end 1", "line 0 1 0", "bear 0 0 4", "live 0 1"],
        told: "check Winner 5",
    },
    Case {
        steps: ONE,
        lines: &[
            "head 0",
            "end 1",
            "line 0 1 0",
            "bear 0 0 4",
            "win 5 0 0 4",
            "live 0 2",
        ],
        told: "check Live 0",
    },
    Case {
        steps: ONE,
        lines: &["head 0", "end 1", "line 0 1 0", "bear 0 0 4", "win 5 0 0 4"],
        told: "check Live 0",
    },
    // of another image
    Case {
        steps: FULL,
        lines: &[
            "head 0",
            "end 1",
            "line 0 1 0",
            "bear 0 0 4",
            "win 5 0 0 4",
            "live 0 1",
        ],
        told: "check Line 0",
    },
    Case {
        steps: &[],
        lines: &["head none", "end 0"],
        told: "tidy yes",
    },
    Case {
        steps: &[],
        lines: &["head none"],
        told: "certificate Form 2",
    },
    Case {
        steps: ONE,
        lines: &[
            "head 0",
            "end 1",
            "line 0 1 0",
            "bear 0 0 4",
            "win 5 00 0 4",
        ],
        told: "certificate Form 5",
    },
];

#[test]
fn certificates_are_checked(rt: HostRuntime) -> Result<(), Fail> {
    compare(&rt, rt.alloc(), &CASES)?;
    Ok(())
}

#[test]
fn a_certificate_is_made(rt: HostRuntime) -> Result<(), Fail> {
    let wanted = joined(
        rt.alloc(),
        &[
            "head 0",
            "end 1",
            "line 0 1 0",
            "bear 0 0 4",
            "win 5 0 0 4",
            "live 0 1",
        ],
    )?;
    let text = certified(rt.alloc(), ONE)?;
    assert_eq!(rt; text.as_str(), wanted.as_str());
    assert_eq!(rt; text.len(), 56);
    Ok(())
}

// Cut within a line, a text is refused by that line. Cut behind a line it is one, from the second
// line on.
#[test]
fn cut_texts_are_refused_by_their_last_line(rt: HostRuntime) -> Result<(), Fail> {
    let text = certified(rt.alloc(), ONE)?;
    let bytes = text.as_bytes();
    let told = refusals(rt.alloc(), bytes)?;
    let mut lines: u32 = 1;
    let mut ended = true;
    for (count, told) in told.iter().enumerate() {
        let wanted = if ended && lines >= 3 { 0 } else { lines };
        assert_eq!(rt; (count, *told), (count, wanted));
        ended = bytes.get(count) == Some(&b'\n');
        if ended {
            lines = lines.wrapping_add(1);
        }
    }
    Ok(())
}

// Two lines are full, and a third was begun by a later mount, which knows how far the second's
// records count.
const LATER: &[Step] = &[
    Step::First(0, 1),
    Step::Tagged(0, 4, 40, 1, 0, 0),
    Step::End(0, 1, 0),
    Step::Start(1, 2, 1, 40, None),
    Step::Tagged(1, 4, 8, 2, 0, 40),
    Step::Start(2, 3, 3, 44, Some((1, 2, 44))),
    Step::Tagged(2, 4, 1, 3, 9, 44),
    Step::Pads(2, 5, 3),
];

const LATER_LINES: [&str; 14] = [
    "head 2",
    "end 45",
    "line 0 1 1",
    "line 1 2 0",
    "line 2 3 0",
    "bear 44 2 4",
    "win 0 40 1 4",
    "win 1 41 1 5",
    "win 2 42 1 6",
    "win 3 43 1 7",
    "win 9 44 2 4",
    "live 0 0",
    "live 1 4",
    "live 2 1",
];

// Records of a mount before the head's count only where a row of the head bounds them.
#[test]
fn older_records_count_by_the_rows_alone(rt: HostRuntime) -> Result<(), Fail> {
    let wanted = joined(rt.alloc(), &LATER_LINES)?;
    let text = certified(rt.alloc(), LATER)?;
    assert_eq!(rt; text.as_str(), wanted.as_str());
    Ok(())
}

// Each line in turn says something else, which is refused by its name.
const WRONG: [(&str, &str, &str); 22] = [
    ("head 2", "head 1", "check Head"),
    ("head 2", "head none", "check Head"),
    ("end 45", "end 44", "check Bearer 44"),
    ("end 45", "end 46", "check Bearer 45"),
    ("end 45", "end 0", "check Bearer 44"),
    ("line 0 1 1", "line 0 1 0", "check Line 0"),
    ("line 1 2 0", "line 1 2 1", "check Line 1"),
    ("line 2 3 0", "line 2 4 0", "check Line 2"),
    ("line 2 3 0", "line 3 3 0", "check Line 2"),
    ("bear 44 2 4", "bear 44 2 5", "check Bearer 44"),
    ("bear 44 2 4", "bear 44 1 4", "check Bearer 44"),
    ("bear 44 2 4", "bear 43 1 7", "check Bearer 43"),
    ("bear 44 2 4", "bear 45 2 4", "check Bearer 44"),
    // the record is there, but it is older
    ("win 0 40 1 4", "win 0 0 0 4", "check Winner 0"),
    // the record is newer, but it is past the row's bound
    ("win 3 43 1 7", "win 4 44 1 8", "check Winner 3"),
    ("win 3 43 1 7", "win 3 43 1 8", "check Winner 3"),
    ("win 9 44 2 4", "win 9 44 2 5", "check Winner 9"),
    ("win 9 44 2 4", "win 63 44 2 4", "check Winner 9"),
    ("live 0 0", "live 0 1", "check Live 0"),
    ("live 1 4", "live 1 3", "check Live 1"),
    ("live 2 1", "live 3 1", "check Live 2"),
    ("live 2 1", "live 2 01", "certificate Form 14"),
];

#[test]
fn each_wrong_line_is_refused_by_its_name(rt: HostRuntime) -> Result<(), Fail> {
    for (line, other, told) in &WRONG {
        let found = swapped(rt.alloc(), LATER, &LATER_LINES, line, other)?;
        assert_eq!(rt; (*other, found.as_str()), (*other, *told));
    }
    Ok(())
}

// A line that is left out is missed, and is told so.
const MISSING: [(&str, &str); 14] = [
    ("head 2", "certificate Form 1"),
    ("end 45", "certificate Form 2"),
    ("line 0 1 1", "check Line 0"),
    ("line 1 2 0", "check Line 1"),
    ("line 2 3 0", "check Line 2"),
    ("bear 44 2 4", "check Bearer 44"),
    ("win 0 40 1 4", "check Winner 0"),
    ("win 1 41 1 5", "check Winner 1"),
    ("win 2 42 1 6", "check Winner 2"),
    ("win 3 43 1 7", "check Winner 3"),
    ("win 9 44 2 4", "check Winner 9"),
    ("live 0 0", "check Live 0"),
    ("live 1 4", "check Live 1"),
    ("live 2 1", "check Live 2"),
];

#[test]
fn each_missing_line_is_missed(rt: HostRuntime) -> Result<(), Fail> {
    for (line, told) in &MISSING {
        let found = swapped(rt.alloc(), LATER, &LATER_LINES, line, "")?;
        assert_eq!(rt; (*line, found.as_str()), (*line, *told));
    }
    Ok(())
}
