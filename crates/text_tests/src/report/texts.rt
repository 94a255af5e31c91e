//! The transcripts of runs.

use crate::report::harness::{Row, Run, told};
use run_threads::{Trouble, Word};
use std::test::Fail;

// Scripts, the answers of their threads, and the transcripts, where the device was opened and
// closed without trouble, and all below position 100 is kept.
const TOLD: &[(&str, &[&[Row]], &str)] = &[
    ("", &[], "kept 0\n"),
    ("thread\n", &[&[]], "kept 0\n"),
    (
        "thread\nw 5 1 17\nr 5 1\n",
        &[&[Row::Placed(0, 1), Row::Words(1, &[Word::Tag(17)])]],
        "h 0 0 5 17\nr 0 1 1 17\nkept 1\n",
    ),
    (
        "thread\nw 5 1 17\nr 5 1\nf\n",
        &[&[
            Row::Placed(0, 1),
            Row::Words(1, &[Word::Tag(17)]),
            Row::Synced(1),
        ]],
        "h 0 0 5 17\nr 0 1 1 17\nf 0 2 1\nkept 1\n",
    ),
    (
        "thread\nr 9 2\n",
        &[&[Row::Words(0, &[Word::Tag(0), Word::Tag(0)])]],
        "r 0 0 0 0 0\nkept 0\n",
    ),
    (
        "thread\nw 3 1 7\nw 3 1 8\nr 3 1\n",
        &[&[
            Row::Placed(0, 1),
            Row::Placed(1, 1),
            Row::Words(2, &[Word::Tag(8)]),
        ]],
        "h 0 0 3 7\nh 1 0 3 8\nr 0 2 2 8\nkept 2\n",
    ),
    // Commands that weren't made are no lines of the history.
    (
        "thread\nw 0 1 1\nw 1 2 2\nr 0 1\nf\nw 1 2 3\nf\n",
        &[&[
            Row::Worn(12, 8),
            Row::Drive(1, 9),
            Row::Drive(0, 3),
            Row::Worn(5, 4),
            Row::Placed(7, 2),
            Row::Drive(4294967295, 18446744073709551615),
        ]],
        "h 0 0 1 3\nh 1 0 2 3\nworn 0 0 12 8\ne 0 1 1 9\ne 0 2 0 3\nworn 0 3 5 4\ne 0 5 4294967295 18446744073709551615\nkept 2\n",
    ),
    // Threads whose writes interleave by position, and a post.
    (
        "thread\nw 0 2 1\nw 4 1 2\npost a\nthread\nw 8 2 3\nawait a\nr 3 2\n",
        &[
            &[Row::Placed(0, 2), Row::Placed(5, 1), Row::Done],
            &[
                Row::Placed(3, 2),
                Row::Done,
                Row::Words(5, &[Word::Mixed, Word::Tag(2)]),
            ],
        ],
        "h 0 0 0 1\nh 1 0 1 1\nh 2 1 8 3\nh 3 1 9 3\nh 4 0 4 2\nr 1 2 5 mixed 2\nkept 5\n",
    ),
    // The first thread's write stands last.
    (
        "thread\nw 63 1 18446744073709551615\nthread\nthread\nf\nw 0 1 5\n",
        &[
            &[Row::Placed(99, 1)],
            &[],
            &[Row::Synced(0), Row::Placed(98, 1)],
        ],
        "h 0 2 0 5\nh 1 0 63 18446744073709551615\nf 2 0 0\nkept 2\n",
    ),
];

#[test]
fn runs_are_told(rt: HostRuntime) -> Result<(), Fail> {
    for &(script, threads, text) in TOLD {
        let run = Run {
            threads,
            opening: None,
            closing: None,
            end: 100,
        };
        assert_eq!(rt; told(rt.alloc(), script, &run)?.as_str(), text, "{script}");
    }
    Ok(())
}

// Scripts, what opening and closing answered, and the transcripts.
const TROUBLED: &[(&str, Run, &str)] = &[
    (
        "thread\nw 5 1 17\nthread\nf\n",
        Run {
            threads: &[],
            opening: Some(Trouble::Drive { unit: 1, event: 4 }),
            closing: None,
            end: 0,
        },
        "e open 1 4\nkept 0\n",
    ),
    // The position of the second is no longer kept.
    (
        "thread\nw 5 1 17\nw 6 1 18\n",
        Run {
            threads: &[&[Row::Placed(0, 1), Row::Placed(1, 1)]],
            opening: None,
            closing: Some(Trouble::Drive { unit: 0, event: 7 }),
            end: 1,
        },
        "h 0 0 5 17\nh 1 0 6 18\ne close 0 7\nkept 1\n",
    ),
    (
        "thread\nw 5 2 17\nw 0 3 9\n",
        Run {
            threads: &[&[Row::Placed(10, 2), Row::Placed(20, 3)]],
            opening: None,
            closing: Some(Trouble::Worn {
                wanted: 23,
                have: 21,
            }),
            end: 21,
        },
        "h 0 0 5 17\nh 1 0 6 17\nh 2 0 0 9\nh 3 0 1 9\nh 4 0 2 9\nworn close 23 21\nkept 3\n",
    ),
    // Nothing was written, and yet closing met trouble.
    (
        "",
        Run {
            threads: &[],
            opening: None,
            closing: Some(Trouble::Drive { unit: 2, event: 1 }),
            end: 5,
        },
        "e close 2 1\nkept 0\n",
    ),
];

#[test]
fn troubles_are_told(rt: HostRuntime) -> Result<(), Fail> {
    for &(script, run, text) in TROUBLED {
        assert_eq!(rt; told(rt.alloc(), script, &run)?.as_str(), text, "{script}");
    }
    Ok(())
}
