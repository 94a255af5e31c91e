//! The listings and the reports of images.

use crate::report::images::Filling::{Broken, Whole};
use crate::report::images::{Held, Used, listed, reported};
use scan_recovery::Head;
use std::test::Fail;

// An image of 64 sectors on which nothing was written.
const BLANK: Held = Held {
    size: 512,
    runs: &[(64, Whole(0))],
    end: 0,
    counted: 0,
    live: 0,
    head: None,
};

// What images hold, and their listings.
const LISTED: &[(Held, &str)] = &[
    (BLANK, "end 0 sectors 64\n"),
    (
        Held {
            runs: &[(5, Whole(0)), (1, Whole(17)), (58, Whole(0))],
            end: 1,
            ..BLANK
        },
        "5 17\nend 1 sectors 64\n",
    ),
    (
        Held {
            runs: &[(2, Whole(9)), (62, Whole(0))],
            end: 2,
            ..BLANK
        },
        "0 9\n1 9\nend 2 sectors 64\n",
    ),
    (
        Held {
            runs: &[(10, Whole(0)), (4, Whole(5)), (50, Whole(0))],
            end: 4,
            ..BLANK
        },
        "10 5\n11 5\n12 5\n13 5\nend 4 sectors 64\n",
    ),
    // The first and the last sector, and the greatest numbers.
    (
        Held {
            runs: &[(1, Whole(1)), (62, Whole(0)), (1, Whole(u64::MAX))],
            end: u64::MAX,
            ..BLANK
        },
        "0 1\n63 18446744073709551615\nend 18446744073709551615 sectors 64\n",
    ),
    // Sectors of no tag. One is all zeros but for its last byte.
    (
        Held {
            runs: &[(1, Broken(3)), (1, Whole(0)), (1, Broken(0)), (1, Whole(3))],
            end: 7,
            ..BLANK
        },
        "0 mixed\n2 mixed\n3 3\nend 7 sectors 4\n",
    ),
    // A tag with zeros in its low bytes.
    (
        Held {
            runs: &[(1, Whole(1 << 63))],
            end: 1,
            ..BLANK
        },
        "0 9223372036854775808\nend 1 sectors 1\n",
    ),
    (
        Held {
            size: 4096,
            runs: &[(1, Whole(0)), (1, Whole(12)), (1, Broken(12))],
            end: 3,
            ..BLANK
        },
        "1 12\n2 mixed\nend 3 sectors 3\n",
    ),
    (Held { runs: &[], ..BLANK }, "end 0 sectors 0\n"),
];

#[test]
fn contents_are_listed(rt: HostRuntime) -> Result<(), Fail> {
    for &(held, text) in LISTED {
        assert_eq!(rt; listed(rt.alloc(), &held)?.as_str(), text, "{held:?}");
    }
    Ok(())
}

// Chunks of the small drive, the numbers of recovery, and the reports. Codes of states: Closed 2, Open 4,
// Offline 8.
const REPORTED: &[(&[Used], Held, &str)] = &[
    (
        &[],
        BLANK,
        "{\"capacity\":64,\"closed\":0,\"counted\":0,\"end\":0,\"free\":16,\"head\":null,\"live\":0,\"offline\":0,\"open\":0,\"seq\":0}\n",
    ),
    // One sector was written.
    (
        &[(0, 0, 4, 4), (1, 0, 4, 4)],
        Held {
            end: 1,
            counted: 1,
            live: 1,
            head: Some(Head { line: 0, seq: 1 }),
            ..BLANK
        },
        "{\"capacity\":64,\"closed\":0,\"counted\":1,\"end\":1,\"free\":14,\"head\":0,\"live\":1,\"offline\":0,\"open\":2,\"seq\":1}\n",
    ),
    // All numbers differ.
    (
        &[
            (0, 3, 2, 24),
            (0, 4, 2, 0),
            (0, 5, 2, 2),
            (1, 0, 8, 0),
            (1, 7, 4, 22),
            (1, 1, 8, 0),
        ],
        Held {
            end: 18446744073709551615,
            counted: 90,
            live: 64,
            head: Some(Head {
                line: 7,
                seq: 2305843009213693951,
            }),
            ..BLANK
        },
        "{\"capacity\":64,\"closed\":3,\"counted\":90,\"end\":18446744073709551615,\"free\":10,\"head\":7,\"live\":64,\"offline\":2,\"open\":1,\"seq\":2305843009213693951}\n",
    ),
];

#[test]
fn drives_are_reported(rt: HostRuntime) -> Result<(), Fail> {
    for &(used, held, text) in REPORTED {
        assert_eq!(rt;
            reported(rt.alloc(), used, &held)?.as_str(),
            text,
            "{held:?}"
        );
    }
    Ok(())
}
