//! Pools of a few frames and of none.

use crate::pool::harness::{Asked, Bench, Told, ask};
use std::test::Fail;

// What is asked of a pool of two frames of 512 bytes, what it tells, and how many frames are left.
const TWO: &[(Asked, Told, u32)] = &[
    (Asked::Take, Told::Taken, 1),
    (Asked::Take, Told::Taken, 0),
    (Asked::Take, Told::NoneLeft, 0),
    (Asked::Close, Told::Refused, 0),
    (Asked::Give, Told::Given, 1),
    (Asked::Take, Told::Taken, 0),
    (Asked::Give, Told::Given, 1),
    (Asked::Close, Told::Refused, 1),
    (Asked::Give, Told::Given, 2),
    (Asked::Give, Told::NoneOut, 2),
    (Asked::Close, Told::Closed, 0),
];

// The same of a pool without frames.
const NONE: &[(Asked, Told, u32)] = &[
    (Asked::Take, Told::NoneLeft, 0),
    (Asked::Close, Told::Closed, 0),
];

// The same of a pool of one frame without bytes.
const EMPTY: &[(Asked, Told, u32)] = &[
    (Asked::Take, Told::Taken, 0),
    (Asked::Close, Told::Refused, 0),
    (Asked::Give, Told::Given, 1),
    (Asked::Close, Told::Closed, 0),
];

// The pools of the three tables.
const POOLS: &[(u32, u32, &[(Asked, Told, u32)])] = &[(2, 512, TWO), (0, 512, NONE), (1, 0, EMPTY)];

#[test]
fn frames_go_out_and_come_back(rt: HostRuntime) -> Result<(), Fail> {
    for &(count, size, steps) in POOLS {
        let mut bench = Some(Bench::new(rt.alloc(), count, size)?);
        for (asked, told, left) in steps {
            let (next, answer) = ask(bench, *asked);
            assert_eq!(rt; answer, *told, "{asked:?}");
            let now_left = next.as_ref().map_or(0, |open| open.left());
            assert_eq!(rt; now_left, *left, "{asked:?}");
            bench = next;
        }
        match bench {
            None => {}
            Some(_open) => panic!(rt; "a pool of {count} frames isn't closed"),
        }
    }
    Ok(())
}
