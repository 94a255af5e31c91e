//! Windows of a few entries and of none.

use crate::window::harness::{Asked, Bench, Told, ask};
use sector_pool::Class::{Copy, User};
use std::test::Fail;

// What is asked of a window of 64 entries from position 0 on that has none yet, and what it tells.
const BLANK: &[(Asked, Told)] = &[
    (Asked::Get(0), Told::NotHeld),
    (Asked::PopFree, Told::NotReadable),
    (Asked::Freed, Told::Freed(0)),
    (Asked::Synced, Told::Front(0, 0)),
    (Asked::Landed(0), Told::Refused),
];

// The same of one of three entries from position 5 on: full, landed out of order, and past its wrap to the end.
const THREE: &[(Asked, Told)] = &[
    (Asked::Push(User, 10), Told::Done),
    (Asked::Push(Copy, 11), Told::Done),
    (Asked::Push(User, 12), Told::Done),
    (Asked::Push(User, 13), Told::Refused),
    (Asked::Get(4), Told::NotHeld),
    (Asked::Get(5), Told::Byte(10)),
    (Asked::Get(6), Told::Byte(11)),
    (Asked::Get(7), Told::Byte(12)),
    (Asked::Get(8), Told::NotHeld),
    (Asked::Landed(7), Told::Done),
    (Asked::Synced, Told::Front(0, 5)),
    (Asked::Readable(6), Told::Refused),
    (Asked::Landed(5), Told::Done),
    (Asked::Synced, Told::Front(1, 6)),
    (Asked::Landed(6), Told::Done),
    (Asked::Synced, Told::Front(2, 8)),
    (Asked::Landed(8), Told::Refused),
    (Asked::PopFree, Told::NotReadable),
    (Asked::Readable(6), Told::Done),
    (Asked::PopFree, Told::NotReadable),
    (Asked::Readable(5), Told::Done),
    (Asked::PopFree, Told::Popped(Some(10))),
    (Asked::Freed, Told::Freed(6)),
    (Asked::Synced, Told::Front(2, 8)),
    (Asked::Get(5), Told::NotHeld),
    (Asked::Push(User, 13), Told::Done),
    (Asked::Get(8), Told::Byte(13)),
    (Asked::Get(6), Told::Byte(11)),
    (Asked::PopFree, Told::Popped(Some(11))),
    (Asked::Landed(7), Told::Done),
    (Asked::Synced, Told::Front(2, 8)),
    (Asked::Push(Copy, 14), Told::Done),
    (Asked::Push(User, 15), Told::Refused),
    (Asked::Landed(9), Told::Done),
    (Asked::Synced, Told::Front(2, 8)),
    (Asked::Landed(8), Told::Done),
    (Asked::Synced, Told::Front(3, 10)),
    (Asked::Readable(9), Told::Done),
    (Asked::Readable(8), Told::Done),
    (Asked::Readable(7), Told::Done),
    (Asked::PopFree, Told::Popped(Some(12))),
    (Asked::PopFree, Told::Popped(Some(13))),
    (Asked::PopFree, Told::Popped(Some(14))),
    (Asked::PopFree, Told::NotReadable),
    (Asked::Freed, Told::Freed(10)),
    (Asked::Synced, Told::Front(3, 10)),
];

// The same of one of two entries that is closed while it holds both.
const HOLDS: &[(Asked, Told)] = &[
    (Asked::Push(User, 1), Told::Done),
    (Asked::Push(User, 2), Told::Done),
    (Asked::Landed(0), Told::Done),
    (Asked::Readable(0), Told::Done),
    (Asked::PopFree, Told::Popped(Some(1))),
    (Asked::Push(Copy, 3), Told::Done),
    (Asked::Get(1), Told::Byte(2)),
    (Asked::Get(2), Told::Byte(3)),
];

// The same of one at the last position that an entry may have.
const LAST: &[(Asked, Told)] = &[
    (Asked::Push(User, 1), Told::Done),
    (Asked::Push(User, 2), Told::Refused),
    (Asked::Landed(0x7FFF_FFFF_FFFF_FFFF), Told::Done),
    (Asked::Synced, Told::Front(1, 0x8000_0000_0000_0000)),
];

// The same of one without room.
const NONE: &[(Asked, Told)] = &[
    (Asked::Push(User, 1), Told::Refused),
    (Asked::Get(9), Told::NotHeld),
    (Asked::Freed, Told::Freed(9)),
];

// The windows of the tables: for how many entries, from which position on.
const WINDOWS: &[(u32, u64, &[(Asked, Told)])] = &[
    (64, 0, BLANK),
    (3, 5, THREE),
    (2, 0, HOLDS),
    (2, 0x7FFF_FFFF_FFFF_FFFF, LAST),
    (0, 9, NONE),
];

/// How many frames each window's pool has.
const FRAMES: u32 = 4;

#[test]
fn entries_land_and_go_in_order(rt: HostRuntime) -> Result<(), Fail> {
    for &(size, first, steps) in WINDOWS {
        let mut bench = Bench::new(rt.alloc(), size, first, FRAMES)?;
        for (asked, told) in steps {
            let (next, answer) = ask(bench, *asked);
            assert_eq!(rt; answer, *told, "{asked:?}");
            bench = next;
        }
        assert_eq!(rt; bench.close(), FRAMES);
    }
    Ok(())
}
