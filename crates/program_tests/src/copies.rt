//! Loads that write some sectors over and over and the others seldom, so that live sectors are
//! copied out of old lines. How many copies are made isn't told.

use crate::drives::{drive, image};
use crate::harness::check;
use crate::loads::{Load, Way, add_history, run_load, write_lines};
use crate::stops::files_of;
use std::alloc::{AllocError, Global};
use std::sync::Wait;
use std::test::Fail;
use std::thread::Threads;

// On each drive at least ten times as many sectors are written as there are.
static LOADS: [Load; 4] = [
    Load {
        drive: "small",
        capacity: 64,
        writes: 320,
        size: 4,
        each: 320,
        tag: 0,
        way: Way::Seldom {
            places: 12,
            last: 44,
            often: 48,
        },
    },
    // The greatest capacity.
    Load {
        drive: "capacity-90",
        capacity: 90,
        writes: 450,
        size: 4,
        each: 450,
        tag: 0,
        way: Way::Seldom {
            places: 19,
            last: 70,
            often: 74,
        },
    },
    Load {
        drive: "groups",
        capacity: 297,
        writes: 750,
        size: 4,
        each: 750,
        tag: 0,
        way: Way::Seldom {
            places: 71,
            last: 277,
            often: 281,
        },
    },
    Load {
        drive: "large",
        capacity: 90,
        writes: 450,
        size: 4,
        each: 450,
        tag: 0,
        way: Way::Seldom {
            places: 19,
            last: 70,
            often: 74,
        },
    },
];

/// Twelve rounds over the seldom places of the small drive.
pub(crate) static COPIED: Load = Load {
    drive: "small",
    capacity: 64,
    writes: 120,
    size: 4,
    each: 30,
    tag: 0,
    way: Way::Seldom {
        places: 12,
        last: 44,
        often: 48,
    },
};

// Two rows: the load, a flush and reads of all sectors; and another mount, which reads them.
fn load_rows(alloc: Global, load: &Load) -> Result<String, AllocError> {
    let all = load.lines();
    let history = load.history(alloc, &[])?;
    let mut held = load.blank(alloc)?;
    write_lines(&mut held, &history, all);
    let mut rows = format!(in alloc; "images=drive {} ; script=thread/", load.drive)?;
    load.add_commands(&mut rows)?;
    load.add_reads(&mut rows)?;
    rows.push_str(" ; text=")?;
    add_history(&mut rows, &history)?;
    write!(rows, "f 0 {} {all}/", load.writes)?;
    load.add_words(&mut rows, &held, load.writes.saturating_add(1), all)?;
    write!(rows, "kept {all}/\nimages=left ; script=thread/")?;
    load.add_reads(&mut rows)?;
    rows.push_str(" ; text=")?;
    load.add_words(&mut rows, &held, 0, 0)?;
    rows.push_str("kept 0/")?;
    Ok(rows)
}

#[test]
fn live_sectors_are_copied(rt: HostRuntime) -> Result<(), Fail> {
    for load in &LOADS {
        let rows = load_rows(rt.alloc(), load)?;
        check(
            &rt,
            rt.alloc(),
            "call=run|image|script ; after=untold",
            &rows,
        )?;
    }
    Ok(())
}

// Stops at each program and reset of a unit, of which nothing, a half or all is done. Names what of
// the first that doesn't go as told is wrong, if any, and which it is.
fn wrong_stop<R: Threads + Wait + Sync>(
    rt: &R,
    alloc: Global,
    load: &Load,
    unit: u64,
) -> Result<(&'static str, u64), AllocError> {
    let Some(numbers) = drive(load.drive) else {
        return Ok(("drive", 0));
    };
    let blank = image(alloc, numbers, &[])?;
    for nth in 1..400 {
        let mut files = files_of(alloc, &blank, "")?;
        let stop = format!(in alloc; "|--stop|{unit}:{nth}:{}", nth % 3)?;
        let mut held = load.blank(alloc)?;
        let came = run_load(rt, alloc, &mut files, load, &stop, &[5], &mut held)?;
        if !came.wrong.is_empty() || came.status == 0 {
            return Ok((came.wrong, nth));
        }
    }
    Ok(("no end", 400))
}

#[test]
fn a_stop_amid_copies_leaves_what_is_kept(rt: HostRuntime) -> Result<(), Fail> {
    for unit in 0..2 {
        let (wrong, nth) = wrong_stop(&rt, rt.alloc(), &COPIED, unit)?;
        assert!(rt; wrong.is_empty(), "{wrong}: {unit}:{nth}");
    }
    Ok(())
}
