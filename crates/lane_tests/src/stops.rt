//! Runs with lanes and a collector that are stopped at each program and each reset of a unit.

use crate::harness::{Told, call, created, files_of, number};
use crate::judge::{Line, history, tag_after};
use crate::rounds::rounds;
use std::alloc::{AllocError, Global};
use std::sync::Wait;
use std::test::Fail;
use std::thread::Threads;

// How many rounds the script has.
const ROUNDS: u64 = 40;

// How many runs, one after another, are to end before their stop.
const UNSTOPPED: u64 = 3;

// Up to which program or reset stops are to be met at least.
const STOPS: u64 = 300;

// How many runs there are at most.
const MOST: u32 = 1000;

// The number after these words in a text, if a line begins with them.
fn number_after(text: &str, words: &str) -> Option<u64> {
    for row in text.split('\n') {
        if let Some(rest) = row.strip_prefix(words) {
            return Some(number(rest));
        }
    }
    None
}

// What `show` lists after the first lines of a history.
fn listed(alloc: Global, lines: &[Line], kept: u64) -> Result<String, AllocError> {
    let mut text = String::new(alloc);
    for sector in 0..64 {
        let tag = tag_after(lines, kept, sector);
        if tag != 0 {
            write!(text, "{sector} {tag}\n")?;
        }
    }
    text.push_str("end ")?;
    Ok(text)
}

// What of the text of a run, or of what its image then lists, isn't as it should be, if anything.
fn wrong(alloc: Global, told: &Told, shown: &Told) -> Result<&'static str, AllocError> {
    let Some(lines) = history(alloc, &told.text)? else {
        return Ok("history");
    };
    let Some(kept) = number_after(&told.text, "kept ") else {
        return Ok("no kept line");
    };
    let flushed = number_after(&told.text, "f 0 160 ").unwrap_or(0);
    if kept < flushed || kept > lines.len() as u64 {
        return Ok("kept");
    }
    let listed = listed(alloc, &lines, kept)?;
    if shown.status != 0 || !shown.text.starts_with(listed.as_str()) {
        return Ok("contents");
    }
    Ok("")
}

// Runs the script with a stop at this program or reset of a unit. Its text, and what the image then
// holds, are as they should be. Tells whether the run met its stop.
fn is_stopped<R: Threads + Wait + Sync>(
    rt: &R,
    alloc: Global,
    image: &[u8],
    script: &str,
    unit: u64,
    nth: u64,
) -> Result<bool, Fail> {
    let mut files = files_of(alloc, image, script)?;
    let cut = nth % 3;
    let line = format!(in alloc;
        "run image script --lanes 2 --collector --stop {unit}:{nth}:{cut}"
    )?;
    let told = call(rt, alloc, &mut files, &line)?;
    let shown = call(rt, alloc, &mut files, "show image")?;
    let wrong = wrong(alloc, &told, &shown)?;
    if !wrong.is_empty() {
        return Err(Fail::new(format!(in alloc; "{wrong}: {line}")?));
    }
    match told.status {
        0 => Ok(false),
        5 => Ok(true),
        _ => Err(Fail::new(format!(in alloc; "status: {line}")?)),
    }
}

// Stops the script at a program or a reset of a unit, and at each second one after that, until runs
// end before their stop.
fn stop_at_each<R: Threads + Wait + Sync>(
    rt: &R,
    alloc: Global,
    unit: u64,
    first: u64,
) -> Result<(), Fail> {
    let image = created(rt, alloc, "")?;
    let script = rounds(alloc, ROUNDS)?;
    let mut nth = first;
    let mut unstopped: u64 = 0;
    for _ in 0..MOST {
        unstopped = if is_stopped(rt, alloc, &image, &script, unit, nth)? {
            0
        } else {
            unstopped.saturating_add(1)
        };
        if unstopped == UNSTOPPED {
            if nth < STOPS {
                return Err(Fail::new("few stops"));
            }
            return Ok(());
        }
        nth = nth.saturating_add(2);
    }
    Err(Fail::new("no end"))
}

#[test]
fn stops_of_the_first_unit_leave_what_is_kept(rt: HostRuntime) -> Result<(), Fail> {
    stop_at_each(&rt, rt.alloc(), 0, 1)
}

#[test]
fn other_stops_of_the_first_unit_leave_what_is_kept(rt: HostRuntime) -> Result<(), Fail> {
    stop_at_each(&rt, rt.alloc(), 0, 2)
}

#[test]
fn stops_of_the_second_unit_leave_what_is_kept(rt: HostRuntime) -> Result<(), Fail> {
    stop_at_each(&rt, rt.alloc(), 1, 1)
}

#[test]
fn other_stops_of_the_second_unit_leave_what_is_kept(rt: HostRuntime) -> Result<(), Fail> {
    stop_at_each(&rt, rt.alloc(), 1, 2)
}
