//! A script that is stopped at each of its programs, and openings of what it left that are stopped
//! at each of theirs.

use crate::drives::{drive, image};
use crate::harness::{call, number, text_of};
use pblk_outside::{MemoryFiles, MemorySink};
use std::alloc::{AllocError, Global};
use std::sync::Wait;
use std::test::Fail;
use std::thread::Threads;

// The script. Its last sectors are placed in a second line.
const SCRIPT: &str = "thread\nw 0 16 1\nw 16 16 2\nw 32 8 3\nw 0 4 4\nf\n";

// How many lines its history has.
const LINES: u64 = 44;

// Stops of it on the blank small drive, and what is told after its history. It makes seven programs
// on each unit, so that the last two of these stops never come.
const STOPS: [(&str, &str); 44] = [
    ("0:1:0", "e 0 4 0 1/e close 0 2/kept 0/"),
    ("0:1:1", "e 0 4 0 1/e close 0 2/kept 0/"),
    ("0:1:2", "e 0 4 0 1/e close 0 2/kept 0/"),
    ("0:2:0", "e 0 4 0 2/e close 0 3/kept 4/"),
    ("0:2:1", "e 0 4 0 2/e close 0 3/kept 6/"),
    ("0:2:2", "e 0 4 0 2/e close 0 3/kept 8/"),
    ("0:3:0", "e 0 4 0 3/e close 0 4/kept 12/"),
    ("0:3:1", "e 0 4 0 3/e close 0 4/kept 14/"),
    ("0:3:2", "e 0 4 0 3/e close 0 4/kept 16/"),
    ("0:4:0", "e 0 4 0 4/e close 0 5/kept 20/"),
    ("0:4:1", "e 0 4 0 4/e close 0 5/kept 22/"),
    ("0:4:2", "e 0 4 0 4/e close 0 5/kept 24/"),
    ("0:5:0", "e 0 4 0 5/e close 0 6/kept 28/"),
    ("0:5:1", "e 0 4 0 5/e close 0 6/kept 30/"),
    ("0:5:2", "e 0 4 0 5/e close 0 6/kept 32/"),
    ("0:6:0", "e 0 4 0 6/e close 0 7/kept 36/"),
    ("0:6:1", "e 0 4 0 6/e close 0 7/kept 38/"),
    ("0:6:2", "e 0 4 0 6/e close 0 7/kept 40/"),
    ("0:7:0", "e 0 4 0 7/e close 0 8/kept 40/"),
    ("0:7:1", "e 0 4 0 7/e close 0 8/kept 40/"),
    ("0:7:2", "e 0 4 0 7/e close 0 8/kept 40/"),
    ("0:8:0", "f 0 4 44/kept 44/"),
    ("1:1:0", "e 0 4 1 1/e close 1 2/kept 0/"),
    ("1:1:1", "e 0 4 1 1/e close 1 2/kept 2/"),
    ("1:1:2", "e 0 4 1 1/e close 1 2/kept 4/"),
    ("1:2:0", "e 0 4 1 2/e close 1 3/kept 8/"),
    ("1:2:1", "e 0 4 1 2/e close 1 3/kept 10/"),
    ("1:2:2", "e 0 4 1 2/e close 1 3/kept 12/"),
    ("1:3:0", "e 0 4 1 3/e close 1 4/kept 16/"),
    ("1:3:1", "e 0 4 1 3/e close 1 4/kept 18/"),
    ("1:3:2", "e 0 4 1 3/e close 1 4/kept 20/"),
    ("1:4:0", "e 0 4 1 4/e close 1 5/kept 24/"),
    ("1:4:1", "e 0 4 1 4/e close 1 5/kept 26/"),
    ("1:4:2", "e 0 4 1 4/e close 1 5/kept 28/"),
    ("1:5:0", "e 0 4 1 5/e close 1 6/kept 32/"),
    ("1:5:1", "e 0 4 1 5/e close 1 6/kept 34/"),
    ("1:5:2", "e 0 4 1 5/e close 1 6/kept 36/"),
    ("1:6:0", "e 0 4 1 6/e close 1 7/kept 40/"),
    ("1:6:1", "e 0 4 1 6/e close 1 7/kept 40/"),
    ("1:6:2", "e 0 4 1 6/e close 1 7/kept 40/"),
    ("1:7:0", "e 0 4 1 7/e close 1 8/kept 40/"),
    ("1:7:1", "e 0 4 1 7/e close 1 8/kept 42/"),
    ("1:7:2", "e 0 4 1 7/e close 1 8/kept 44/"),
    ("1:8:0", "f 0 4 44/kept 44/"),
];

// The sector and the tag of a line of the history.
fn line(number: u64) -> (u64, u64) {
    match number / 8 {
        0 | 1 => (number, 1),
        2 | 3 => (number, 2),
        4 => (number, 3),
        _ => (number.saturating_sub(40), 4),
    }
}

// What is told of a run: the history, and what follows it.
fn told_text(alloc: Global, told: &str) -> Result<String, AllocError> {
    let mut text = String::new(alloc);
    for number in 0..LINES {
        let (lba, tag) = line(number);
        write!(text, "h {number} 0 {lba} {tag}/")?;
    }
    text.push_str(told)?;
    text_of(alloc, &text)
}

// The tag of a sector after so many lines of the history; 0 where none of them writes it.
fn tag_after(kept: u64, sector: u64) -> u64 {
    let mut latest = 0;
    for number in 0..kept {
        let (lba, tag) = line(number);
        if lba == sector {
            latest = tag;
        }
    }
    latest
}

// What `show` prints after so many lines of the history.
fn held_text(alloc: Global, kept: u64) -> Result<String, AllocError> {
    let mut text = String::new(alloc);
    for sector in 0..64 {
        let tag = tag_after(kept, sector);
        if tag != 0 {
            write!(text, "{sector} {tag}\n")?;
        }
    }
    write!(text, "end {kept} sectors 64\n")?;
    Ok(text)
}

// How many lines are kept by what is told.
fn kept_of(told: &str) -> u64 {
    match told.split_once("kept ") {
        Some((_, rest)) => number(rest.strip_suffix('/').unwrap_or(rest)),
        None => u64::MAX,
    }
}

// The status of what is told: that of a stop where an `e` line is there.
fn status_of(told: &str) -> u8 {
    if told.starts_with("e ") { 5 } else { 0 }
}

/// Makes a call: its status, and what it writes.
pub(crate) fn called<R: Threads + Wait + Sync>(
    rt: &R,
    alloc: Global,
    files: &mut MemoryFiles,
    line: &str,
) -> Result<(u8, Vec<u8>), AllocError> {
    let mut out = MemorySink::new(alloc, &[])?;
    let status = call(rt, alloc, line, files, &mut out)?;
    Ok((status, Vec::from_slice(alloc, out.taken())?))
}

/// Whether a call ends with this status, and writes this text.
pub(crate) fn ends<R: Threads + Wait + Sync>(
    rt: &R,
    alloc: Global,
    files: &mut MemoryFiles,
    line: &str,
    status: u8,
    text: &str,
) -> Result<bool, AllocError> {
    let (found, written) = called(rt, alloc, files, line)?;
    Ok(found == status && written.as_slice() == text.as_bytes())
}

/// Files with this image and this script.
pub(crate) fn files_of(
    alloc: Global,
    image: &[u8],
    script: &str,
) -> Result<MemoryFiles, AllocError> {
    let mut files = MemoryFiles::new(alloc, &[])?;
    files.put("image", image)?;
    files.put("script", script.as_bytes())?;
    Ok(files)
}

/// Names what of a run of the script with these options doesn't go as told, if anything: the run,
/// what it leaves, or an opening of that.
pub(crate) fn wrong_stop<R: Threads + Wait + Sync>(
    rt: &R,
    alloc: Global,
    options: &str,
    told: &str,
) -> Result<&'static str, AllocError> {
    let Some(small) = drive("small") else {
        return Ok("drive");
    };
    let mut files = files_of(alloc, &image(alloc, small, &[])?, SCRIPT)?;
    let line = format!(in alloc; "run|image|script|{options}")?;
    let text = told_text(alloc, told)?;
    if !ends(rt, alloc, &mut files, &line, status_of(told), &text)? {
        return Ok("run");
    }
    let held = held_text(alloc, kept_of(told))?;
    if !ends(rt, alloc, &mut files, "show|image", 0, &held)? {
        return Ok("show");
    }
    match files.get("image") {
        Some(left) => wrong_openings(rt, alloc, left, &held),
        None => Ok("image"),
    }
}

// The same for openings of an image that holds this. Each is stopped at a program of a unit, of
// which nothing, a half or all lands.
fn wrong_openings<R: Threads + Wait + Sync>(
    rt: &R,
    alloc: Global,
    left: &[u8],
    held: &str,
) -> Result<&'static str, AllocError> {
    for unit in 0..2 {
        for cut in 0..3 {
            if !openings_keep(rt, alloc, left, held, unit, cut)? {
                return Ok("opening");
            }
        }
    }
    Ok("")
}

// Whether an image holds this still after a mount that was stopped at any program or reset of this
// unit, and after one more. Here a mount makes twelve of them on a unit at most.
fn openings_keep<R: Threads + Wait + Sync>(
    rt: &R,
    alloc: Global,
    left: &[u8],
    held: &str,
    unit: u64,
    cut: u64,
) -> Result<bool, AllocError> {
    for nth in 1..14 {
        let mut files = files_of(alloc, left, "")?;
        let stop = format!(in alloc; "run|image|script|--stop|{unit}:{nth}:{cut}")?;
        let (status, text) = called(rt, alloc, &mut files, &stop)?;
        if !is_opening(alloc, status, &text, unit, nth)? || !keep(rt, alloc, &mut files, held)? {
            return Ok(false);
        }
        if status == 0 {
            return Ok(true);
        }
    }
    Ok(false)
}

// Whether an empty script is answered so, on a drive that is told of a stop at this program or
// reset of a unit: the stop is named, or it hasn't come. It comes at the opening where it is one of
// a program; a chunk of no line is reset at the close.
fn is_opening(
    alloc: Global,
    status: u8,
    text: &[u8],
    unit: u64,
    nth: u64,
) -> Result<bool, AllocError> {
    if status == 0 {
        return Ok(text == "kept 0\n".as_bytes());
    }
    let stopped = format!(in alloc; "e open {unit} {nth}\nkept 0\n")?;
    let closing = format!(in alloc; "e close {unit} ")?;
    let is_told = text == stopped.as_bytes() || text.starts_with(closing.as_bytes());
    Ok(status == 5 && is_told)
}

// Whether the image holds this, and does so after an opening.
fn keep<R: Threads + Wait + Sync>(
    rt: &R,
    alloc: Global,
    files: &mut MemoryFiles,
    held: &str,
) -> Result<bool, AllocError> {
    Ok(
        ends(rt, alloc, files, "show|image", 0, held)?
            && ends(rt, alloc, files, "run|image|script", 0, "kept 0\n")?
            && ends(rt, alloc, files, "show|image", 0, held)?,
    )
}

#[test]
fn a_stop_leaves_what_is_kept(rt: HostRuntime) -> Result<(), Fail> {
    for (stop, told) in &STOPS {
        let options = format!(in rt.alloc(); "--stop|{stop}")?;
        let wrong = wrong_stop(&rt, rt.alloc(), &options, told)?;
        assert!(rt; wrong.is_empty(), "{wrong}: {stop}");
    }
    Ok(())
}
