//! `parity` and `rebuild`: a unit that is lost, of drives in several states, and what is refused.

use crate::harness::{check, text_of};
use crate::stops::{called, ends};
use pblk_outside::MemoryFiles;
use std::alloc::{AllocError, Global};
use std::sync::Wait;
use std::test::Fail;
use std::thread::Threads;

/// What is done on the blank small drive, and with which status that ends.
pub(crate) static RUNS: [(&str, u8); 6] = [
    ("run|image|script", 0),
    // chunks are closed before their ends
    ("run|image|script|--fail|p:0:2:1", 0),
    ("run|image|script|--fail|p:1:1:0|--fail|p:0:5:1", 0),
    // the drive stops within a program
    ("run|image|script|--stop|0:3:1", 5),
    ("run|image|script|--stop|1:6:1", 5),
    // its lines are collected
    ("soak|image|1|1", 0),
];

// The image with a unit's chunks Free, as the small drive has two units of eight chunks.
fn without(alloc: Global, image: &[u8], unit: usize) -> Result<Vec<u8>, AllocError> {
    let mut left = Vec::new(alloc);
    let front = image.len().min(4640);
    left.extend_from_slice(&image[..front])?;
    let mut at: usize = 4640;
    for chunk in 0..16 {
        let descriptor = 4128 + 32 * chunk;
        let blocks = match image.get(descriptor + 24) {
            Some(count) => 528 * *count as usize,
            None => 0,
        };
        let end = at.saturating_add(blocks);
        if chunk / 8 == unit {
            set(&mut left, descriptor, 1);
            set(&mut left, descriptor + 24, 0);
        } else if let Some(bytes) = image.get(at..end) {
            left.extend_from_slice(bytes)?;
        }
        at = end;
    }
    Ok(left)
}

fn set(bytes: &mut Vec<u8>, at: usize, byte: u8) {
    if at < bytes.len() {
        bytes[at] = byte;
    }
}

// The bytes of a file; none where it isn't there.
fn bytes_of(alloc: Global, files: &MemoryFiles, name: &str) -> Result<Vec<u8>, AllocError> {
    match files.get(name) {
        Some(bytes) => Vec::from_slice(alloc, bytes),
        None => Ok(Vec::new(alloc)),
    }
}

// Whether a unit that is lost comes back, byte by byte.
fn comes_back<R: Threads + Wait + Sync>(
    rt: &R,
    alloc: Global,
    files: &mut MemoryFiles,
    unit: usize,
) -> Result<bool, AllocError> {
    let whole = bytes_of(alloc, files, "image")?;
    files.put("image", &without(alloc, &whole, unit)?)?;
    let line = format!(in alloc; "rebuild|image|kept|{unit}")?;
    let (status, text) = called(rt, alloc, files, &line)?;
    let again = bytes_of(alloc, files, "image")?;
    Ok(status == 0 && text.starts_with(b"rebuilt ") && again == whole)
}

/// The files after such a run, of the image and a script; none where it ends otherwise.
pub(crate) fn after_run<R: Threads + Wait + Sync>(
    rt: &R,
    alloc: Global,
    run: &str,
    status: u8,
) -> Result<Option<MemoryFiles>, AllocError> {
    let mut files = MemoryFiles::new(alloc, &[])?;
    let script = text_of(
        alloc,
        "thread/w 0 16 1/w 16 16 2/w 32 8 3/w 0 4 4/f/w 40 16 5/w 0 8 6/",
    )?;
    files.put("script", script.as_bytes())?;
    if !ends(rt, alloc, &mut files, "create|image", 0, "created 4640\n")? {
        return Ok(None);
    }
    let (ended, _) = called(rt, alloc, &mut files, run)?;
    if ended != status {
        return Ok(None);
    }
    Ok(Some(files))
}

// What goes otherwise where a unit is lost after a run, if anything.
fn wrong_run<R: Threads + Wait + Sync>(
    rt: &R,
    alloc: Global,
    run: &str,
    status: u8,
) -> Result<&'static str, AllocError> {
    let Some(mut files) = after_run(rt, alloc, run, status)? else {
        return Ok("run");
    };
    let (_, held) = called(rt, alloc, &mut files, "show|image")?;
    let (ended, text) = called(rt, alloc, &mut files, "parity|image|kept")?;
    if ended != 0 || !text.starts_with(b"parity ") {
        return Ok("parity");
    }
    let (_, holds) = called(rt, alloc, &mut files, "show|image")?;
    if holds != held {
        return Ok("contents");
    }
    for unit in 0..2 {
        if !comes_back(rt, alloc, &mut files, unit)? {
            return Ok("rebuild");
        }
    }
    Ok("")
}

#[test]
fn a_lost_unit_comes_back(rt: HostRuntime) -> Result<(), Fail> {
    for (run, status) in &RUNS {
        assert_eq!(rt; wrong_run(&rt, rt.alloc(), run, *status)?, "", "{run}");
    }
    Ok(())
}

// What else may come of `parity`, on the blank small drive.
const MADE: &str = "
images=drive small ; text=parity 160/
images=absent ; status=4 ; text=files Missing image/
images=drive small cut:0 ; status=3 ; text=image Short 0/
images=drive small ; files=1 ; status=4 ; text=files Failed image/
images=drive small ; files=2 ; status=4 ; text=files Failed image/ ; after=untold
images=drive small ; files=3 ; status=4 ; text=files Failed kept/
images=drive small ; output=1 ; status=8 ; text=parit
";

#[test]
fn a_parity_fails_where_files_or_output_do(rt: HostRuntime) -> Result<(), Fail> {
    check(
        &rt,
        rt.alloc(),
        "call=parity|image|kept ; script=absent",
        MADE,
    )
}

// And of `rebuild` from a script.
const REBUILT: &str = "
images=drive small ; status=3 ; text=parity Short 7/
images=absent ; status=4 ; text=files Missing image/
images=drive small ; call=rebuild|image|kept|1 ; status=4 ; text=files Missing kept/
images=drive small cut:0 ; status=3 ; text=image Short 0/
images=drive small ; call=rebuild|image|script|2 ; status=1 ; text=words/
images=drive small ; files=1 ; status=4 ; text=files Failed image/
images=drive small ; files=2 ; status=4 ; text=files Failed script/
";

#[test]
fn a_rebuild_is_refused_in_order(rt: HostRuntime) -> Result<(), Fail> {
    check(
        &rt,
        rt.alloc(),
        "call=rebuild|image|script|1 ; script=thread/",
        REBUILT,
    )
}
