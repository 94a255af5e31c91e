//! `soak`: loads that are made and run.

use crate::harness::{check, text_of};
use crate::stops::{called, ends};
use pblk_outside::MemoryFiles;
use std::alloc::{AllocError, Global};
use std::sync::Wait;
use std::test::Fail;
use std::thread::Threads;

// What the load of number 1, of one round, leaves in the sectors of the small drive.
const LEFT: &str =
    "0 3/1 3/2 3/3 7/4 7/5 8/6 8/7 8/8 8/9 8/10 8/11 8/12 8/16 4294967301/17 4294967303/\
18 4294967303/19 4294967304/20 4294967304/21 4294967304/22 4294967304/23 4294967304/24 4294967304/\
25 4294967304/26 4294967304/27 4294967302/28 4294967302/29 4294967302/30 4294967302/31 4294967302/\
33 8589934600/34 8589934600/35 8589934600/36 8589934600/37 8589934600/38 8589934600/39 8589934600/\
40 8589934600/41 8589934599/42 8589934599/43 8589934599/44 8589934599/45 8589934599/46 8589934599/\
47 8589934599/49 12884901890/50 12884901890/51 12884901890/52 12884901892/53 12884901896/\
54 12884901896/55 12884901896/56 12884901896/57 12884901896/58 12884901896/59 12884901896/\
60 12884901896/61 12884901895/62 12884901895/63 12884901895/end ";

// A soak of one round on a new image, and one on the image left. Whatever order the threads ran in,
// the sectors are the same after both.
fn wrong_rounds<R: Threads + Wait + Sync>(
    rt: &R,
    alloc: Global,
) -> Result<&'static str, AllocError> {
    let mut files = MemoryFiles::new(alloc, &[])?;
    let left = text_of(alloc, LEFT)?;
    if !ends(rt, alloc, &mut files, "create|image", 0, "created 4640\n")? {
        return Ok("create");
    }
    for _ in 0..2 {
        let text = "soak commands 64 writes 32 sectors 256 reads 28 flushes 4 kept 256\n";
        if !ends(rt, alloc, &mut files, "soak|image|1|1", 0, text)? {
            return Ok("soak");
        }
        let (status, listed) = called(rt, alloc, &mut files, "show|image")?;
        if status != 0 || !listed.starts_with(left.as_bytes()) {
            return Ok("show");
        }
    }
    Ok("")
}

#[test]
fn a_load_is_run(rt: HostRuntime) -> Result<(), Fail> {
    assert_eq!(rt; wrong_rounds(&rt, rt.alloc())?, "");
    Ok(())
}

// A target of so few sectors, and how a soak ends on it.
const FEW: [(&str, u8, &str); 2] = [
    ("31", 1, "words\n"),
    (
        "32",
        0,
        "soak commands 64 writes 32 sectors 256 reads 28 flushes 4 kept 256\n",
    ),
];

fn has_room<R: Threads + Wait + Sync>(
    rt: &R,
    alloc: Global,
    capacity: &str,
    status: u8,
    text: &str,
) -> Result<bool, AllocError> {
    let mut files = MemoryFiles::new(alloc, &[])?;
    let line = format!(in alloc; "create|image|--capacity|{capacity}")?;
    Ok(
        ends(rt, alloc, &mut files, &line, 0, "created 4640\n")?
            && ends(rt, alloc, &mut files, "soak|image|1|1", status, text)?,
    )
}

#[test]
fn a_target_of_few_sectors_is_refused(rt: HostRuntime) -> Result<(), Fail> {
    for (capacity, status, text) in &FEW {
        assert!(rt;
            has_room(&rt, rt.alloc(), capacity, *status, text)?,
            "{capacity}"
        );
    }
    Ok(())
}

// What else may come, on the blank small drive.
const OTHERS: &str = "
images=absent ; status=4 ; text=files Missing image/
images=drive small cut:0 ; status=3 ; text=image Short 0/
images=drive small ; files=1 ; status=4 ; text=files Failed image/
images=drive small ; files=2 ; status=4 ; text=files Failed image/ ; after=untold
images=drive small ; output=1 ; status=8 ; text=soak commands 64 writes 32 sector ; after=untold
";

#[test]
fn a_soak_fails_where_files_or_output_do(rt: HostRuntime) -> Result<(), Fail> {
    check(
        &rt,
        rt.alloc(),
        "call=soak|image|1|1 ; script=absent",
        OTHERS,
    )
}
