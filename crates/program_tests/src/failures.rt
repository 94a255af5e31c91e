//! Programs, fetches and resets that fail, also beside a stop, and drives that wear out.

use crate::blocks::blocks_told;
use crate::copies::COPIED;
use crate::drives::{drive, image};
use crate::harness::{number, text_of};
use crate::loads::{Load, Way, run_load};
use crate::stops::{called, files_of, wrong_stop};
use std::alloc::{AllocError, Global};
use std::sync::Wait;
use std::test::Fail;
use std::thread::Threads;

// A run on the blank small drive: its options, its script, what follows the history in its text,
// and what the image holds then.
#[derive(Clone, Copy)]
struct Failure {
    options: &'static str,
    script: &'static str,
    text: &'static str,
    held: &'static str,
}

static FAILURES: [Failure; 13] = [
    // The program of positions 4 to 7 fails. Its chunk is closed, the other one of its line is
    // padded, and its sectors are written to another line before those that waited.
    Failure {
        options: "--fail|p:0:2:0",
        script: "thread/w 0 16 1/f/",
        text: "f 0 1 16/kept 16/",
        held: "0.0 closed 4 start:1:0 meta meta meta/0.1 open 8 start:2:4 meta meta meta 8@8 9@9 10@10 11@11/1.0 closed 24 0@0 1@1 2@2 3@3 pad pad pad pad pad pad pad pad pad pad pad pad pad pad pad pad pad pad pad pad/1.1 open 8 4@4 5@5 6@6 7@7 12@12 13@13 14@14 15@15/",
    },
    // The first two of its blocks are written: they count, beside those that are written again.
    Failure {
        options: "--fail|p:0:2:1",
        script: "thread/w 0 16 1/f/",
        text: "f 0 1 16/kept 16/",
        held: "0.0 closed 6 start:1:0 meta meta meta 4@4 5@5/0.1 open 8 start:2:4 meta meta meta 8@8 9@9 10@10 11@11/1.0 closed 24 0@0 1@1 2@2 3@3 pad pad pad pad pad pad pad pad pad pad pad pad pad pad pad pad pad pad pad pad/1.1 open 8 4@4 5@5 6@6 7@7 12@12 13@13 14@14 15@15/",
    },
    // No more than all but one of the multiples of WS_MIN are.
    Failure {
        options: "--fail|p:0:2:9",
        script: "thread/w 0 16 1/f/",
        text: "f 0 1 16/kept 16/",
        held: "0.0 closed 6 start:1:0 meta meta meta 4@4 5@5/0.1 open 8 start:2:4 meta meta meta 8@8 9@9 10@10 11@11/1.0 closed 24 0@0 1@1 2@2 3@3 pad pad pad pad pad pad pad pad pad pad pad pad pad pad pad pad pad pad pad pad/1.1 open 8 4@4 5@5 6@6 7@7 12@12 13@13 14@14 15@15/",
    },
    // A start record of which nothing is written: its line has no data.
    Failure {
        options: "--fail|p:0:1:0",
        script: "thread/w 0 4 1/f/",
        text: "f 0 1 4/kept 4/",
        held: "0.0 offline 0/0.1 open 4 start:2:0 meta meta meta/1.1 open 4 0@0 1@1 2@2 3@3/",
    },
    // One of which a half is written: its line is given up, too. A chunk that was closed before its
    // end is Offline once it was reset.
    Failure {
        options: "--fail|p:0:1:1",
        script: "thread/w 0 4 1/f/",
        text: "f 0 1 4/kept 4/",
        held: "0.0 offline 0/0.1 open 4 start:2:0 meta meta meta/1.1 open 4 0@0 1@1 2@2 3@3/",
    },
    // Sectors that are written over while their stripes fail: lines that lose all are freed.
    Failure {
        options: "--fail|p:1:1:0|--fail|p:1:2:0|--fail|p:1:3:0|--fail|p:1:4:0|--fail|p:1:5:0|--fail|p:1:6:0|--fail|p:1:7:0|--fail|p:1:8:0",
        script: "thread/w 0 4 1/w 0 4 2/f/r 0 4/",
        text: "f 0 2 8/r 0 3 8 2 2 2 2/kept 8/",
        held: "0.0 open 12 start:3:0 meta meta meta 0@0 1@1 2@2 3@3 0@4 1@5 2@6 3@7/1.0 offline 0/1.1 offline 0/",
    },
    // An end record: the line keeps all its sectors.
    Failure {
        options: "--fail|p:1:6:0",
        script: "thread/w 0 16 1/w 16 16 1/w 32 12 1/f/",
        text: "f 0 3 44/kept 44/",
        held: "0.0 closed 24 start:1:0 meta meta meta 4@4 5@5 6@6 7@7 12@12 13@13 14@14 15@15 20@20 21@21 22@22 23@23 28@28 29@29 30@30 31@31 36@36 37@37 38@38 39@39/0.1 open 4 start:2:40 meta meta meta/1.0 closed 20 0@0 1@1 2@2 3@3 8@8 9@9 10@10 11@11 16@16 17@17 18@18 19@19 24@24 25@25 26@26 27@27 32@32 33@33 34@34 35@35/1.1 open 4 40@40 41@41 42@42 43@43/",
    },
    Failure {
        options: "--fail|p:1:6:1",
        script: "thread/w 0 16 1/w 16 16 1/w 32 12 1/f/",
        text: "f 0 3 44/kept 44/",
        held: "0.0 closed 24 start:1:0 meta meta meta 4@4 5@5 6@6 7@7 12@12 13@13 14@14 15@15 20@20 21@21 22@22 23@23 28@28 29@29 30@30 31@31 36@36 37@37 38@38 39@39/0.1 open 4 start:2:40 meta meta meta/1.0 closed 22 0@0 1@1 2@2 3@3 8@8 9@9 10@10 11@11 16@16 17@17 18@18 19@19 24@24 25@25 26@26 27@27 32@32 33@33 34@34 35@35 end:1 meta/1.1 open 4 40@40 41@41 42@42 43@43/",
    },
    // Stripes of several lines, and a pad.
    Failure {
        options: "--fail|p:0:2:1|--fail|p:1:3:1|--fail|p:0:4:0",
        script: "thread/w 0 16 1/f/w 16 4 2/f/r 0 16/r 16 4/",
        text: "f 0 1 16/f 0 3 20/r 0 4 20 1 1 1 1 1 1 1 1 1 1 1 1 1 1 1 1/r 0 5 20 2 2 2 2/kept 20/",
        held: "0.0 closed 6 start:1:0 meta meta meta 4@4 5@5/0.1 closed 4 start:2:4 meta meta meta/0.2 open 8 start:3:8 meta meta meta 12@12 13@13 14@14 15@15/1.0 closed 10 0@0 1@1 2@2 3@3 pad pad pad pad pad pad/1.1 closed 24 4@4 5@5 6@6 7@7 pad pad pad pad pad pad pad pad pad pad pad pad pad pad pad pad pad pad pad pad/1.2 open 8 8@8 9@9 10@10 11@11 16@16 17@17 18@18 19@19/",
    },
    // A pad of the line that failed.
    Failure {
        options: "--fail|p:0:2:0|--fail|p:1:2:0",
        script: "thread/w 0 16 1/f/",
        text: "f 0 1 16/kept 16/",
        held: "0.0 closed 4 start:1:0 meta meta meta/0.1 open 8 start:2:4 meta meta meta 8@8 9@9 10@10 11@11/1.0 closed 4 0@0 1@1 2@2 3@3/1.1 open 8 4@4 5@5 6@6 7@7 12@12 13@13 14@14 15@15/",
    },
    // Of two that fall on one command the first counts.
    Failure {
        options: "--fail|p:0:2:0|--fail=p:0:2:1",
        script: "thread/w 0 16 1/f/",
        text: "f 0 1 16/kept 16/",
        held: "0.0 closed 4 start:1:0 meta meta meta/0.1 open 8 start:2:4 meta meta meta 8@8 9@9 10@10 11@11/1.0 closed 24 0@0 1@1 2@2 3@3 pad pad pad pad pad pad pad pad pad pad pad pad pad pad pad pad pad pad pad pad/1.1 open 8 4@4 5@5 6@6 7@7 12@12 13@13 14@14 15@15/",
    },
    Failure {
        options: "--fail|p:0:2:1|--fail=p:0:2:0",
        script: "thread/w 0 16 1/f/",
        text: "f 0 1 16/kept 16/",
        held: "0.0 closed 6 start:1:0 meta meta meta 4@4 5@5/0.1 open 8 start:2:4 meta meta meta 8@8 9@9 10@10 11@11/1.0 closed 24 0@0 1@1 2@2 3@3 pad pad pad pad pad pad pad pad pad pad pad pad pad pad pad pad pad pad pad pad/1.1 open 8 4@4 5@5 6@6 7@7 12@12 13@13 14@14 15@15/",
    },
    // None of these falls on a command: of nth 0, of no unit, and a reset that isn't made.
    Failure {
        options: "--fail|p:0:0:0|--fail|p:2:1:0|--fail|f:0:0|--fail|r:1:1",
        script: "thread/w 0 4 1/f/",
        text: "f 0 1 4/kept 4/",
        held: "0.0 open 4 start:1:0 meta meta meta/1.0 open 4 0@0 1@1 2@2 3@3/",
    },
];

// The history of a script of one thread, in which each write is answered.
fn history_of(alloc: Global, script: &str) -> Result<String, AllocError> {
    let mut history = String::new(alloc);
    let mut lines = 0u64;
    for command in script.split('/') {
        if let Some((lba, rest)) = after(command, "w ") {
            let (count, tag) = rest.split_once(' ').unwrap_or((rest, ""));
            for sector in 0..number(count) {
                let lba = number(lba).saturating_add(sector);
                write!(history, "h {lines} 0 {lba} {tag}/")?;
                lines = lines.saturating_add(1);
            }
        }
    }
    Ok(history)
}

// What follows this in a command: its first word and the rest.
fn after<'a>(command: &'a str, name: &str) -> Option<(&'a str, &'a str)> {
    command.strip_prefix(name)?.split_once(' ')
}

// The name of what of it doesn't go as told, if anything.
fn wrong_failure<R: Threads + Wait + Sync>(
    rt: &R,
    alloc: Global,
    failure: &Failure,
) -> Result<&'static str, AllocError> {
    let Some(small) = drive("small") else {
        return Ok("drive");
    };
    let script = text_of(alloc, failure.script)?;
    let mut files = files_of(alloc, &image(alloc, small, &[])?, &script)?;
    let line = format!(in alloc; "run|image|script|{}", failure.options)?;
    let (status, written) = called(rt, alloc, &mut files, &line)?;
    let mut told = history_of(alloc, failure.script)?;
    told.push_str(failure.text)?;
    if status != 0 {
        return Ok("status");
    }
    if written.as_slice() != text_of(alloc, &told)?.as_bytes() {
        return Ok("text");
    }
    match files.get("image") {
        Some(left) if blocks_told(alloc, left)?.as_str() == failure.held => Ok(""),
        _ => Ok("image"),
    }
}

#[test]
fn a_failure_leaves_its_stripe_to_another_line(rt: HostRuntime) -> Result<(), Fail> {
    for failure in &FAILURES {
        let wrong = wrong_failure(&rt, rt.alloc(), failure)?;
        assert!(rt;
            wrong.is_empty(),
            "{wrong}: {} {}",
            failure.options,
            failure.script
        );
    }
    Ok(())
}

// Stops beside failures on the script of `stops`, and what is told after its history. Where both
// fall on one command the stop counts.
static STOPPED: [(&str, &str); 15] = [
    (
        "--fail|p:0:2:0|--stop|0:2:1",
        "e 0 4 0 2/e close 0 3/kept 6/",
    ),
    (
        "--stop|0:2:1|--fail|p:0:2:0",
        "e 0 4 0 2/e close 0 3/kept 6/",
    ),
    (
        "--fail|p:0:2:0|--stop|0:3:1",
        "e 0 4 0 3/e close 0 4/kept 4/",
    ),
    (
        "--fail|p:0:2:0|--stop|1:3:0",
        "e 0 4 1 3/e close 1 4/kept 4/",
    ),
    (
        "--fail|p:0:2:1|--stop|1:2:1",
        "e 0 4 1 2/e close 1 3/kept 6/",
    ),
    (
        "--fail|p:0:2:1|--stop|1:3:2",
        "e 0 4 1 3/e close 1 4/kept 6/",
    ),
    (
        "--fail|p:1:3:1|--stop|0:4:0",
        "e 0 4 0 4/e close 0 5/kept 18/",
    ),
    (
        "--fail|p:1:3:1|--stop|1:4:1",
        "e 0 4 1 4/e close 1 5/kept 18/",
    ),
    (
        "--fail|p:1:6:0|--stop|0:6:1",
        "e 0 4 0 6/e close 0 7/kept 38/",
    ),
    (
        "--fail|p:1:6:0|--stop|0:7:1",
        "e 0 4 0 7/e close 0 8/kept 40/",
    ),
    (
        "--fail|p:0:7:0|--stop|1:7:1",
        "e 0 4 1 7/e close 1 8/kept 40/",
    ),
    (
        "--fail|p:0:7:1|--stop|0:8:1",
        "e 0 4 0 8/e close 0 9/kept 40/",
    ),
    (
        "--fail|p:0:1:0|--stop|0:2:1",
        "e 0 4 0 2/e close 0 3/kept 0/",
    ),
    (
        "--fail|p:0:1:0|--fail|p:1:1:0|--stop|1:2:2",
        "e 0 4 1 2/e close 1 3/kept 0/",
    ),
    ("--fail|p:0:4:0|--fail|p:1:4:0", "f 0 4 44/kept 44/"),
];

#[test]
fn a_stop_beside_failures_leaves_what_is_kept(rt: HostRuntime) -> Result<(), Fail> {
    for (options, told) in &STOPPED {
        let wrong = wrong_stop(&rt, rt.alloc(), options, told)?;
        assert!(rt; wrong.is_empty(), "{wrong}: {options}");
    }
    Ok(())
}

// Eight rounds over the sectors of the small drive, and a flush.
const ROUNDS: Load = Load {
    drive: "small",
    capacity: 64,
    writes: 32,
    size: 16,
    each: 32,
    tag: 0,
    way: Way::Rounds,
};

// Kinds of commands that fail, what a plan of them says last, and how a run may end but for status
// 0: a fetch that fails may be one that a command of the script asked for.
static KINDS: [(&str, &str, &[u8]); 3] = [("p", ":0", &[6]), ("f", "", &[5, 6]), ("r", "", &[6])];

// Runs a load with each of the first twelve commands of a kind of a unit failing. Gives what
// doesn't go as told, if anything.
fn wrong_kind<R: Threads + Wait + Sync>(
    rt: &R,
    alloc: Global,
    load: &Load,
    blank: &[u8],
    unit: u64,
    kind: (&str, &str, &[u8]),
) -> Result<String, AllocError> {
    let (name, cut, others) = kind;
    for nth in 1..13 {
        let mut files = files_of(alloc, blank, "")?;
        let mut held = load.blank(alloc)?;
        let options = format!(in alloc; "|--fail|{name}:{unit}:{nth}{cut}")?;
        let came = run_load(rt, alloc, &mut files, load, &options, others, &mut held)?;
        if !came.wrong.is_empty() {
            return format!(in alloc; "{}: {options}", came.wrong);
        }
    }
    Ok(String::new(alloc))
}

// The same of each kind and each unit.
fn wrong_load<R: Threads + Wait + Sync>(
    rt: &R,
    alloc: Global,
    load: &Load,
) -> Result<String, AllocError> {
    let Some(numbers) = drive(load.drive) else {
        return String::from_str(alloc, "drive");
    };
    let blank = image(alloc, numbers, &[])?;
    for unit in 0..2 {
        for kind in &KINDS {
            let wrong = wrong_kind(rt, alloc, load, &blank, unit, *kind)?;
            if !wrong.is_empty() {
                return Ok(wrong);
            }
        }
    }
    Ok(String::new(alloc))
}

#[test]
fn a_failure_amid_rounds_leaves_what_is_kept(rt: HostRuntime) -> Result<(), Fail> {
    let wrong = wrong_load(&rt, rt.alloc(), &ROUNDS)?;
    assert!(rt; wrong.is_empty(), "{wrong}");
    Ok(())
}

#[test]
fn a_failure_amid_copies_leaves_what_is_kept(rt: HostRuntime) -> Result<(), Fail> {
    let wrong = wrong_load(&rt, rt.alloc(), &COPIED)?;
    assert!(rt; wrong.is_empty(), "{wrong}");
    Ok(())
}

// What fails in each run on a drive that wears out.
#[derive(Clone, Copy)]
enum Failing {
    // The first reset of a unit.
    Reset,
    // The first eight resets of each unit.
    Resets,
    // One of the first seven programs of a unit.
    Program,
    // Such a program, and the first reset of the next unit.
    Both,
}

// The plans of a run, which is the one of this number, on a drive of so many units.
fn plans(alloc: Global, failing: Failing, run: u64, units: u64) -> Result<String, AllocError> {
    let units = units.max(1);
    let unit = run % units;
    let mut options = String::new(alloc);
    if let Failing::Program | Failing::Both = failing {
        write!(options, "|--fail|p:{unit}:{}:{}", run % 7 + 1, run % 3)?;
    }
    match failing {
        Failing::Reset => write!(options, "|--fail|r:{unit}:1")?,
        Failing::Both => write!(options, "|--fail|r:{}:1", run.saturating_add(1) % units)?,
        Failing::Resets => {
            for each in 0..units.saturating_mul(8) {
                write!(options, "|--fail|r:{}:{}", each / 8, each % 8 + 1)?;
            }
        }
        Failing::Program => (),
    }
    Ok(options)
}

// Writes of one sector over and over.
const ONE_SECTOR: Load = Load {
    drive: "capacity-1",
    capacity: 1,
    writes: 80,
    size: 1,
    each: 20,
    tag: 0,
    way: Way::Rounds,
};

// The same on a drive of one unit.
const ONE_UNIT: Load = Load {
    drive: "unit",
    writes: 100,
    ..ONE_SECTOR
};

// Two rounds over the sectors of the small drive.
const TWO_ROUNDS: Load = Load {
    writes: 8,
    each: 4,
    ..ROUNDS
};

// Loads that are run on a drive until it is worn out, how many units it has, what fails in each
// run, how many runs there are until none of the writes finds room, and how many sectors were
// written before.
static WORN: [(Load, u64, Failing, u64, u64); 9] = [
    (ONE_SECTOR, 2, Failing::Reset, 12, 826),
    (ONE_SECTOR, 2, Failing::Resets, 4, 231),
    (ONE_SECTOR, 2, Failing::Program, 11, 758),
    (ONE_SECTOR, 2, Failing::Both, 6, 381),
    (TWO_ROUNDS, 2, Failing::Reset, 5, 512),
    (TWO_ROUNDS, 2, Failing::Resets, 3, 160),
    (TWO_ROUNDS, 2, Failing::Program, 4, 384),
    (ONE_UNIT, 1, Failing::Reset, 10, 849),
    (ONE_UNIT, 1, Failing::Both, 6, 464),
];

// Runs a load again and again, each time with tags of its own. Gives the name of what doesn't go as
// told, if anything, how many runs there were until none of the writes found room, and how many
// sectors were written.
fn wear_out<R: Threads + Wait + Sync>(
    rt: &R,
    alloc: Global,
    load: &Load,
    units: u64,
    failing: Failing,
) -> Result<(&'static str, u64, u64), AllocError> {
    let Some(numbers) = drive(load.drive) else {
        return Ok(("drive", 0, 0));
    };
    let mut files = files_of(alloc, &image(alloc, numbers, &[])?, "")?;
    let mut held = load.blank(alloc)?;
    let mut written = 0u64;
    for run in 0..40 {
        let load = Load {
            tag: run * 1000,
            ..*load
        };
        let options = plans(alloc, failing, run, units)?;
        let came = run_load(rt, alloc, &mut files, &load, &options, &[6], &mut held)?;
        written = written.saturating_add(came.lines);
        if !came.wrong.is_empty() || came.lines == 0 {
            return Ok((came.wrong, run + 1, written));
        }
    }
    Ok(("no end", 40, written))
}

#[test]
fn a_drive_wears_out_and_keeps_what_is_kept(rt: HostRuntime) -> Result<(), Fail> {
    for (load, units, failing, runs, lines) in &WORN {
        let (wrong, found, written) = wear_out(&rt, rt.alloc(), load, *units, *failing)?;
        assert!(rt; wrong.is_empty(), "{wrong}: {} {found}", load.drive);
        assert_eq!(rt; (found, written), (*runs, *lines), "{}", load.drive);
    }
    Ok(())
}
