//! Scripts at their limits.

use crate::script::harness::{add_lines, counted};
use std::alloc::{AllocError, Global};
use std::test::Fail;

// Lines, how often each is repeated, and what is told of them.
const ROWS: &[(&[(&[u8], u32)], &str)] = &[
    (&[(b"thread", 16)], "16 threads, 0 commands"),
    (&[(b"thread", 17)], "Limit 17"),
    (&[(b"thread", 17), (b"thread x", 1)], "Limit 17"),
    (
        &[(b"thread", 1), (b"f", 200_000)],
        "1 threads, 200000 commands",
    ),
    (
        &[
            (b"thread", 1),
            (b"f", 100_000),
            (b"thread", 1),
            (b"r 0 1", 100_000),
            (b"#", 9),
        ],
        "2 threads, 200000 commands",
    ),
    (&[(b"thread", 1), (b"f", 200_001)], "Limit 200002"),
    (
        &[
            (b"thread", 1),
            (b"f", 100_000),
            (b"thread", 1),
            (b"", 5),
            (b"f", 100_000),
            (b"r 64 1", 1),
        ],
        "Limit 200008",
    ),
    (
        &[(b"thread", 1), (b"f", 200_000), (b"thread", 1)],
        "2 threads, 200000 commands",
    ),
    (&[(b"thread", 1), (b"f", 200_000), (b"x", 1)], "Form 200002"),
    (
        &[
            (b"thread", 1),
            (b"f", 1),
            (b"#", 2_097_146),
            (b"", 6),
            (b"f", 1),
        ],
        "Limit 2097155",
    ),
];

#[test]
fn limits_are_kept(rt: HostRuntime) -> Result<(), Fail> {
    for &(lines, says) in ROWS {
        let mut bytes = Vec::new(rt.alloc());
        for (line, times) in lines {
            add_lines(&mut bytes, line, *times)?;
        }
        assert_eq!(rt; counted(rt.alloc(), &bytes, 64)?.as_str(), says);
    }
    Ok(())
}

// A first line `thread`, a comment, and a last line that begins at an offset.
fn from_offset(alloc: Global, offset: u32, last: &[u8]) -> Result<Vec<u8>, AllocError> {
    let mut bytes = Vec::new(alloc);
    add_lines(&mut bytes, b"thread", 1)?;
    for _ in 0..offset.saturating_sub(8) {
        bytes.push(b'#')?;
    }
    bytes.push(b'\n')?;
    bytes.extend_from_slice(last)?;
    Ok(bytes)
}

// Where a last line begins, the line, and what is told.
const OFFSETS: &[(u32, &[u8], &str)] = &[
    (4_194_303, b"f", "1 threads, 1 commands"),
    (4_194_304, b"f", "Limit 3"),
    (4_194_303, b"thread\n", "2 threads, 0 commands"),
    (4_194_304, b"thread\n", "Limit 3"),
    (4_194_304, b"x", "Form 3"),
    (4_194_304, b"r 64 1", "Limit 3"),
    (4_194_303, b"r 64 1", "Range 3"),
    (4_194_304, b"", "1 threads, 0 commands"),
    (4_194_304, b"# more\n\n#\n", "1 threads, 0 commands"),
    (4_194_305, b"await x", "Limit 3"),
];

#[test]
fn lines_begin_early(rt: HostRuntime) -> Result<(), Fail> {
    for &(offset, last, says) in OFFSETS {
        let bytes = from_offset(rt.alloc(), offset, last)?;
        assert_eq!(rt; counted(rt.alloc(), &bytes, 64)?.as_str(), says, "{offset}");
    }
    Ok(())
}

// Two threads of which each waits for the other at each of its commands, and the later one begins.
fn in_turns(alloc: Global, rounds: u32) -> Result<Vec<u8>, AllocError> {
    let mut bytes = Vec::new(alloc);
    add_lines(&mut bytes, b"thread", 1)?;
    for round in 0..rounds {
        let lines = format!(in alloc; "await a{round}\npost b{round}\n")?;
        bytes.extend_from_slice(lines.as_bytes())?;
    }
    add_lines(&mut bytes, b"thread", 1)?;
    for round in 0..rounds {
        let lines = format!(in alloc; "post a{round}\nawait b{round}\n")?;
        bytes.extend_from_slice(lines.as_bytes())?;
    }
    add_lines(&mut bytes, b"thread", 14)?;
    Ok(bytes)
}

#[test]
fn turns_end_in_time(rt: HostRuntime) -> Result<(), Fail> {
    let bytes = in_turns(rt.alloc(), 50_000)?;
    assert_eq!(rt;
        counted(rt.alloc(), &bytes, 64)?.as_str(),
        "16 threads, 200000 commands"
    );
    Ok(())
}
