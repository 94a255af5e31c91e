//! Files and sinks in memory.

use crate::harness::{Asked, Row, Told, first_wrong};
use pblk_outside::{MemoryFiles, MemorySink, Sink};
use std::alloc::{AllocError, Global};

const FILES: &[(&str, &[u8])] = &[("image", b"old"), ("notes", b"kept")];

const CALLS: &[Row<'static>] = &[
    (Asked::Read("image"), Told::Done, b">old"),
    (Asked::Write("image", b"newer"), Told::Done, b">"),
    (Asked::Read("image"), Told::Done, b">newer"),
    (Asked::Read("absent"), Told::Missing, b">"),
    (Asked::Write("image", b"lost"), Told::Failed, b">"),
    (Asked::Read("image"), Told::Failed, b">"),
    (Asked::Read("image"), Told::Done, b">newer"),
    (Asked::Read("notes"), Told::Done, b">kept"),
];

// Two files, and the fifth and the sixth call fail.
fn two_files(alloc: Global) -> Result<MemoryFiles, AllocError> {
    let mut files = MemoryFiles::new(alloc, &[5, 6])?;
    for (name, bytes) in FILES {
        files.put(name, bytes)?;
    }
    Ok(files)
}

// Whether the first file holds what was written to it, and a file that was not written is absent.
fn is_newer(files: &MemoryFiles) -> bool {
    files.get("image") == Some(b"newer".as_slice()) && files.get("absent").is_none()
}

// Whether all calls go as told, and leave those files.
fn calls_go_right(alloc: Global) -> Result<bool, AllocError> {
    let mut files = two_files(alloc)?;
    let wrong = first_wrong(alloc, &mut files, CALLS)?;
    Ok(wrong.is_none() && is_newer(&files))
}

#[test]
fn files_hold_what_was_written_and_fail_at_chosen_calls(rt: HostRuntime) -> Result<(), AllocError> {
    assert!(rt; calls_go_right(rt.alloc())?);
    Ok(())
}

// A piece, whether it is taken whole, and all that was taken by then.
type Piece<'a> = (&'a [u8], bool, &'a [u8]);

const PIECES: &[Piece<'static>] = &[
    (b"one ", true, b"one "),
    (b"two ", true, b"one two "),
    (b"three", false, b"one two th"),
    (b"!", true, b"one two th!"),
];

// Gives a sink the pieces in order, and says whether all went as told. The third call fails.
fn pieces_go_right(alloc: Global) -> Result<bool, AllocError> {
    let mut sink = MemorySink::new(alloc, &[3])?;
    for (piece, whole, taken) in PIECES {
        if sink.write(piece).is_ok() != *whole || sink.taken() != *taken {
            return Ok(false);
        }
    }
    Ok(true)
}

#[test]
fn a_sink_takes_half_of_a_piece_that_fails(rt: HostRuntime) -> Result<(), AllocError> {
    assert!(rt; pieces_go_right(rt.alloc())?);
    Ok(())
}
