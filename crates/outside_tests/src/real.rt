//! The system's files. Each test has a folder of its own.

use crate::failing::Failing;
use crate::folder::{make, take_away};
use crate::harness::{Asked, Row, Told, first_wrong};
use pblk_outside::{FileErr, Files, RealFiles};
use std::alloc::AllocError;
use std::cell::Cell;
use std::io::{Error, ErrorKind};
use std::os::unix::fs::symlink;
use std::{fs, io};

const FOLDERS: &[&str] = &["real", "real/folder"];

const FILES: &[(&str, &str)] = &[("real/file", "kept"), ("real/.pblk-0", "another's")];

const CALLS: &[Row<'static>] = &[
    (Asked::Read("real/image"), Told::Missing, b">"),
    (
        Asked::Write("real/image", b"longer than what follows"),
        Told::Done,
        b">",
    ),
    (
        Asked::Read("real/image"),
        Told::Done,
        b">longer than what follows",
    ),
    (Asked::Write("real/image", b"short"), Told::Done, b">"),
    (Asked::Read("real/image"), Told::Done, b">short"),
    (Asked::Write("real/image", b""), Told::Done, b">"),
    (Asked::Read("real/image"), Told::Done, b">"),
    (Asked::Read("real/.pblk-0"), Told::Done, b">another's"),
    (Asked::Write("", b"no"), Told::Failed, b">"),
    (Asked::Write("real", b"no"), Told::Failed, b">"),
    (Asked::Write("real/folder", b"no"), Told::Failed, b">"),
    (Asked::Write("real/folder/", b"no"), Told::Failed, b">"),
    (Asked::Write("real/folder/.", b"no"), Told::Failed, b">"),
    (Asked::Write("real/to_folder", b"no"), Told::Failed, b">"),
    (Asked::Write("real/new/", b"no"), Told::Failed, b">"),
    (Asked::Write("real/absent/new", b"no"), Told::Failed, b">"),
    (Asked::Write("real/file/new", b"no"), Told::Failed, b">"),
    (Asked::Write("real/nul\0", b"no"), Told::Failed, b">"),
    (Asked::Write("/dev/null", b"no"), Told::Failed, b">"),
    (Asked::Write("/dev/full", b"no"), Told::Failed, b">"),
    (Asked::Read("real/folder"), Told::Failed, b">"),
    (Asked::Read("real/file/new"), Told::Failed, b">"),
    (Asked::Read("real/absent/new"), Told::Missing, b">"),
    (Asked::Read("real/file"), Told::Done, b">kept"),
];

// All that is there after these calls, but for the folders.
const LEFT: &[&str] = &["real/file", "real/.pblk-0", "real/image", "real/to_folder"];

fn first_wrong_call(rt: HostRuntime) -> Result<Option<usize>, AllocError> {
    let mut files = RealFiles::new(rt.alloc(), rt)?;
    first_wrong(rt.alloc(), &mut files, CALLS)
}

#[test]
fn a_file_is_replaced_whole_and_what_is_no_file_is_not(rt: HostRuntime) -> io::Result<()> {
    make(rt, FOLDERS, FILES)?;
    symlink(&rt, "folder", "real/to_folder")?;
    let wrong = first_wrong_call(rt)?;
    assert!(rt; wrong.is_none(), "row {wrong:?}");
    take_away(rt, LEFT, &["real/folder", "real"])
}

// Whether a write fails when its nth call of the system fails.
fn write_fails(rt: HostRuntime, nth: u32) -> Result<bool, AllocError> {
    let left = Cell::new(nth);
    let runtime = Failing {
        real: rt,
        left: &left,
    };
    let mut files = RealFiles::new(rt.alloc(), runtime)?;
    Ok(files.write("failing/image", b"new") == Err(FileErr::Failed))
}

// Whether the file is whole: the old one after a failure, and else the new one.
fn is_whole(rt: HostRuntime, failed: bool) -> io::Result<bool> {
    let wanted: &[u8] = if failed { b"old" } else { b"new" };
    Ok(fs::read(&rt, "failing/image")?.as_slice() == wanted)
}

// Whether a write over a file fails when its nth call fails, and the file is then whole, with nothing
// beside it.
fn fails_alone(rt: HostRuntime, nth: u32) -> io::Result<bool> {
    make(rt, &["failing"], &[("failing/image", "old")])?;
    let failed = write_fails(rt, nth)?;
    if !is_whole(rt, failed)? {
        return Err(Error::from(ErrorKind::InvalidData));
    }
    take_away(rt, &["failing/image"], &["failing"])?;
    Ok(failed)
}

#[test]
fn a_write_that_fails_at_any_call_leaves_the_old_file(rt: HostRuntime) -> io::Result<()> {
    let mut failed = 0usize;
    for nth in 1u32..30 {
        if fails_alone(rt, nth)? {
            failed = failed.saturating_add(1);
        }
    }
    // Two looks at what is there, two openings, two writes, and the new file's owner, permissions,
    // storing and place.
    assert!(rt; failed == 10, "{failed}");
    Ok(())
}
