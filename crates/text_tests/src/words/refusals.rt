//! The lines of refusals, and what `create` and `geometry` print.

use command_text::{
    created_text, geometry_text, tell_failed, tell_image, tell_memory, tell_missing, tell_script,
    tell_words,
};
use ocssd_drive::{Drive, Geometry};
use pblk_model::{GeometryErr, ImageErr, ScriptErr};
use pblk_outside::MemorySink;
use std::alloc::{AllocError, Global};
use std::test::Fail;

// A refusal.
#[derive(Clone, Copy, Debug)]
enum Refusal<'a> {
    Words,
    Memory,
    Image(ImageErr),
    Script(ScriptErr),
    Failed(&'a str),
    Missing(&'a str),
}

// What a sink takes of a refusal's line, where the sink's calls with these numbers fail.
fn said(alloc: Global, refusal: Refusal<'_>, failing: &[u64]) -> Result<MemorySink, AllocError> {
    let mut out = MemorySink::new(alloc, failing)?;
    match refusal {
        Refusal::Words => tell_words(&mut out),
        Refusal::Memory => tell_memory(&mut out),
        Refusal::Image(error) => tell_image(&mut out, &error),
        Refusal::Script(error) => tell_script(&mut out, &error),
        Refusal::Failed(name) => tell_failed(&mut out, name),
        Refusal::Missing(name) => tell_missing(&mut out, name),
    }
    Ok(out)
}

const LINES: [(Refusal<'static>, &str); 25] = [
    (Refusal::Words, "words\n"),
    (Refusal::Memory, "memory\n"),
    (Refusal::Image(ImageErr::Magic), "image Magic\n"),
    (Refusal::Image(ImageErr::Version), "image Version\n"),
    (
        Refusal::Image(ImageErr::Geometry(GeometryErr::Field(132))),
        "image Geometry Field 132\n",
    ),
    (
        Refusal::Image(ImageErr::Geometry(GeometryErr::Profile(8))),
        "image Geometry Profile 8\n",
    ),
    (
        Refusal::Image(ImageErr::Short(18446744073709551615)),
        "image Short 18446744073709551615\n",
    ),
    (Refusal::Image(ImageErr::Short(0)), "image Short 0\n"),
    (Refusal::Image(ImageErr::Long), "image Long\n"),
    (
        Refusal::Image(ImageErr::Chunk {
            unit: 1,
            chunk: 20,
            rule: 3,
        }),
        "image Chunk 1 20 3\n",
    ),
    (Refusal::Image(ImageErr::Settings(4)), "image Settings 4\n"),
    (Refusal::Image(ImageErr::Memory), "memory\n"),
    (Refusal::Script(ScriptErr::Form(1)), "script Form 1\n"),
    (Refusal::Script(ScriptErr::Limit(17)), "script Limit 17\n"),
    (
        Refusal::Script(ScriptErr::Range(4294967295)),
        "script Range 4294967295\n",
    ),
    (
        Refusal::Script(ScriptErr::NeverPosted(2)),
        "script NeverPosted 2\n",
    ),
    (Refusal::Script(ScriptErr::Stuck(3)), "script Stuck 3\n"),
    (Refusal::Script(ScriptErr::Memory), "memory\n"),
    (Refusal::Failed("a"), "files Failed a\n"),
    (Refusal::Missing("a b"), "files Missing a b\n"),
    (Refusal::Missing("a\nb"), "files Missing a\\x0ab\n"),
    (
        Refusal::Failed("\u{1f}\u{7f}\0x"),
        "files Failed \\x1f\\x7f\\x00x\n",
    ),
    (Refusal::Failed("\\x0a"), "files Failed \\x0a\n"),
    (Refusal::Failed("\u{80}é"), "files Failed \u{80}é\n"),
    (Refusal::Failed("end\t"), "files Failed end\\x09\n"),
];

#[test]
fn refusals_are_lines(rt: HostRuntime) -> Result<(), Fail> {
    for (refusal, line) in LINES {
        let out = said(rt.alloc(), refusal, &[])?;
        assert_eq!(rt; out.taken(), line.as_bytes(), "{refusal:?}");
    }
    Ok(())
}

// What is taken where the call of this number fails.
const FAILING: [(u64, &str); 6] = [
    (1, "files "),
    (2, "files Failed a"),
    (3, "files Failed ab\\x"),
    (4, "files Failed ab\\x0a"),
    (5, "files Failed ab\\x0ac"),
    (6, "files Failed ab\\x0ac\n"),
];

#[test]
fn nothing_is_written_after_a_fault(rt: HostRuntime) -> Result<(), Fail> {
    for (call, taken) in FAILING {
        let out = said(rt.alloc(), Refusal::Failed("ab\nc"), &[call])?;
        assert_eq!(rt; out.taken(), taken.as_bytes(), "{call}");
    }
    Ok(())
}

const SMALL: &str =
    "groups 1\nunits 2\nchunks 8\nblocks 24\nws_min 2\nws_opt 4\nmw_cunits 8\nmaxoc 0\nmaxocpu 0\nsector 512\ncapacity 64\nring 64\nfree 16\nopen 0\nclosed 0\noffline 0\n";

// A small drive. None where its numbers aren't accepted.
fn small_drive(alloc: Global) -> Result<Option<Drive>, AllocError> {
    let geometry = Geometry::small();
    match geometry.shape(512, 64, 64).refusal() {
        None => Ok(Some(Drive::new(alloc, geometry, 512, 64, 64)?)),
        Some(_) => Ok(None),
    }
}

#[test]
fn commands_print_their_numbers(rt: HostRuntime) -> Result<(), Fail> {
    let alloc = rt.alloc();
    assert_eq!(rt; created_text(alloc, 8704)?.as_str(), "created 8704\n");
    let Some(drive) = small_drive(alloc)? else {
        panic!(rt; "the small drive is accepted");
    };
    assert_eq!(rt; geometry_text(alloc, &drive)?.as_str(), SMALL);
    Ok(())
}
