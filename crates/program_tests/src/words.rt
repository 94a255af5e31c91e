//! Words that are no command, and words that can't be had.

use crate::harness::{check, words_of};
use pblk_cli::pblk_program;
use pblk_outside::{MemoryFiles, MemorySink, WordsErr};
use std::alloc::{AllocError, Global};
use std::process::ExitCode;
use std::sync::Wait;
use std::test::Fail;
use std::thread::Threads;

// Words that touch no file, whether there is an image or not.
const REFUSED: &str = "
call=
call=image
call=Create|image
call=geometri|image
call=-h
call=--help
call=geometry|--help
call=show
call=report|image|image
call=certify|image
call=certify|image|certificate|more
call=check|image|
call=check|image|-
call=check|image|certificate|--lanes|1
call=soak
call=soak|image
call=soak|image|1
call=soak|image|1|1|1
call=soak||1|1
call=soak|image|1|0
call=soak|image|1|3126
call=soak|image|01|1
call=soak|image|18446744073709551616|1
call=soak|image|1|1|--lanes|2
call=soak|image|-1|1
call=parity|image
call=parity|image|
call=parity|image|-p
call=parity|image|kept|more
call=parity|image|kept|--lanes|1
call=rebuild|image|kept
call=rebuild|image|kept|01
call=rebuild|image|kept|4294967296
call=rebuild|image|kept|1|1
call=rebuild|image||1
call=create
call=geometry
call=run|image
call=run
call=create|image|image
call=geometry|image|image
call=run|image|script|script
call=create|
call=run|image|
call=run||script
call=create|image|--groups
call=create|image|--groups|
call=create|image|--groups=
call=create|image|--groups|1|--groups|1
call=create|image|--groups=1|--groups=1
call=create|image|--lines|8
call=geometry|image|--groups|1
call=run|image|script|--lanes
call=run|image|script|--lanes|9
call=run|image|script|--lanes|-1
call=run|image|--lanes=1|script|--lanes|1
call=run|image|script|--collector=1
call=run|--collector|image|script|--collector
call=show|image|--lanes|1
call=create|image|--collector
call=create|image|--groups|65536
call=create|image|--units=65536
call=create|image|--blocks|4294967296
call=create|image|--capacity|18446744073709551616
call=create|image|--ring|064
call=create|image|--mw|-8
call=run|image|script|--stop|0:0:1
call=run|image|script|--stop|4294967296:1:1
call=run|image|--stop|0:4294967296:1|script
call=run|--stop=0:1:4294967296|image|script
call=run|image|script|--stop|0:1
call=run|image|script|--stop|0:1:1:1
call=run|image|script|--stop=0::1
call=run|image|script|--stop|0:01:1
call=run|image|script|--stop|+0:1:1
call=run|image|script|--stop|
call=run|image|script|--stop=
call=run|image|script|--stop
call=run|image|script|--stop|-1:1:1
call=run|image|script|--stop|0:1:1|--stop=0:1:1
call=run|image|--stop|0:1:1
call=create|image|--stop|0:1:1
call=geometry|image|--stop=0:1:1
call=show|image|--stop|0:1:1
call=report|--stop|0:1:1|image
call=run|image|script|--fail
call=run|image|script|--fail|p:0:1
call=run|image|script|--fail=f:0:1:0
call=run|image|--fail|s:0:1|script
call=run|image|script|--fail|r:0:4294967296
call=create|image|--fail|f:0:1
";

#[test]
fn words_that_are_no_command_touch_no_file(rt: HostRuntime) -> Result<(), Fail> {
    check(
        &rt,
        rt.alloc(),
        "images=drive small, absent ; script=thread/r 0 1/ ; status=1 ; text=words/",
        REFUSED,
    )
}

#[test]
fn no_words_are_no_command(rt: HostRuntime) -> Result<(), Fail> {
    let row = "call=no words ; images=absent ; status=1 ; text=words/";
    check(&rt, rt.alloc(), "script=absent", row)
}

// Whether the program ends as told on these words, or without words, where there is no file.
fn ends<R: Threads + Wait + Sync>(
    rt: &R,
    alloc: Global,
    words: Result<Vec<String>, WordsErr>,
    status: u8,
    text: &str,
) -> Result<bool, AllocError> {
    let mut files = MemoryFiles::new(alloc, &[])?;
    let mut out = MemorySink::new(alloc, &[])?;
    let code = pblk_program(rt, alloc, words, &mut files, &mut out);
    Ok(code == ExitCode::from(status) && out.taken() == text.as_bytes())
}

// Words, and how the program ends on them.
const ENDS: [(&str, u8, &str); 3] = [
    ("geometry", 1, "words\n"),
    ("geometry|image", 4, "files Missing image\n"),
    ("create|image", 0, "created 4640\n"),
];

#[test]
fn the_program_ends_with_the_status(rt: HostRuntime) -> Result<(), Fail> {
    for (line, status, text) in &ENDS {
        let words = words_of(rt.alloc(), line)?;
        assert!(rt; ends(&rt, rt.alloc(), Ok(words), *status, text)?, "{line}");
    }
    Ok(())
}

#[test]
fn the_program_ends_where_there_are_no_words(rt: HostRuntime) -> Result<(), Fail> {
    assert!(rt; ends(&rt, rt.alloc(), Err(WordsErr::NotText), 1, "words\n")?);
    assert!(rt; ends(&rt, rt.alloc(), Err(WordsErr::Memory), 7, "memory\n")?);
    Ok(())
}
