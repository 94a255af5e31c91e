//! Calls of the program, over files and an output in memory.

use pblk_cli::pblk_main;
use pblk_outside::{MemoryFiles, MemorySink};
use std::alloc::{AllocError, Global};
use std::sync::Wait;
use std::test::Fail;
use std::thread::Threads;

/// What a call of the program told.
#[derive(Drop)]
pub(crate) struct Told {
    /// Its status.
    pub(crate) status: u8,
    /// What it printed.
    pub(crate) text: String,
}

/// A number; the greatest, where the text is none.
pub(crate) fn number(text: &str) -> u64 {
    text.parse::<u64>().unwrap_or(u64::MAX)
}

/// Calls the program. The words of a line are parted by spaces.
pub(crate) fn call<R: Threads + Wait + Sync>(
    rt: &R,
    alloc: Global,
    files: &mut MemoryFiles,
    line: &str,
) -> Result<Told, Fail> {
    let mut words = Vec::new(alloc);
    for word in line.split(' ') {
        words.push(String::from_str(alloc, word)?)?;
    }
    let mut out = MemorySink::new(alloc, &[])?;
    let status = pblk_main(rt, alloc, &words, files, &mut out);
    match std::str::from_utf8(out.taken()) {
        Ok(text) => Ok(Told {
            status,
            text: String::from_str(alloc, text)?,
        }),
        Err(_) => Err(Fail::new("other bytes")),
    }
}

/// The image that `create` makes by these words after its name.
pub(crate) fn created<R: Threads + Wait + Sync>(
    rt: &R,
    alloc: Global,
    options: &str,
) -> Result<Vec<u8>, Fail> {
    let mut files = MemoryFiles::new(alloc, &[])?;
    let line = format!(in alloc; "create image{options}")?;
    let told = call(rt, alloc, &mut files, &line)?;
    match files.get("image") {
        Some(bytes) if told.status == 0 => Ok(Vec::from_slice(alloc, bytes)?),
        _ => Err(Fail::new("no image")),
    }
}

/// Files with this image and this script.
pub(crate) fn files_of(
    alloc: Global,
    image: &[u8],
    script: &str,
) -> Result<MemoryFiles, AllocError> {
    let mut files = MemoryFiles::new(alloc, &[])?;
    files.put("image", image)?;
    files.put("script", script.as_bytes())?;
    Ok(files)
}

/// Runs a script on an image, with these options.
pub(crate) fn run<R: Threads + Wait + Sync>(
    rt: &R,
    alloc: Global,
    image: &[u8],
    script: &str,
    options: &str,
) -> Result<Told, Fail> {
    let mut files = files_of(alloc, image, script)?;
    let line = format!(in alloc; "run image script{options}")?;
    call(rt, alloc, &mut files, &line)
}
