//! Tables of calls of the program, and the loop that goes over them.
//!
//! A table is lines. One that begins with `#` is a comment, and each other a row. A row has parts
//! `NAME=VALUE`, parted by ` ; `. A part that it lacks is the usual one of its table:
//!
//! - `call`: the words of a command line, parted by `|`; or `no words`.
//! - `images`: what the file `image` may hold before, parted by `, `; or `left`, what the row
//!   before left.
//! - `script`: what the file `script` holds; it is absent without the part.
//! - `files` and `output`: which call of the files, or of the output, is to fail, counted from 1;
//!   none without the part.
//! - `status` and `text`: how the call ends on each of these images: its status, 0 without the
//!   part, and what is written.
//! - `after`: what the file `image` holds then; without the part what it held before; or `untold`.
//!
//! A file is `absent`; or it holds the image of a drive, as `drive` and the drive's name, then the
//! lines of its history, as `SECTOR=TAG`, bytes that are put into it, as `BYTE@PLACE` (a place past
//! its end lengthens it with zeros), and last the length that it is cut or filled with zeros to, as
//! `cut:LENGTH`; or else it holds a text. In texts and in words `/` ends a line.
//!
//! The script, and a file `other`, are to be as they were.

use crate::drives::{Write, drive, image};
use pblk_cli::pblk_main;
use pblk_outside::{MemoryFiles, MemorySink};
use std::alloc::{AllocError, Global};
use std::sync::Wait;
use std::test::Fail;
use std::thread::Threads;

/// Makes the calls of a table's rows, each of which has the usual parts where it lacks its own.
/// Fails with the first row that doesn't go as told, and names what went otherwise.
pub(crate) fn check<R: Threads + Wait + Sync>(
    rt: &R,
    alloc: Global,
    usual: &str,
    table: &str,
) -> Result<(), Fail> {
    let mut files = MemoryFiles::new(alloc, &[])?;
    for line in table.split('\n') {
        if !line.is_empty() && !line.starts_with('#') {
            check_row(rt, alloc, &mut files, usual, line)?;
        }
    }
    Ok(())
}

fn check_row<R: Threads + Wait + Sync>(
    rt: &R,
    alloc: Global,
    files: &mut MemoryFiles,
    usual: &str,
    line: &str,
) -> Result<(), Fail> {
    let row = format!(in alloc; "{line} ; {usual}")?;
    let wrong = wrong_row(rt, alloc, files, &row)?;
    if wrong.is_empty() {
        return Ok(());
    }
    Err(Fail::new(format!(in alloc; "{wrong}: {line}")?))
}

// The value of the first part of this name in a row.
fn value<'a>(row: &'a str, name: &str, otherwise: &'a str) -> &'a str {
    for part in row.split(" ; ") {
        if let Some((known, value)) = part.split_once('=') {
            if known == name {
                return value;
            }
        }
    }
    otherwise
}

/// A number; the greatest, where the text is none.
pub(crate) fn number(text: &str) -> u64 {
    text.parse::<u64>().unwrap_or(u64::MAX)
}

// The names that a row's parts may have.
static NAMES: &[&str] = &[
    "call", "images", "script", "files", "output", "status", "text", "after",
];

// Whether all parts of a row have such names.
fn has_known_names(row: &str) -> bool {
    for part in row.split(" ; ") {
        match part.split_once('=') {
            Some((name, _)) if NAMES.contains(&name) => {}
            _ => return false,
        }
    }
    true
}

// The name of what of a row doesn't go as told, if any.
fn wrong_row<R: Threads + Wait + Sync>(
    rt: &R,
    alloc: Global,
    files: &mut MemoryFiles,
    row: &str,
) -> Result<&'static str, AllocError> {
    if !has_known_names(row) {
        return Ok("names");
    }
    for image in value(row, "images", "").split(", ") {
        let wrong = wrong_call(rt, alloc, files, row, image)?;
        if !wrong.is_empty() {
            return Ok(wrong);
        }
    }
    Ok("")
}

// The same for its call on one image.
fn wrong_call<R: Threads + Wait + Sync>(
    rt: &R,
    alloc: Global,
    files: &mut MemoryFiles,
    row: &str,
    image: &str,
) -> Result<&'static str, AllocError> {
    begin(alloc, files, row, image)?;
    let mut out = MemorySink::new(alloc, &[number(value(row, "output", "0"))])?;
    let status = call(rt, alloc, value(row, "call", ""), files, &mut out)?;
    if u64::from(status) != number(value(row, "status", "0")) {
        return Ok("status");
    }
    if !is_text(alloc, out.taken(), value(row, "text", ""))? {
        return Ok("text");
    }
    wrong_file(alloc, files, row, image)
}

fn is_text(alloc: Global, bytes: &[u8], text: &str) -> Result<bool, AllocError> {
    Ok(text_of(alloc, text)?.as_bytes() == bytes)
}

/// Calls the program, which gives its status.
pub(crate) fn call<R: Threads + Wait + Sync>(
    rt: &R,
    alloc: Global,
    line: &str,
    files: &mut MemoryFiles,
    out: &mut MemorySink,
) -> Result<u8, AllocError> {
    let words = words_of(alloc, line)?;
    Ok(pblk_main(rt, alloc, &words, files, out))
}

// The files before a call.
fn begin(alloc: Global, files: &mut MemoryFiles, row: &str, image: &str) -> Result<(), AllocError> {
    if image != "left" {
        *files = MemoryFiles::new(alloc, &[number(value(row, "files", "0"))])?;
    }
    put_all(alloc, files, row, image)
}

fn put_all(
    alloc: Global,
    files: &mut MemoryFiles,
    row: &str,
    image: &str,
) -> Result<(), AllocError> {
    put(alloc, files, "image", image)?;
    put(alloc, files, "script", value(row, "script", "absent"))?;
    files.put("other", b"other")
}

// The name of what of the files isn't as told after a call, if any.
fn wrong_file(
    alloc: Global,
    files: &MemoryFiles,
    row: &str,
    image: &str,
) -> Result<&'static str, AllocError> {
    let after = value(row, "after", image);
    if after == "untold" {
        return Ok("");
    }
    let mut told = MemoryFiles::new(alloc, &[])?;
    put_all(alloc, &mut told, row, after)?;
    Ok(first_other(files, &told))
}

// The name of the first file that differs between the two, if any.
fn first_other(files: &MemoryFiles, told: &MemoryFiles) -> &'static str {
    for name in ["image", "script", "other"] {
        if files.get(name) != told.get(name) {
            return name;
        }
    }
    ""
}

/// The words of a line.
pub(crate) fn words_of(alloc: Global, line: &str) -> Result<Vec<String>, AllocError> {
    let mut words = Vec::new(alloc);
    if line != "no words" {
        for word in line.split('|') {
            add_word(alloc, &mut words, word)?;
        }
    }
    Ok(words)
}

fn add_word(alloc: Global, words: &mut Vec<String>, word: &str) -> Result<(), AllocError> {
    words.push(text_of(alloc, word)?)?;
    Ok(())
}

/// A text in which `/` ends a line.
pub(crate) fn text_of(alloc: Global, text: &str) -> Result<String, AllocError> {
    text.replace(alloc, '/', "\n")
}

// Makes a file hold this, unless it is absent, or was left by an earlier call.
fn put(alloc: Global, files: &mut MemoryFiles, name: &str, held: &str) -> Result<(), AllocError> {
    if held == "absent" || held == "left" {
        return Ok(());
    }
    match held.strip_prefix("drive ") {
        Some(parts) => files.put(name, &image_of(alloc, parts)?),
        None => files.put(name, text_of(alloc, held)?.as_bytes()),
    }
}

// The image of a drive. Where there is none of the name it is empty.
fn image_of(alloc: Global, told: &str) -> Result<Vec<u8>, AllocError> {
    let (name, parts) = told.split_once(' ').unwrap_or((told, ""));
    let Some(numbers) = drive(name) else {
        return Ok(Vec::new(alloc));
    };
    let mut bytes = image(alloc, numbers, &history_of(alloc, parts)?)?;
    for part in parts.split(' ') {
        edit(&mut bytes, part)?;
    }
    Ok(bytes)
}

// The lines of a history among the parts of an image.
fn history_of(alloc: Global, parts: &str) -> Result<Vec<Write>, AllocError> {
    let mut history = Vec::new(alloc);
    for part in parts.split(' ') {
        if let Some((lba, tag)) = part.split_once('=') {
            history.push((number(lba), number(tag)))?;
        }
    }
    Ok(history)
}

// Puts a byte at its place, or cuts an image, where a part says so.
fn edit(bytes: &mut Vec<u8>, part: &str) -> Result<(), AllocError> {
    if let Some((byte, place)) = part.split_once('@') {
        put_byte(bytes, number(place) as usize, number(byte).to_le_bytes()[0])?;
    }
    match part.strip_prefix("cut:") {
        Some(length) => bytes.resize(number(length) as usize, 0),
        None => Ok(()),
    }
}

// Puts a byte at a place. An image that ends before it is filled with zeros up to there.
fn put_byte(bytes: &mut Vec<u8>, place: usize, byte: u8) -> Result<(), AllocError> {
    if bytes.len() <= place {
        bytes.resize(place.saturating_add(1), 0)?;
    }
    if let Some(old) = bytes.get_mut(place) {
        *old = byte;
    }
    Ok(())
}
