//! What is asked of files, and what they tell.

use pblk_outside::{FileErr, Files};
use std::alloc::{AllocError, Global};

/// A call of files.
#[derive(Clone, Copy)]
pub enum Asked<'a> {
    Read(&'a str),
    Write(&'a str, &'a [u8]),
}

/// What a call told.
#[derive(Clone, Copy, PartialEq, Eq)]
pub enum Told {
    Done,
    Failed,
    Missing,
    Memory,
}

// Asks files for a call. What is read is appended to `into`.
fn ask<F: Files>(files: &mut F, asked: Asked<'_>, into: &mut Vec<u8>) -> Told {
    let answer = match asked {
        Asked::Read(name) => files.read(name, into),
        Asked::Write(name, bytes) => files.write(name, bytes),
    };
    match answer {
        Ok(()) => Told::Done,
        Err(FileErr::Failed) => Told::Failed,
        Err(FileErr::Missing) => Told::Missing,
        Err(FileErr::Memory) => Told::Memory,
    }
}

/// A call, what it is to tell, and what is to be in the buffer after it, which has one byte before.
pub type Row<'a> = (Asked<'a>, Told, &'a [u8]);

// Makes a call, and says whether it went as told.
fn goes_right<F: Files>(alloc: Global, files: &mut F, row: Row<'_>) -> Result<bool, AllocError> {
    let (asked, told, left) = row;
    let mut into = vec![in alloc; b'>']?;
    Ok(ask(files, asked, &mut into) == told && into.as_slice() == left)
}

/// Makes the calls in order, and gives the number of the first row that didn't go as told.
pub fn first_wrong<F: Files>(
    alloc: Global,
    files: &mut F,
    rows: &[Row<'_>],
) -> Result<Option<usize>, AllocError> {
    for (number, row) in rows.iter().enumerate() {
        if !goes_right(alloc, files, *row)? {
            return Ok(Some(number));
        }
    }
    Ok(None)
}
