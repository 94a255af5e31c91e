//! The words that a program is given.

use std::alloc::Global;
use std::env::FillError;
use std::rt::Env;
use thiserror::Error;

/// Why a program's words could not be gathered.
#[derive(Clone, Copy, Debug, PartialEq, Eq, Error)]
pub enum WordsErr {
    /// A word is not UTF-8 text.
    #[error("a word is not text")]
    NotText,
    /// There was no memory for the words.
    #[error("out of memory")]
    Memory,
}

/// The words that the program was given after its own name, in order.
///
/// The first word that can't be had decides the error: `NotText` where it isn't UTF-8, and `Memory`
/// for want of memory. Nothing is printed, and the program's own name may be any bytes.
pub fn real_words<R: Env>(alloc: Global, runtime: &R) -> Result<Vec<String>, WordsErr> {
    let mut words = Vec::new(alloc);
    for number in 1..usize::MAX {
        let Some(word) = word_at(alloc, runtime, number)? else {
            break;
        };
        if words.push(word).is_err() {
            return Err(WordsErr::Memory);
        }
    }
    Ok(words)
}

// The word of this number, or none where there are no more. The program's name has number 0.
fn word_at<R: Env>(alloc: Global, runtime: &R, number: usize) -> Result<Option<String>, WordsErr> {
    let mut room = 256usize;
    for _ in 0..usize::BITS {
        let mut bytes = Vec::new(alloc);
        if bytes.resize(room, 0).is_err() {
            return Err(WordsErr::Memory);
        }
        match runtime.arg(number, bytes.as_mut_slice()) {
            Ok(length) => {
                bytes.truncate(length);
                return match String::from_utf8(bytes) {
                    Ok(word) => Ok(Some(word)),
                    Err(_) => Err(WordsErr::NotText),
                };
            }
            Err(FillError::NotPresent) => return Ok(None),
            Err(FillError::TooLong) => room = room.saturating_mul(2),
        }
    }
    Err(WordsErr::Memory)
}
