//! The words that a program is given.

use pblk_outside::{WordsErr, real_words};
use std::alloc::Global;
use std::env::FillError;
use std::rt::Env;

// An environment with these words, of which the first is the program's name.
#[derive(Drop)]
struct Given<'a> {
    words: &'a [&'a [u8]],
}

impl Env for Given<'_> {
    fn arg(&self, i: usize, buf: &mut [u8]) -> Result<usize, FillError> {
        let Some(word) = self.words.get(i) else {
            return Err(FillError::NotPresent);
        };
        let Some(room) = buf.get_mut(..word.len()) else {
            return Err(FillError::TooLong);
        };
        room.copy_from_slice(word);
        Ok(word.len())
    }

    fn var(&self, _name: &str, _buf: &mut [u8]) -> Result<usize, FillError> {
        Err(FillError::NotPresent)
    }

    fn var_at(&self, _i: usize, _buf: &mut [u8]) -> Result<usize, FillError> {
        Err(FillError::NotPresent)
    }
}

const LONG: [u8; 300] = [b'x'; 300];

// All words, and those after the name, or none where a word is no text.
type Row<'a> = (&'a [&'a [u8]], Option<&'a [&'a [u8]]>);

const ROWS: &[Row<'static>] = &[
    (&[], Some(&[])),
    (&[b"\xff"], Some(&[])),
    (
        &[b"pblk", b"run", b"", b"a b\nc"],
        Some(&[b"run", b"", b"a b\nc"]),
    ),
    (&[b"pblk", b"\xc3\xa9"], Some(&[b"\xc3\xa9"])),
    (&[b"pblk", &LONG, b"end"], Some(&[&LONG, b"end"])),
    (&[b"pblk", b"\xff"], None),
    (&[b"pblk", b"run", b"a\xc3"], None),
    (&[b"pblk", b"\xed\xa0\x80", b"run"], None),
];

// Whether the words after the name are these, or are refused since one is no text.
fn goes_right(alloc: Global, row: Row<'_>) -> bool {
    let (words, wanted) = row;
    match (real_words(alloc, &Given { words }), wanted) {
        (Ok(gathered), Some(wanted)) => are(&gathered, wanted),
        (Err(error), None) => error == WordsErr::NotText,
        _ => false,
    }
}

fn are(gathered: &[String], wanted: &[&[u8]]) -> bool {
    if gathered.len() != wanted.len() {
        return false;
    }
    for number in 0..wanted.len() {
        if gathered[number].as_bytes() != wanted[number] {
            return false;
        }
    }
    true
}

#[test]
fn words_are_those_after_the_name_if_all_are_text(rt: HostRuntime) {
    for row in ROWS {
        assert!(rt; goes_right(rt.alloc(), *row));
    }
}
