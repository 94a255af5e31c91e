//! What a line of a script says.

ghost use Rattle.std.specs.Prelude.{◌≡◌, [], ◌∷◌};
ghost use Rattle.std.specs.Option.{option_map};
ghost use Rattle.pblk_model.specs.declared.script.Command.TheVariants as commands;
ghost use Rattle.pblk_model.specs.ScriptText.{Commands, is_name_byte, name_of, said_by, said_in};
ghost use Rattle.run_script.specs.Said.{said_of, is_name};

use crate::number::number_of;
use crate::words::Words;

/// What a line says. The counts are as the line has them, and a name stands in the line: nothing is
/// copied before the line is accepted.
#[derive(Clone, Copy)]
pub(crate) enum Said<'a> {
    /// The next thread begins.
    Thread,
    Write { lba: u64, count: u64, tag: u64 },
    Read { lba: u64, count: u64 },
    Flush,
    Post(&'a str),
    Await(&'a str),
}

/// What a line says, if it has a form of a script's lines.
pub(crate) fn said_in(line: &[u8]) -> Option<Said<'_>>
    ensures { option_map said_of result ≡ said_in line.now }
{
    said_by(Words::of(line))
}

// What the words of a line say.
fn said_by(words: Words<'_>) -> Option<Said<'_>>
    ensures { option_map said_of result ≡ said_by words.entry }
{
    let mut words = words;
    let word = words.next()?;
    let Some(first) = words.next() else {
        return said_alone(word);
    };
    let Some(second) = words.next() else {
        return said_of_name(word, first);
    };
    let Some(third) = words.next() else {
        return said_of_range(word, first, second);
    };
    if words.next().is_some() {
        return None;
    }
    said_of_tag(word, first, second, third)
}

// What a lone word says.
fn said_alone<'a>(word: &[u8]) -> Option<Said<'a>>
    ensures { option_map said_of result ≡ said_by (word.now ∷ []) }
{
    if word == b"thread".as_slice() {
        Some(Said::Thread)
    } else if word == b"f".as_slice() {
        Some(Said::Flush)
    } else {
        None
    }
}

// What a word and a name say.
fn said_of_name<'a>(word: &[u8], name: &'a [u8]) -> Option<Said<'a>>
    ensures { option_map said_of result ≡ said_by (word.now ∷ name.now ∷ []) }
{
    if word == b"post".as_slice() {
        post_of(name_of(name))
    } else if word == b"await".as_slice() {
        await_of(name_of(name))
    } else {
        None
    }
}

// The post of a name.
fn post_of(name: Option<&str>) -> Option<Said<'_>>
    ensures { option_map said_of result
        ≡ option_map (λ name. Commands (commands.Post name.now)) name.entry }
{
    match name {
        Some(name) => Some(Said::Post(name)),
        None => None,
    }
}

// The await of a name.
fn await_of(name: Option<&str>) -> Option<Said<'_>>
    ensures { option_map said_of result
        ≡ option_map (λ name. Commands (commands.Await name.now)) name.entry }
{
    match name {
        Some(name) => Some(Said::Await(name)),
        None => None,
    }
}

// What a word and the two numbers of a range say.
fn said_of_range<'a>(word: &[u8], lba: &[u8], count: &[u8]) -> Option<Said<'a>>
    ensures { option_map said_of result ≡ said_by (word.now ∷ lba.now ∷ count.now ∷ []) }
{
    if word != b"r".as_slice() {
        return None;
    }
    let lba = number_of(lba)?;
    let count = number_of(count)?;
    Some(Said::Read { lba, count })
}

// What a word, a range and a tag say.
fn said_of_tag<'a>(word: &[u8], lba: &[u8], count: &[u8], tag: &[u8]) -> Option<Said<'a>>
    ensures { option_map said_of result ≡ said_by (word.now ∷ lba.now ∷ count.now ∷ tag.now ∷ []) }
{
    if word != b"w".as_slice() {
        return None;
    }
    let lba = number_of(lba)?;
    let count = number_of(count)?;
    let tag = number_of(tag)?;
    Some(Said::Write { lba, count, tag })
}

// The name that a word is: 1 to 16 lower-case letters or digits.
fn name_of(word: &[u8]) -> Option<&str>
    ensures { option_map (λ name. name.now) result ≡ name_of word.now }
{
    if !is_name(word) {
        return None;
    }
    let Ok(name) = std::str::from_utf8(word) else {
        return None;
    };
    Some(name)
}

// Whether a word is a name.
fn is_name(word: &[u8]) -> bool
    ensures { result ≡ is_name word.now }
{
    !word.is_empty() && word.len() <= 16 && word.iter().all(|byte| is_name_byte(*byte))
}

// Whether a name can have this byte.
fn is_name_byte(byte: u8) -> bool
    ensures { result ≡ is_name_byte byte }
{
    matches!(byte, b'0'..=b'9' | b'a'..=b'z')
}
