//! What a line of a certificate says.

ghost use Rattle.std.specs.Prelude.{◌≡◌, ◌∷◌, ◌++◌, ◌^◌, ◌≤◌, IfSome, IfNone, OnOk, codes};
ghost use Rattle.pblk_model.specs.Text.{newline, spaced};
ghost use Rattle.image_check.specs.Text.{Says, follows, may_stop, said_line};

use crate::certificate::{Bearer, LineEntry, LiveCount};
use crate::cut::cut_at;
use crate::number::{four_in, one_in, three_in, two_in};
use itoa::Buffer;
use pblk_model::Winner;
use std::alloc::AllocError;

/// What a line says.
#[derive(Clone, Copy, Debug)]
pub(crate) enum Said {
    Head(Option<u32>),
    End(u64),
    Line(LineEntry),
    Bear(Bearer),
    Win(Winner),
    Live(LiveCount),
}

impl Said {
    /// Adds the line that says this to `out`, in ASCII: its word and its numbers, parted by one
    /// space, and a newline.
    pub(crate) fn write(&self, out: &mut Vec<u8>) -> Result<(), AllocError>
        ensures { OnOk result
            (out.new.items ≡ out.old.items ++ (said_line self.now ++ newline)) }
    {
        match *self {
            Said::Head(None) => out.extend_from_slice(b"head none\n"),
            Said::Head(Some(line)) => put_line(out, b"head", &[u64::from(line)]),
            Said::End(position) => put_line(out, b"end", &[position]),
            Said::Line(row) => {
                let full = u64::from(row.full);
                put_line(out, b"line", &[u64::from(row.line), row.seq, full])
            }
            Said::Bear(bearer) => {
                let (line, at) = (u64::from(bearer.line), u64::from(bearer.at));
                put_line(out, b"bear", &[bearer.position, line, at])
            }
            Said::Win(win) => {
                let (line, at) = (u64::from(win.line), u64::from(win.at));
                put_line(out, b"win", &[win.lba, win.position, line, at])
            }
            Said::Live(live) => put_line(out, b"live", &[u64::from(live.line), live.count]),
        }
    }
}

// Adds the line of a word and numbers.
fn put_line(out: &mut Vec<u8>, word: &[u8], numbers: &[u64]) -> Result<(), AllocError>
    ensures { OnOk result
        (out.new.items ≡ out.old.items ++ (word.now ++ spaced numbers.now ++ newline)) }
{
    out.extend_from_slice(word)?;
    for number in numbers {
        let mut digits = Buffer::new();
        out.extend_from_slice(b" ")?;
        out.extend_from_slice(digits.format(*number).as_bytes())?;
    }
    out.extend_from_slice(b"\n")?;
    Ok(())
}

/// What a line says, if it is of the grammar: its word and its numbers, parted by one space.
pub(crate) fn said_in(line: &[u8]) -> Option<Said>
    ensures { Says line.now result }
{
    let (word, rest) = cut_at(line, b' ')?;
    if word == b"head".as_slice() {
        head_in(rest)
    } else if word == b"end".as_slice() {
        end_in(rest)
    } else if word == b"line".as_slice() {
        line_in(rest)
    } else if word == b"bear".as_slice() {
        bear_in(rest)
    } else if word == b"win".as_slice() {
        win_in(rest)
    } else if word == b"live".as_slice() {
        live_in(rest)
    } else {
        None
    }
}

// The line of the head, or `none`.
fn head_in(text: &[u8]) -> Option<Said>
    ensures { Says (codes "head" ++ 32 ∷ text.now) result }
{
    if text == b"none".as_slice() {
        return Some(Said::Head(None));
    }
    let line = small(one_in(text)?)?;
    Some(Said::Head(Some(line)))
}

// The end.
fn end_in(text: &[u8]) -> Option<Said>
    ensures { Says (codes "end" ++ 32 ∷ text.now) result }
{
    let position = one_in(text)?;
    Some(Said::End(position))
}

// A line, its sequence number, and whether its end record is whole.
fn line_in(text: &[u8]) -> Option<Said>
    ensures { Says (codes "line" ++ 32 ∷ text.now) result }
{
    let (line, seq, full) = three_in(text)?;
    let line = small(line)?;
    if full > 1 {
        return None;
    }
    let full = full == 1;
    Some(Said::Line(LineEntry { line, seq, full }))
}

// A position and where it is borne.
fn bear_in(text: &[u8]) -> Option<Said>
    ensures { Says (codes "bear" ++ 32 ∷ text.now) result }
{
    let (position, line, at) = three_in(text)?;
    let line = small(line)?;
    let at = small(at)?;
    Some(Said::Bear(Bearer { position, line, at }))
}

// A sector and where its newest counted record is.
fn win_in(text: &[u8]) -> Option<Said>
    ensures { Says (codes "win" ++ 32 ∷ text.now) result }
{
    let (lba, position, line, at) = four_in(text)?;
    let line = small(line)?;
    let at = small(at)?;
    Some(Said::Win(Winner {
        lba,
        position,
        line,
        at,
    }))
}

// A line and how many of these records it has.
fn live_in(text: &[u8]) -> Option<Said>
    ensures { Says (codes "live" ++ 32 ∷ text.now) result }
{
    let (line, count) = two_in(text)?;
    let line = small(line)?;
    Some(Said::Live(LiveCount { line, count }))
}

// A number that has 32 bits.
fn small(number: u64) -> Option<u32>
    ensures some { IfSome result (λ n. n ≡ number) }
    ensures none { IfNone result (2 ^ 32 ≤ number) }
{
    u32::try_from(number).ok()
}

/// Whether a line may stand behind this one, or first: the kinds stand in their order, and within a
/// kind the first numbers rise.
pub(crate) fn follows(last: &Option<Said>, said: &Said) -> bool
    ensures { result ≡ follows last.now said.now }
{
    match (last, said) {
        (None, Said::Head(_)) => true,
        (Some(Said::Head(_)), Said::End(_)) => true,
        (None | Some(Said::Head(_)), _) => false,
        (Some(_), Said::Head(_) | Said::End(_)) => false,
        (Some(Said::End(_)), _) => true,
        (Some(Said::Line(a)), Said::Line(b)) => a.line < b.line,
        (Some(Said::Line(_)), _) => true,
        (Some(Said::Bear(a)), Said::Bear(b)) => a.position < b.position,
        (Some(Said::Bear(_)), Said::Win(_) | Said::Live(_)) => true,
        (Some(Said::Win(a)), Said::Win(b)) => a.lba < b.lba,
        (Some(Said::Win(_)), Said::Live(_)) => true,
        (Some(Said::Live(a)), Said::Live(b)) => a.line < b.line,
        (Some(_), _) => false,
    }
}

/// Whether a text may end behind this line: the first two lines have to be there.
pub(crate) fn may_stop(last: &Option<Said>) -> bool
    ensures { result ≡ may_stop last.now }
{
    match last {
        None | Some(Said::Head(_)) => false,
        Some(_) => true,
    }
}
