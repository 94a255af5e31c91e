//! The history of several sessions, and what it says of each of their reads and flushes.

use crate::deeds::{Deed, MOST, Words};
use crate::roamers::Roamer;
use block_target::Front;
use std::alloc::{AllocError, Global};

/// A line of the history: the word of a sector at a position.
#[derive(Clone, Copy)]
pub(crate) struct Line {
    pub(crate) position: u64,
    pub(crate) lba: u64,
    pub(crate) word: u64,
}

/// What is wrong with what sessions did.
#[derive(Clone, Copy, Debug)]
pub(crate) enum Wrong {
    /// There wasn't the memory to know.
    Memory,
    /// A session forgot what it did.
    Forgot,
    /// A place has another count than was asked for.
    Count(Deed),
    /// Two writes stand at this position.
    Twice(u64),
    /// It is below this position, which the session had seen.
    Early(Deed, u64),
    /// It was refused.
    Refused(Deed),
    /// At this front there are so many lines below.
    Users(Front, usize),
    /// A sector has this word at the front of a read. It was told another.
    Word(Look, u64, u64),
    /// A sector of the closed drive has another word.
    Kept(u64, u64),
}

impl From<AllocError> for Wrong {
    fn from(_: AllocError) -> Wrong {
        Wrong::Memory
    }
}

/// A read, or a flush as a read of no sector.
#[derive(Clone, Copy, Debug)]
pub(crate) struct Look {
    front: Front,
    lba: u64,
    count: u32,
    words: Words,
}

// The lines that a session wrote.
fn put_lines(lines: &mut Vec<Line>, deed: Deed) -> Result<(), Wrong> {
    if let Deed::Wrote {
        lba,
        count,
        word,
        place,
    } = deed
    {
        if place.count != count {
            return Err(Wrong::Count(deed));
        }
        for index in 0..u64::from(count) {
            let line = Line {
                position: place.first.wrapping_add(index),
                lba: lba.wrapping_add(index),
                word: word.wrapping_add(index),
            };
            if lines.push(line).is_err() {
                return Err(Wrong::Memory);
            }
        }
    }
    Ok(())
}

/// All lines that sessions wrote, in their order. No two stand at one position.
pub(crate) fn lines_of(alloc: Global, roamers: &[Roamer<'_>]) -> Result<Vec<Line>, Wrong> {
    let mut lines = Vec::new(alloc);
    for roamer in roamers {
        if roamer.forgot {
            return Err(Wrong::Forgot);
        }
        for deed in roamer.deeds.as_slice() {
            put_lines(&mut lines, *deed)?;
        }
    }
    lines.sort_unstable_by_key(|line| line.position);
    for pair in lines.as_slice().windows(2) {
        if let [one, next] = pair {
            if one.position == next.position {
                return Err(Wrong::Twice(one.position));
            }
        }
    }
    Ok(lines)
}

// What a session has seen after a deed, if that isn't below what it had seen before.
fn seen_after(deed: Deed, seen: u64) -> Result<u64, Wrong> {
    let (least, next) = match deed {
        Deed::Wrote { place, .. } => (
            place.first,
            place.first.wrapping_add(u64::from(place.count)),
        ),
        Deed::Read { front, .. } | Deed::Flushed(front) => (front.position, front.position),
        Deed::Heard(position) => (u64::MAX, seen.max(position)),
        Deed::Lost(..) | Deed::Worn(..) | Deed::Range => (u64::MAX, seen),
    };
    if least < seen {
        return Err(Wrong::Early(deed, seen));
    }
    Ok(next)
}

// A read or a flush.
fn look_of(deed: Deed) -> Option<Look> {
    match deed {
        Deed::Read {
            lba,
            count,
            words,
            front,
        } => Some(Look {
            front,
            lba,
            count,
            words,
        }),
        Deed::Flushed(front) => Some(Look {
            front,
            lba: 0,
            count: 0,
            words: [0; MOST],
        }),
        _ => None,
    }
}

// All reads and flushes, by their fronts. What each session was told is past what it had seen.
fn looks_of(alloc: Global, roamers: &[Roamer<'_>]) -> Result<Vec<Look>, Wrong> {
    let mut looks = Vec::new(alloc);
    for roamer in roamers {
        let mut seen = 0;
        for deed in roamer.deeds.as_slice() {
            seen = seen_after(*deed, seen)?;
            if let Some(look) = look_of(*deed)
                && looks.push(look).is_err()
            {
                return Err(Wrong::Memory);
            }
        }
    }
    looks.sort_unstable_by_key(|look| look.front.position);
    Ok(looks)
}

/// The sectors of a target, as the lines below a front leave them.
#[derive(Drop)]
pub(crate) struct Contents {
    pub(crate) words: Vec<u64>,
    /// How many lines were put.
    pub(crate) count: usize,
}

impl Contents {
    /// All sectors have zeros.
    pub(crate) fn new(alloc: Global, capacity: u64) -> Result<Contents, AllocError> {
        Ok(Contents {
            words: vec![in alloc; 0; capacity as usize]?,
            count: 0,
        })
    }

    /// Puts the next line.
    pub(crate) fn put(&mut self, line: Line) {
        if let Some(word) = self.words.get_mut(line.lba as usize) {
            *word = line.word;
        }
        self.count = self.count.wrapping_add(1);
    }

    // Puts the lines below a position.
    fn put_below(&mut self, lines: &[Line], position: u64) {
        for line in lines.iter().skip(self.count) {
            if line.position >= position {
                return;
            }
            self.put(*line);
        }
    }

    // What is wrong with a read at this front, if anything is.
    fn wrong_read(&self, look: &Look) -> Option<Wrong> {
        if look.front.users != self.count as u64 {
            return Some(Wrong::Users(look.front, self.count));
        }
        for (word, lba) in look
            .words
            .iter()
            .zip(look.lba..look.lba.wrapping_add(u64::from(look.count)))
        {
            let found = self.words.get(lba as usize).copied();
            if found != Some(*word) {
                return Some(Wrong::Word(*look, lba, found.unwrap_or(0)));
            }
        }
        None
    }
}

/// Judges what sessions did: each read and each flush by the lines below its front. Gives the
/// history.
pub(crate) fn judge(
    alloc: Global,
    capacity: u64,
    roamers: &[Roamer<'_>],
) -> Result<Vec<Line>, Wrong> {
    let lines = lines_of(alloc, roamers)?;
    let looks = looks_of(alloc, roamers)?;
    let mut contents = Contents::new(alloc, capacity)?;
    for look in looks.as_slice() {
        contents.put_below(lines.as_slice(), look.front.position);
        if let Some(wrong) = contents.wrong_read(look) {
            return Err(wrong);
        }
    }
    Ok(lines)
}

/// Whether no session was refused anything.
pub(crate) fn refused(roamers: &[Roamer<'_>]) -> Option<Deed> {
    for roamer in roamers {
        for deed in roamer.deeds.as_slice() {
            if let Deed::Lost(..) | Deed::Worn(..) | Deed::Range = deed {
                return Some(*deed);
            }
        }
    }
    None
}

/// How many lines the flushes had told to be on the drive, at most.
pub(crate) fn flushed(roamers: &[Roamer<'_>]) -> u64 {
    let mut most = 0;
    for roamer in roamers {
        for deed in roamer.deeds.as_slice() {
            if let Deed::Flushed(front) = deed {
                most = front.users.max(most);
            }
        }
    }
    most
}

/// Whether a drive holds what the first lines say, as many of them as were flushed or more.
pub(crate) fn is_kept(
    alloc: Global,
    capacity: u64,
    lines: &[Line],
    flushed: u64,
    held: &[u64],
) -> Result<bool, AllocError> {
    let mut contents = Contents::new(alloc, capacity)?;
    for line in lines {
        if contents.count as u64 >= flushed && contents.words.as_slice() == held {
            return Ok(true);
        }
        contents.put(*line);
    }
    Ok(contents.words.as_slice() == held)
}
