//! Loads of writes, the runs of them in which something fails or is stopped, and what is left.

use crate::harness::{number, text_of};
use crate::stops::{called, ends};
use pblk_outside::MemoryFiles;
use std::alloc::{AllocError, Global};
use std::sync::Wait;
use std::thread::Threads;

/// Which sectors the writes of a load go to.
#[derive(Clone, Copy)]
pub(crate) enum Way {
    /// All sectors in turn, and again from the first one on.
    Rounds,
    /// The first of ten writes goes to the next of its seldom places, which begin at each fourth
    /// sector; the other nine go to one often place after another.
    Seldom {
        /// How many seldom places there are, and where the last of them begins.
        places: u64,
        last: u64,
        /// Where the first of the four often places begins.
        often: u64,
    },
}

/// A load of writes of so many sectors each, with a flush behind each so many of them. A tag is the
/// number of its round, and this much.
#[derive(Clone, Copy)]
pub(crate) struct Load {
    pub(crate) drive: &'static str,
    pub(crate) capacity: u64,
    pub(crate) writes: u64,
    pub(crate) size: u64,
    pub(crate) each: u64,
    pub(crate) tag: u64,
    pub(crate) way: Way,
}

impl Load {
    /// How many sectors are written.
    pub(crate) fn lines(&self) -> u64 {
        self.writes.saturating_mul(self.size)
    }

    // The first sector and the tag of a write.
    fn write_of(&self, write: u64) -> (u64, u64) {
        let (lba, round) = match self.way {
            Way::Rounds => {
                let first = write.saturating_mul(self.size);
                let capacity = self.capacity.max(1);
                (first % capacity, (first / capacity).saturating_add(1))
            }
            Way::Seldom {
                places,
                last,
                often,
            } => {
                let turn = write / 10;
                match write % 10 {
                    0 => (
                        (turn % places.max(1)).saturating_mul(4).min(last),
                        turn.saturating_add(1),
                    ),
                    other => (
                        often.saturating_add(other % 4 * 4),
                        turn.saturating_add(1000),
                    ),
                }
            }
        };
        (lba, round.saturating_add(self.tag))
    }

    // The number of a write among the commands of the script.
    fn command_of(&self, write: u64) -> u64 {
        write.saturating_add(write / self.each.max(1))
    }

    /// How many flushes there are.
    pub(crate) fn flushes(&self) -> u64 {
        self.writes / self.each.max(1)
    }

    /// Adds the writes and the flushes of the load.
    pub(crate) fn add_commands(&self, script: &mut String) -> Result<(), AllocError> {
        for write in 0..self.writes {
            let (lba, tag) = self.write_of(write);
            write!(script, "w {lba} {} {tag}/", self.size)?;
            if write % self.each.max(1) == self.each.saturating_sub(1) {
                script.push_str("f/")?;
            }
        }
        Ok(())
    }

    /// Adds reads of all sectors.
    pub(crate) fn add_reads(&self, script: &mut String) -> Result<(), AllocError> {
        for turn in 0..self.capacity.div_ceil(16) {
            let from = turn.saturating_mul(16);
            let count = self.capacity.saturating_sub(from).min(16);
            write!(script, "r {from} {count}/")?;
        }
        Ok(())
    }

    /// The history, from which writes of these commands are left out: they were refused.
    pub(crate) fn history(
        &self,
        alloc: Global,
        refused: &[u64],
    ) -> Result<Vec<(u64, u64)>, AllocError> {
        let mut history = Vec::new(alloc);
        for write in 0..self.writes {
            if !refused.contains(&self.command_of(write)) {
                self.add_write(&mut history, write)?;
            }
        }
        Ok(history)
    }

    // The lines of a write.
    fn add_write(&self, history: &mut Vec<(u64, u64)>, write: u64) -> Result<(), AllocError> {
        let (lba, tag) = self.write_of(write);
        for sector in 0..self.size {
            history.push((lba.saturating_add(sector), tag))?;
        }
        Ok(())
    }

    /// The tags of sectors in which nothing was written.
    pub(crate) fn blank(&self, alloc: Global) -> Result<Vec<u64>, AllocError> {
        let mut held = Vec::new(alloc);
        held.resize(self.capacity as usize, 0)?;
        Ok(held)
    }

    /// Adds what the reads tell of sectors with these tags, the first of which is this command, at
    /// this front.
    pub(crate) fn add_words(
        &self,
        text: &mut String,
        held: &[u64],
        command: u64,
        front: u64,
    ) -> Result<(), AllocError> {
        for turn in 0..self.capacity.div_ceil(16) {
            let from = turn.saturating_mul(16);
            write!(text, "r 0 {} {front}", command.saturating_add(turn))?;
            for sector in from..from.saturating_add(16).min(self.capacity) {
                write!(text, " {}", tag_at(held, sector))?;
            }
            text.push('/')?;
        }
        Ok(())
    }
}

// The tag of a sector.
fn tag_at(held: &[u64], sector: u64) -> u64 {
    match held.get(sector as usize) {
        Some(tag) => *tag,
        None => 0,
    }
}

/// Writes so many first lines of a history to tags.
pub(crate) fn write_lines(held: &mut [u64], history: &[(u64, u64)], kept: u64) {
    for (number, (lba, tag)) in history.iter().enumerate() {
        if (number as u64) < kept {
            if let Some(old) = held.get_mut(*lba as usize) {
                *old = *tag;
            }
        }
    }
}

/// Adds the lines of a history.
pub(crate) fn add_history(text: &mut String, history: &[(u64, u64)]) -> Result<(), AllocError> {
    for (number, (lba, tag)) in history.iter().enumerate() {
        write!(text, "h {number} 0 {lba} {tag}/")?;
    }
    Ok(())
}

/// How a run ended, as its text says: how many lines are kept, the greatest front of a flush, and
/// the commands that were refused.
pub(crate) struct Ended {
    pub(crate) kept: u64,
    pub(crate) flushed: u64,
    pub(crate) refused: Vec<u64>,
}

// How the run of this text ended.
fn ending_of(alloc: Global, text: &str) -> Result<Ended, AllocError> {
    let mut kept = u64::MAX;
    let mut flushed = 0;
    let mut refused = Vec::new(alloc);
    for row in text.split('\n') {
        if let Some(lines) = row.strip_prefix("kept ") {
            kept = number(lines);
        }
        if let Some((_, front)) = after_words(row, "f 0 ") {
            flushed = number(front).max(flushed);
        }
        for trouble in ["e 0 ", "worn 0 "] {
            if let Some((command, _)) = after_words(row, trouble) {
                refused.push(number(command))?;
            }
        }
    }
    Ok(Ended {
        kept,
        flushed,
        refused,
    })
}

// The word after these words of a line, and what follows it.
fn after_words<'a>(row: &'a str, words: &str) -> Option<(&'a str, &'a str)> {
    row.strip_prefix(words)?.split_once(' ')
}

// Whether an image lists sectors with these tags. Where its end lies isn't told.
fn shows<R: Threads + Wait + Sync>(
    rt: &R,
    alloc: Global,
    files: &mut MemoryFiles,
    held: &[u64],
) -> Result<bool, AllocError> {
    let mut listed = String::new(alloc);
    for (sector, tag) in held.iter().enumerate() {
        if *tag != 0 {
            write!(listed, "{sector} {tag}\n")?;
        }
    }
    listed.push_str("end ")?;
    let (status, written) = called(rt, alloc, files, "show|image")?;
    Ok(status == 0 && written.as_slice().starts_with(listed.as_bytes()))
}

// Whether another mount reads sectors with these tags.
fn reads<R: Threads + Wait + Sync>(
    rt: &R,
    alloc: Global,
    files: &mut MemoryFiles,
    load: &Load,
    held: &[u64],
) -> Result<bool, AllocError> {
    let mut script = String::from_str(alloc, "thread/")?;
    load.add_reads(&mut script)?;
    files.put("script", text_of(alloc, &script)?.as_bytes())?;
    let mut text = String::new(alloc);
    load.add_words(&mut text, held, 0, 0)?;
    text.push_str("kept 0/")?;
    let told = text_of(alloc, &text)?;
    ends(rt, alloc, files, "run|image|script", 0, &told)
}

/// What came of a run: the name of what didn't go as told, if anything; its status; and how many
/// lines its history has.
#[derive(Clone, Copy)]
pub(crate) struct Came {
    pub(crate) wrong: &'static str,
    pub(crate) status: u8,
    pub(crate) lines: u64,
}

/// Runs a load on the image, with these options. Its status is 0 or one of these. The text has the
/// history, without the writes that are refused. What is kept are the lines of each flush at least,
/// and all with status 0. They are written to the tags that the sectors had: the image holds these,
/// another mount reads them, and it leaves them.
pub(crate) fn run_load<R: Threads + Wait + Sync>(
    rt: &R,
    alloc: Global,
    files: &mut MemoryFiles,
    load: &Load,
    options: &str,
    others: &[u8],
    held: &mut Vec<u64>,
) -> Result<Came, AllocError> {
    let mut script = String::from_str(alloc, "thread/")?;
    load.add_commands(&mut script)?;
    files.put("script", text_of(alloc, &script)?.as_bytes())?;
    let line = format!(in alloc; "run|image|script{options}")?;
    let (status, written) = called(rt, alloc, files, &line)?;
    let Ok(text) = std::str::from_utf8(written.as_slice()) else {
        return Ok(Came {
            wrong: "text",
            status,
            lines: 0,
        });
    };
    let (mut wrong, lines) = wrong_text(alloc, load, status, others, text, held)?;
    if wrong.is_empty() {
        wrong = wrong_image(rt, alloc, files, load, held)?;
    }
    Ok(Came {
        wrong,
        status,
        lines,
    })
}

// The name of what of a run's status and text isn't as told, if anything, and how many lines the
// history has. What is kept is written to the tags.
fn wrong_text(
    alloc: Global,
    load: &Load,
    status: u8,
    others: &[u8],
    text: &str,
    held: &mut Vec<u64>,
) -> Result<(&'static str, u64), AllocError> {
    let Ended {
        kept,
        flushed,
        refused,
    } = ending_of(alloc, text)?;
    let history = load.history(alloc, &refused)?;
    let lines = history.len() as u64;
    if status != 0 && !others.contains(&status) || status == 0 && !refused.is_empty() {
        return Ok(("status", lines));
    }
    if kept < flushed || lines < kept || status == 0 && kept != lines {
        return Ok(("kept", lines));
    }
    let mut told = String::new(alloc);
    add_history(&mut told, &history)?;
    if !text.starts_with(text_of(alloc, &told)?.as_str()) {
        return Ok(("history", lines));
    }
    write_lines(held, &history, kept);
    Ok(("", lines))
}

// The name of what of an image with these tags isn't as told, if anything: what it shows, what
// another mount reads, or what it shows then.
fn wrong_image<R: Threads + Wait + Sync>(
    rt: &R,
    alloc: Global,
    files: &mut MemoryFiles,
    load: &Load,
    held: &[u64],
) -> Result<&'static str, AllocError> {
    if !shows(rt, alloc, files, held)? {
        return Ok("show");
    }
    if !reads(rt, alloc, files, load, held)? {
        return Ok("reads");
    }
    if !shows(rt, alloc, files, held)? {
        return Ok("show of what was read");
    }
    Ok("")
}
