//! Judges the transcript of a script by a plain model: a history, and the threads one by one.

use crate::harness::number;
use std::alloc::{AllocError, Global};

/// A line of the history.
#[derive(Clone, Copy, PartialEq, Eq)]
pub(crate) struct Line {
    pub(crate) thread: u64,
    pub(crate) lba: u64,
    pub(crate) tag: u64,
}

// The numbers of a line, which are parted by spaces.
fn numbers(alloc: Global, line: &str) -> Result<Vec<u64>, AllocError> {
    let mut found = Vec::new(alloc);
    for word in line.split(' ') {
        found.push(number(word))?;
    }
    Ok(found)
}

/// The history of a transcript, if its lines are numbered in their order.
pub(crate) fn history(alloc: Global, text: &str) -> Result<Option<Vec<Line>>, AllocError> {
    let mut lines = Vec::new(alloc);
    for row in text.split('\n') {
        let Some(rest) = row.strip_prefix("h ") else {
            continue;
        };
        match numbers(alloc, rest)?.as_slice() {
            [at, thread, lba, tag] if *at == lines.len() as u64 => {
                lines.push(Line {
                    thread: *thread,
                    lba: *lba,
                    tag: *tag,
                })?;
            }
            _ => return Ok(None),
        }
    }
    Ok(Some(lines))
}

/// The tag of a sector after the first lines of a history; 0 where none of them writes it.
pub(crate) fn tag_after(lines: &[Line], front: u64, sector: u64) -> u64 {
    let mut latest = 0;
    for line in lines.iter().take(front as usize) {
        if line.lba == sector {
            latest = line.tag;
        }
    }
    latest
}

/// How many threads a script has.
fn threads_of(script: &str) -> u64 {
    let mut threads: u64 = 0;
    for line in script.split('\n') {
        if line == "thread" {
            threads = threads.saturating_add(1);
        }
    }
    threads
}

// The commands of a thread of a script.
fn commands_of<'s>(
    alloc: Global,
    script: &'s str,
    thread: u64,
) -> Result<Vec<&'s str>, AllocError> {
    let mut found = Vec::new(alloc);
    let mut threads: u64 = 0;
    for line in script.split('\n') {
        if line == "thread" {
            threads = threads.saturating_add(1);
        } else if threads == thread.saturating_add(1) && !line.is_empty() {
            found.push(line)?;
        }
    }
    Ok(found)
}

// What a thread has seen, and how many lines it has written.
#[derive(Drop)]
struct Thread<'a> {
    number: u64,
    lines: &'a [Line],
    text: &'a str,
    seen: u64,
    written: u64,
}

impl Thread<'_> {
    // Where its next line stands, past all that it has seen.
    fn next_line(&self) -> u64 {
        for (at, line) in self.lines.iter().enumerate().skip(self.seen as usize) {
            if line.thread == self.number {
                return at as u64;
            }
        }
        u64::MAX
    }

    // A write stands in the history, its sectors one behind the other.
    fn is_written(&mut self, lba: u64, count: u64, tag: u64) -> bool {
        let first = self.next_line();
        for index in 0..count {
            let line = Line {
                thread: self.number,
                lba: lba.saturating_add(index),
                tag,
            };
            let at = first.saturating_add(index);
            if self.lines.get(at as usize).copied() != Some(line) {
                return false;
            }
        }
        self.seen = first.saturating_add(count);
        self.written = self.written.saturating_add(count);
        true
    }

    // What is told of a command, after these words.
    fn told(&self, alloc: Global, kind: &str, command: u64) -> Result<Vec<u64>, AllocError> {
        let number = self.number;
        let begin = format!(in alloc; "{kind} {number} {command} ")?;
        for row in self.text.split('\n') {
            if let Some(rest) = row.strip_prefix(begin.as_str()) {
                return numbers(alloc, rest);
            }
        }
        Ok(Vec::new(alloc))
    }

    // A front is past all that it has seen.
    fn has_front(&mut self, front: u64) -> bool {
        let is_past = self.seen <= front && front <= self.lines.len() as u64;
        self.seen = front;
        is_past
    }

    // A read has the words of its front.
    fn is_read(
        &mut self,
        alloc: Global,
        command: u64,
        lba: u64,
        count: u64,
    ) -> Result<bool, AllocError> {
        let told = self.told(alloc, "r", command)?;
        let [front, words @ ..] = told.as_slice() else {
            return Ok(false);
        };
        if !self.has_front(*front) || words.len() as u64 != count {
            return Ok(false);
        }
        for (index, word) in words.iter().enumerate() {
            let sector = lba.saturating_add(index as u64);
            if *word != tag_after(self.lines, *front, sector) {
                return Ok(false);
            }
        }
        Ok(true)
    }

    // A flush has a front.
    fn is_flushed(&mut self, alloc: Global, command: u64) -> Result<bool, AllocError> {
        let told = self.told(alloc, "f", command)?;
        match told.as_slice() {
            [front] => Ok(self.has_front(*front)),
            _ => Ok(false),
        }
    }

    // Whether a command went as it should.
    fn is_right(&mut self, alloc: Global, number: u64, command: &str) -> Result<bool, AllocError> {
        let (kind, rest) = command.split_once(' ').unwrap_or((command, ""));
        let given = numbers(alloc, rest)?;
        match (kind, given.as_slice()) {
            ("w", [lba, count, tag]) => Ok(self.is_written(*lba, *count, *tag)),
            ("r", [lba, count]) => self.is_read(alloc, number, *lba, *count),
            ("f", _) => self.is_flushed(alloc, number),
            _ => Ok(kind == "post" || kind == "await"),
        }
    }

    // How many lines of the history are its own.
    fn own_lines(&self) -> u64 {
        self.lines
            .iter()
            .filter(|line| line.thread == self.number)
            .count() as u64
    }
}

// What of a thread of a script isn't as it should be, if anything.
fn wrong_thread<'s>(
    alloc: Global,
    script: &'s str,
    text: &str,
    lines: &[Line],
    number: u64,
) -> Result<&'s str, AllocError> {
    let mut thread = Thread {
        number,
        lines,
        text,
        seen: 0,
        written: 0,
    };
    let commands = commands_of(alloc, script, number)?;
    for (place, command) in commands.iter().enumerate() {
        if !thread.is_right(alloc, place as u64, command)? {
            return Ok(command);
        }
    }
    if thread.written != thread.own_lines() {
        return Ok("history of a thread");
    }
    Ok("")
}

/// Judges the transcript of a script that was run on a blank drive without a stop and without a
/// failure: names what isn't as it should be, if anything. Each write stands in the history once,
/// past all that its thread has seen. Each read has the words that the lines below its front leave,
/// each flush has a front, and the fronts of a thread never fall. All lines are kept.
pub(crate) fn wrong<'s>(alloc: Global, script: &'s str, text: &str) -> Result<&'s str, AllocError> {
    let Some(lines) = history(alloc, text)? else {
        return Ok("history");
    };
    for thread in 0..threads_of(script) {
        let wrong = wrong_thread(alloc, script, text, &lines, thread)?;
        if !wrong.is_empty() {
            return Ok(wrong);
        }
    }
    let kept = format!(in alloc; "kept {}\n", lines.len())?;
    if !text.ends_with(kept.as_str()) {
        return Ok("kept");
    }
    Ok("")
}
