//! Scripts that are read, and what is told of them.

use load_maker::make;
use pblk_model::{Command, Commands, Script, ScriptErr};
use run_script::read_script;
use std::alloc::{AllocError, Global};

/// What is told of these bytes: their script, each thread in brackets with its commands parted by
/// `|`, or the refusal.
pub fn told(alloc: Global, bytes: &[u8], capacity: u64) -> Result<String, AllocError> {
    match read_script(alloc, bytes, capacity) {
        Ok(script) => spelled(alloc, &script),
        Err(refusal) => refused(alloc, refusal),
    }
}

/// How many threads and commands the script of these bytes has, or the refusal.
pub fn counted(alloc: Global, bytes: &[u8], capacity: u64) -> Result<String, AllocError> {
    match read_script(alloc, bytes, capacity) {
        Ok(script) => {
            let mut commands: u64 = 0;
            for thread in script.as_slice() {
                commands = commands.saturating_add(thread.as_slice().len() as u64);
            }
            format!(in alloc; "{} threads, {commands} commands", script.as_slice().len())
        }
        Err(refusal) => refused(alloc, refusal),
    }
}

/// The commands of a thread of a load, parted by `|`; nothing where there is no such load.
pub fn made(
    alloc: Global,
    number: u64,
    rounds: u32,
    capacity: u64,
    thread: usize,
) -> Result<String, AllocError> {
    let mut text = String::new(alloc);
    if rounds == 0 || rounds > 3125 || capacity < 32 {
        return Ok(text);
    }
    let load = make(alloc, number, rounds, capacity)?;
    if let Some(commands) = load.as_slice().get(thread) {
        spell_all(&mut text, commands)?;
    }
    Ok(text)
}

/// Adds a line as often as told, each time with its newline.
pub fn add_lines(bytes: &mut Vec<u8>, line: &[u8], times: u32) -> Result<(), AllocError> {
    for _ in 0..times {
        bytes.extend_from_slice(line)?;
        bytes.push(b'\n')?;
    }
    Ok(())
}

fn refused(alloc: Global, refusal: ScriptErr) -> Result<String, AllocError> {
    match refusal {
        ScriptErr::Form(line) => format!(in alloc; "Form {line}"),
        ScriptErr::Limit(line) => format!(in alloc; "Limit {line}"),
        ScriptErr::Range(line) => format!(in alloc; "Range {line}"),
        ScriptErr::NeverPosted(line) => format!(in alloc; "NeverPosted {line}"),
        ScriptErr::Stuck(line) => format!(in alloc; "Stuck {line}"),
        ScriptErr::Memory => format!(in alloc; "Memory"),
    }
}

fn spelled(alloc: Global, script: &Script) -> Result<String, AllocError> {
    let mut text = String::new(alloc);
    for thread in script.as_slice() {
        text.push('[')?;
        spell_all(&mut text, thread)?;
        text.push(']')?;
    }
    Ok(text)
}

fn spell_all(text: &mut String, thread: &Commands) -> Result<(), AllocError> {
    for (number, command) in thread.as_slice().iter().enumerate() {
        if number > 0 {
            text.push('|')?;
        }
        spell(text, command)?;
    }
    Ok(())
}

fn spell(text: &mut String, command: &Command) -> Result<(), AllocError> {
    match command {
        Command::Write { lba, count, tag } => write!(text, "w {lba} {count} {tag}"),
        Command::Read { lba, count } => write!(text, "r {lba} {count}"),
        Command::Flush => write!(text, "f"),
        Command::Post(name) => write!(text, "post {}", name.as_str()),
        Command::Await(name) => write!(text, "await {}", name.as_str()),
    }
}
