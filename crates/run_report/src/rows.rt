//! The writes of a run that were answered a place, in the order of their positions.
ghost use Rattle.std.specs.Prelude.{◌≡◌, ◌++◌, length, IfOk, OnOk};
ghost use Rattle.run_report.specs.Rows.{answered_rows, thread_rows, rows_from, in_order};
ghost use Rattle.run_report.specs.RowFits.{AreAsMany};

use pblk_model::{Command, Commands};
use run_threads::{Answer, Answers};
use std::alloc::{AllocError, Global};

/// A write that was answered a place: its first position, its thread, and its sectors.
#[derive(Clone, Copy, Debug)]
pub(crate) struct Row {
    pub(crate) first: u64,
    pub(crate) thread: usize,
    pub(crate) lba: u64,
    pub(crate) count: u32,
    pub(crate) tag: u64,
}

/// The rows of a run, in the order of their positions.
pub(crate) fn rows(
    alloc: Global,
    script: &[Commands],
    threads: &[Answers],
) -> Result<Vec<Row>, AllocError>
    requires { AreAsMany script.now threads.now }
    ensures { IfOk result (λ rows. rows.items ≡ in_order (rows_from 0 script.now threads.now)) }
{
    let mut rows = Vec::new(alloc);
    add_threads(&mut rows, script, threads)?;
    rows.sort_by_key(|row| row.first)?;
    Ok(rows)
}

// Adds the rows of the threads, by thread.
fn add_threads(
    rows: &mut Vec<Row>,
    script: &[Commands],
    threads: &[Answers],
) -> Result<(), AllocError>
    requires { AreAsMany script.now threads.now }
    ensures { OnOk result (rows.new.items ≡ rows.old.items ++ rows_from 0 script.now threads.now) }
{
    for (thread, answers) in threads.iter().enumerate() {
        let commands = script[thread].as_slice();
        add_thread(rows, thread, commands, answers.as_slice())?;
    }
    Ok(())
}

// Adds the rows of a thread, by command.
fn add_thread(
    rows: &mut Vec<Row>,
    thread: usize,
    commands: &[Command],
    answers: &[Answer],
) -> Result<(), AllocError>
    requires { length answers.now ≡ length commands.now }
    ensures { OnOk result (rows.new.items
        ≡ rows.old.items ++ thread_rows thread commands.now answers.now) }
{
    for (index, command) in commands.iter().enumerate() {
        add_write(rows, thread, command, &answers[index])?;
    }
    Ok(())
}

// Adds the row of a command, if it is a write that was answered a place.
fn add_write(
    rows: &mut Vec<Row>,
    thread: usize,
    command: &Command,
    answer: &Answer,
) -> Result<(), AllocError>
    ensures { OnOk result (rows.new.items
        ≡ rows.old.items ++ answered_rows thread command.now answer.now) }
{
    match (command, answer) {
        (Command::Write { lba, count, tag }, Answer::Placed(place)) => {
            rows.push(Row {
                first: place.first,
                thread,
                lba: *lba,
                count: *count,
                tag: *tag,
            })?;
            Ok(())
        }
        _ => Ok(()),
    }
}
