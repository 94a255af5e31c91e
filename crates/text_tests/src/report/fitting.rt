//! Whether records answer a script.
ghost use Rattle.std.specs.Bool.{OnTrue};
ghost use Rattle.run_report.specs.Recorded.{AreAnswered, AreThreads, IsAnswer, IsThread};

use pblk_model::{Command, Commands, Script};
use run_threads::{Answer, Answers, Records, Trouble};

/// Whether they answer each command of the script, or none where opening answered an event.
pub(crate) fn are_answered(script: &Script, records: &Records) -> bool
    ensures { OnTrue result
        (AreAnswered records.now.opening script.now records.now.threads) }
{
    match records.opening {
        None => are_threads(script.as_slice(), records.threads.as_slice()),
        Some(Trouble::Drive { .. }) => records.threads.as_slice().is_empty(),
        Some(Trouble::Worn { .. }) => false,
    }
}

// Whether they answer each command of each thread.
fn are_threads(script: &[Commands], threads: &[Answers]) -> bool
    ensures { OnTrue result (AreThreads script.now threads.now) }
{
    if script.len() != threads.len() {
        return false;
    }
    for (thread, commands) in script.iter().enumerate() {
        if !is_thread(commands.as_slice(), threads[thread].as_slice()) {
            return false;
        }
    }
    true
}

// Whether they answer each command of a thread.
fn is_thread(commands: &[Command], answers: &[Answer]) -> bool
    ensures { OnTrue result (IsThread commands.now answers.now) }
{
    if commands.len() != answers.len() {
        return false;
    }
    for (index, command) in commands.iter().enumerate() {
        if !is_answer(command, &answers[index]) {
            return false;
        }
    }
    true
}

// Whether it is an answer of the command's kind, or a refusal other than Range.
fn is_answer(command: &Command, answer: &Answer) -> bool
    ensures { OnTrue result (IsAnswer command.now answer.now) }
{
    match (command, answer) {
        (_, Answer::Refused(_)) => true,
        (Command::Write { count, .. }, Answer::Placed(place)) => place.count == *count,
        (Command::Read { count, .. }, Answer::Words { words, .. }) => {
            words.as_slice().len() == *count as usize
        }
        (Command::Flush, Answer::Synced(_)) => true,
        (Command::Post(_), Answer::Done) => true,
        (Command::Await(_), Answer::Done) => true,
        _ => false,
    }
}
