//! The lines of what became of the commands.
ghost use Rattle.std.specs.Prelude.{◌≡◌, ◌++◌, OnOk, codes, map, string_bytes};
ghost use Rattle.std.specs.List.{enumerate_from, flat_map};
ghost use Rattle.pblk_model.specs.Text as text;
ghost use Rattle.pblk_model.specs.Text.{opening_line, closing_line, outcome_line, thread_text, word_text};
ghost use Rattle.run_threads.specs.Words.{text_word};
ghost use Rattle.run_report.specs.Report.{outcome_of, opening_of, closing_of};

use run_threads::{Answer, Answers, Trouble, Word};
use std::alloc::AllocError;

/// Adds the lines of the threads.
pub(crate) fn put_threads(out: &mut String, threads: &[Answers]) -> Result<(), AllocError>
    ensures { OnOk result (string_bytes out.new ≡ string_bytes out.old
        ++ flat_map thread_text (enumerate_from 0 (map (map outcome_of) threads.now))) }
{
    for (thread, answers) in threads.iter().enumerate() {
        put_thread(out, thread, answers.as_slice())?;
    }
    Ok(())
}

// The lines of a thread.
fn put_thread(out: &mut String, thread: usize, answers: &[Answer]) -> Result<(), AllocError>
    ensures { OnOk result (string_bytes out.new ≡ string_bytes out.old
        ++ thread_text (thread, map outcome_of answers.now)) }
{
    for (command, answer) in answers.iter().enumerate() {
        put_answer(out, thread, command, answer)?;
    }
    Ok(())
}

// The line of a command, if it has one.
fn put_answer(
    out: &mut String,
    thread: usize,
    command: usize,
    answer: &Answer,
) -> Result<(), AllocError>
    ensures { OnOk result (string_bytes out.new ≡ string_bytes out.old
        ++ outcome_line thread (command, outcome_of answer.now)) }
{
    match answer {
        Answer::Placed(_) | Answer::Done | Answer::Range => Ok(()),
        Answer::Words { front, words } => {
            put_read(out, thread, command, front.users, words.as_slice())
        }
        Answer::Synced(front) => {
            let users = front.users;
            writeln!(out, "f {thread} {command} {users}")?;
            Ok(())
        }
        Answer::Refused(trouble) => put_trouble(out, thread, command, *trouble),
    }
}

// The line of a read.
fn put_read(
    out: &mut String,
    thread: usize,
    command: usize,
    front: u64,
    words: &[Word],
) -> Result<(), AllocError>
    ensures { OnOk result (string_bytes out.new ≡ string_bytes out.old
        ++ outcome_line thread (command, text.Words front (map text_word words.now))) }
{
    write!(out, "r {thread} {command} {front}")?;
    put_words(out, words)?;
    writeln!(out)?;
    Ok(())
}

// The words of a read's sectors.
fn put_words(out: &mut String, words: &[Word]) -> Result<(), AllocError>
    ensures { OnOk result (string_bytes out.new ≡ string_bytes out.old
        ++ flat_map (λ w. codes " " ++ word_text w) (map text_word words.now)) }
{
    for word in words {
        put_word(out, word)?;
    }
    Ok(())
}

// A word of a sector.
fn put_word(out: &mut String, word: &Word) -> Result<(), AllocError>
    ensures { OnOk result (string_bytes out.new ≡ string_bytes out.old
        ++ codes " " ++ word_text (text_word word.now)) }
{
    match word {
        Word::Tag(tag) => write!(out, " {tag}"),
        Word::Mixed => write!(out, " mixed"),
    }
}

// The line of a command that wasn't made.
fn put_trouble(
    out: &mut String,
    thread: usize,
    command: usize,
    trouble: Trouble,
) -> Result<(), AllocError>
    ensures { OnOk result (string_bytes out.new ≡ string_bytes out.old
        ++ outcome_line thread (command, outcome_of (Answer.Refused trouble))) }
{
    match trouble {
        Trouble::Drive { unit, event } => writeln!(out, "e {thread} {command} {unit} {event}"),
        Trouble::Worn { wanted, have } => writeln!(out, "worn {thread} {command} {wanted} {have}"),
    }
}

/// Adds the line of the opening, if it answered an event.
pub(crate) fn put_opening(out: &mut String, opening: Option<Trouble>) -> Result<(), AllocError>
    ensures { OnOk result (string_bytes out.new ≡ string_bytes out.old
        ++ opening_line (opening_of opening)) }
{
    match opening {
        Some(Trouble::Drive { unit, event }) => writeln!(out, "e open {unit} {event}"),
        _ => Ok(()),
    }
}

/// Adds the line of the close, if it met trouble.
pub(crate) fn put_closing(out: &mut String, closing: Option<Trouble>) -> Result<(), AllocError>
    ensures { OnOk result (string_bytes out.new ≡ string_bytes out.old
        ++ closing_line (closing_of closing)) }
{
    match closing {
        None => Ok(()),
        Some(Trouble::Drive { unit, event }) => writeln!(out, "e close {unit} {event}"),
        Some(Trouble::Worn { wanted, have }) => writeln!(out, "worn close {wanted} {have}"),
    }
}
