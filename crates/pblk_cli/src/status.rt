//! The status of a run.

ghost use Rattle.std.specs.Prelude.{ℕ, List, ◌≡◌};
ghost use Rattle.std.specs.List.{list_any};
ghost use Rattle.pblk_model.specs.declared.script.Command.{Command};
ghost use Rattle.pblk_model.specs.Transcript.{closing_event, opening_event, outcome_event};
ghost use Rattle.run_report.specs.Report.{closing_of, opening_of, outcome_of, transcript_of};
ghost use Rattle.pblk_cli.specs.Status.{closed_worn, has_event, has_worn, is_worn, names_any, status_of_run};

use run_threads::{Answer, Answers, Records, Trouble};

/// The status of a run in which a unit's event was a failed fetch or a stopped command.
const DRIVE: u8 = 5;

/// The status of a run that had no room for all that was to be written.
const WORN: u8 = 6;

/// The status of a run, by the lines of its transcript: 5 where one names an event of a unit, else
/// 6 where one is a `worn` line, and 0 else.
pub(crate) fn status_of(records: &Records) -> u8
    ensures { (script : List (List Command)) (end : ℕ)
        → result ≡ status_of_run (transcript_of script records.now end) }
{
    if has_event(records) {
        DRIVE
    } else if has_worn(records) {
        WORN
    } else {
        0
    }
}

// Whether a line of the transcript of a run names an event of a unit.
fn has_event(records: &Records) -> bool
    ensures { (script : List (List Command)) (end : ℕ)
        → result ≡ has_event (transcript_of script records.now end) }
{
    is_drive(records.opening)
        || any_is_drive(records.threads.as_slice())
        || is_drive(records.closing)
}

// Whether the line of the opening, or of the close, names an event.
fn is_drive(trouble: Option<Trouble>) -> bool
    ensures opening { result ≡ names_any (opening_event (opening_of trouble)) }
    ensures closing { result ≡ names_any (closing_event (closing_of trouble)) }
{
    matches!(trouble, Some(Trouble::Drive { .. }))
}

// Whether a line of the threads names an event.
fn any_is_drive(threads: &[Answers]) -> bool
    ensures { result ≡
        list_any (λ answers. list_any (λ a. names_any (outcome_event (outcome_of a))) answers)
        threads.now }
{
    threads.iter().any(one_is_drive)
}

// Whether a line of a thread names an event.
fn one_is_drive(answers: &Answers) -> bool
    ensures { result ≡ list_any (λ a. names_any (outcome_event (outcome_of a))) answers.now }
{
    answers.as_slice().iter().any(answers_drive)
}

// Whether the line of a command names an event.
fn answers_drive(answer: &Answer) -> bool
    ensures { result ≡ names_any (outcome_event (outcome_of answer.now)) }
{
    matches!(answer, Answer::Refused(Trouble::Drive { .. }))
}

// Whether a line of the transcript of a run is a `worn` line.
fn has_worn(records: &Records) -> bool
    ensures { (script : List (List Command)) (end : ℕ)
        → result ≡ has_worn (transcript_of script records.now end) }
{
    any_is_worn(records.threads.as_slice()) || closed_worn(records.closing)
}

// Whether a line of the threads is a `worn` line.
fn any_is_worn(threads: &[Answers]) -> bool
    ensures { result ≡
        list_any (λ answers. list_any (λ a. is_worn (outcome_of a)) answers) threads.now }
{
    threads.iter().any(one_is_worn)
}

// Whether a line of a thread is a `worn` line.
fn one_is_worn(answers: &Answers) -> bool
    ensures { result ≡ list_any (λ a. is_worn (outcome_of a)) answers.now }
{
    answers.as_slice().iter().any(is_worn)
}

// Whether the line of a command is a `worn` line.
fn is_worn(answer: &Answer) -> bool
    ensures { result ≡ is_worn (outcome_of answer.now) }
{
    matches!(answer, Answer::Refused(Trouble::Worn { .. }))
}

// Whether the line of the close is a `worn` line.
fn closed_worn(closing: Option<Trouble>) -> bool
    ensures { result ≡ closed_worn (closing_of closing) }
{
    matches!(closing, Some(Trouble::Worn { .. }))
}
