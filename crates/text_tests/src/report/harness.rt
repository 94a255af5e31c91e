//! Records of plain rows, and what is told of them.
use crate::report::fitting::are_answered;
use pblk_model::ScriptErr;
use run_report::transcript;
use run_script::read_script;
use run_threads::{Answer, Answers, Front, Place, Records, ThreadRows, Trouble, Word, Words};
use std::alloc::{AllocError, Global};

/// What a command was answered.
#[derive(Clone, Copy, Debug)]
pub(crate) enum Row {
    /// Its first position, and its count.
    Placed(u64, u32),
    /// Its front, and its words.
    Words(u64, &'static [Word]),
    /// Its front.
    Synced(u64),
    Done,
    /// The unit and its event.
    Drive(u32, u64),
    /// What was wanted, and what there was.
    Worn(u64, u64),
}

/// A run: the answers of each thread, what opening and closing answered, and the position below which
/// everything is kept.
#[derive(Clone, Copy, Debug)]
pub(crate) struct Run {
    pub(crate) threads: &'static [&'static [Row]],
    pub(crate) opening: Option<Trouble>,
    pub(crate) closing: Option<Trouble>,
    pub(crate) end: u64,
}

/// The transcript of a run of a script on a target of 64 sectors.
pub(crate) fn told(alloc: Global, script: &str, run: &Run) -> Result<String, AllocError> {
    let script = match read_script(alloc, script.as_bytes(), 64) {
        Ok(script) => script,
        Err(ScriptErr::Memory) => return Err(AllocError),
        Err(_) => return format!(in alloc; "no script"),
    };
    let records = records(alloc, run)?;
    if !are_answered(&script, &records) {
        return format!(in alloc; "no answers of the script");
    }
    let bytes = transcript(alloc, &script, &records, run.end)?;
    match String::from_utf8(bytes) {
        Ok(text) => Ok(text),
        Err(_) => format!(in alloc; "no text"),
    }
}

fn records(alloc: Global, run: &Run) -> Result<Records, AllocError> {
    let mut threads = Vec::new(alloc);
    for rows in run.threads {
        threads.push(answers(alloc, rows)?)?;
    }
    Ok(Records {
        threads: ThreadRows::new(threads),
        opening: run.opening,
        closing: run.closing,
    })
}

fn answers(alloc: Global, rows: &[Row]) -> Result<Answers, AllocError> {
    let mut list = Vec::new(alloc);
    for row in rows {
        list.push(answer(alloc, row)?)?;
    }
    Ok(Answers::new(list))
}

// A front's position differs from its number of users' writes, so that one can't pass for the other.
fn answer(alloc: Global, row: &Row) -> Result<Answer, AllocError> {
    let position = 1000;
    Ok(match *row {
        Row::Placed(first, count) => Answer::Placed(Place { first, count }),
        Row::Words(users, words) => Answer::Words {
            front: Front { users, position },
            words: Words::new(Vec::from_slice(alloc, words)?),
        },
        Row::Synced(users) => Answer::Synced(Front { users, position }),
        Row::Done => Answer::Done,
        Row::Drive(unit, event) => Answer::Refused(Trouble::Drive { unit, event }),
        Row::Worn(wanted, have) => Answer::Refused(Trouble::Worn { wanted, have }),
    })
}
