//! Scripts, line by line.

ghost use Rattle.std.specs.Prelude.{◌≡◌, ◌++◌, ◌∷◌, [], ◌<◌, ◌+◌, length, List, ℕ, Bool, Some, None, Ok, Err, IfOk, IfNone, OnOk, IfErr, ◌≤◌, map, min, ◌^◌, ◌-◌, IsTrue};
ghost use Rattle.std.specs.Option.{option_map, option_map_or};
ghost use Rattle.pblk_model.specs.ScriptText.{Heard, saids, form_holds, limit_holds, range_holds, said_in, script_of, posts_refusal, stuck_at, threads_of, unposted};
ghost use Rattle.run_script.specs.Heard.{IsRead, threads_kept, refusal_of, IsWithinLimits, Hears, placed_at, Places};
ghost use Rattle.run_script.specs.Reading.{Gives};
ghost use Rattle.run_script.specs.Said.{said_of};

use crate::names::Names;
use crate::said::{Said, said_in};
use crate::thread::{Thread, script_of};
use crate::turns::{MOST_THREADS, stuck_among, unposted, unposted_in};
use pblk_model::{Command, PostName, Script, ScriptErr};
use std::alloc::{AllocError, Global};

/// How many commands a script may have.
const MOST_COMMANDS: u32 = 200_000;

/// How many sectors a command may have.
const MOST_SECTORS: u64 = 16;

/// What was read of a script, for a target of a capacity.
#[derive(Drop)]
pub(crate) struct Reader {
    capacity: u64,
    // the threads that ended, and the one that commands go to
    ended: Vec<Thread>,
    current: Option<Thread>,
    commands: u32,
    // the names that were posted
    names: Names,
}

impl Reader {
    pub(crate) fn new(alloc: Global, capacity: u64) -> Reader
        ensures capacity { result.capacity ≡ capacity }
        ensures nothing { IsRead result [] }
    {
        Reader {
            capacity,
            ended: Vec::new(alloc),
            current: None,
            commands: 0,
            names: Names::new(alloc),
        }
    }

    /// Reads a line that isn't skipped: the line `number`, which is `early` where it begins before
    /// the limit of a script's length.
    ///
    /// Refused, in this order: `Form` where the line has no known form, or is a command before the
    /// first thread, or posts a name a second time; `Limit` where it isn't early, or is a thread
    /// or a command too many, or names too many sectors or none; `Range` where its sectors aren't
    /// all below the capacity. `Memory` where there was none to keep what the line says, which then
    /// isn't refused.
    pub(crate) fn read_line(
        &mut self,
        alloc: Global,
        number: u32,
        early: bool,
        line: &[u8],
    ) -> Result<(), ScriptErr>
        ensures capacity { self.new.capacity ≡ self.old.capacity }
        ensures placed { (before : Heard) → IsRead self.old before
            → Places result self.new before
            (placed_at self.old.capacity (saids before) number early (said_in line.now)) }
    {
        let Some(said) = said_in(line) else {
            return Err(ScriptErr::Form(number));
        };
        if let Some(refusal) = self.refusal(number, early, &said) {
            return Err(refusal);
        }
        if self.hear(alloc, number, said).is_err() {
            return Err(ScriptErr::Memory);
        }
        Ok(())
    }

    // Why a line is refused.
    fn refusal(&self, number: u32, early: bool, said: &Said<'_>) -> Option<ScriptErr>
        ensures refused { (before : Heard) → IsRead self.now before
            → result ≡ refusal_of self.now.capacity (saids before) number early (said_of said.now) }
        ensures room { IfNone result (IsWithinLimits self.now said.now) }
    {
        if !self.form_holds(said) {
            return Some(ScriptErr::Form(number));
        }
        if !(early && self.limit_holds(said)) {
            return Some(ScriptErr::Limit(number));
        }
        if !range_holds(self.capacity, said) {
            return Some(ScriptErr::Range(number));
        }
        None
    }

    // Whether a line stands where it may: a command in a thread, and a post of a name that wasn't
    // posted yet.
    fn form_holds(&self, said: &Said<'_>) -> bool
        ensures { (before : Heard) → IsRead self.now before
            → result ≡ form_holds (saids before) (said_of said.now) }
    {
        match said {
            Said::Thread => true,
            Said::Post(name) => self.current.is_some() && !self.names.contains(name),
            Said::Write { .. } | Said::Read { .. } | Said::Flush | Said::Await(_) => {
                self.current.is_some()
            }
        }
    }

    // Whether a line is within the limits on threads, commands and sectors.
    fn limit_holds(&self, said: &Said<'_>) -> bool
        ensures limit { (before : Heard) → IsRead self.now before
            → result ≡ limit_holds (saids before) (said_of said.now) }
        ensures room { IsTrue result → IsWithinLimits self.now said.now }
    {
        match said {
            Said::Thread => self.threads() < MOST_THREADS,
            Said::Write { count, .. } | Said::Read { count, .. } => {
                self.commands < MOST_COMMANDS && 1 <= *count && *count <= MOST_SECTORS
            }
            Said::Flush | Said::Post(_) | Said::Await(_) => self.commands < MOST_COMMANDS,
        }
    }

    // How many threads began.
    fn threads(&self) -> usize
        ensures { result ≡ min (length (threads_kept self.now)) (2 ^ 64 - 1) }
    {
        match self.current {
            Some(_) => self.ended.len().saturating_add(1),
            None => self.ended.len(),
        }
    }

    // Keeps what a line says.
    fn hear(&mut self, alloc: Global, number: u32, said: Said<'_>) -> Result<(), AllocError>
        requires { IsWithinLimits self.old said }
        ensures capacity { self.new.capacity ≡ self.old.capacity }
        ensures heard { OnOk result (Hears self.old self.new number (said_of said.entry)) }
    {
        match said {
            Said::Thread => self.begin(alloc),
            Said::Write { lba, count, tag } => {
                let count = count as u32;
                self.add(number, Command::Write { lba, count, tag })
            }
            Said::Read { lba, count } => {
                let count = count as u32;
                self.add(number, Command::Read { lba, count })
            }
            Said::Flush => self.add(number, Command::Flush),
            Said::Post(name) => {
                self.names.insert(alloc, name)?;
                self.add(number, Command::Post(name_of(alloc, name)?))
            }
            Said::Await(name) => self.add(number, Command::Await(name_of(alloc, name)?)),
        }
    }

    // Ends the thread that is open, and opens the next.
    fn begin(&mut self, alloc: Global) -> Result<(), AllocError>
        ensures capacity { self.new.capacity ≡ self.old.capacity }
        ensures ended { OnOk result (self.new.ended.items ≡ threads_kept self.old) }
        ensures current { OnOk result (self.new.current ≡ Some []) }
        ensures commands { OnOk result (self.new.commands ≡ self.old.commands) }
        ensures names { OnOk result (self.new.names ≡ self.old.names) }
    {
        if let Some(thread) = self.current.replace(Thread::new(alloc)) {
            self.ended.push(thread)?;
        }
        Ok(())
    }

    // Adds a command to the thread that is open.
    fn add(&mut self, number: u32, command: Command) -> Result<(), AllocError>
        requires { self.old.commands < 200000 }
        ensures capacity { self.new.capacity ≡ self.old.capacity }
        ensures ended { OnOk result (self.new.ended.items ≡ self.old.ended.items) }
        ensures current { OnOk result (self.new.current
            ≡ option_map (λ thread. thread ++ (number, command) ∷ []) self.old.current) }
        ensures commands { OnOk result (self.new.commands ≡ self.old.commands + 1) }
        ensures names { OnOk result (self.new.names ≡ self.old.names) }
    {
        if let Some(thread) = &mut self.current {
            thread.push(number, command)?;
        }
        self.commands += 1;
        Ok(())
    }

    /// The script whose lines were read. Refused: `NeverPosted` where a line awaits a name that
    /// nobody posts; `Stuck` where a thread waits for ever; `Memory` where there was none for the
    /// script, which then isn't refused.
    pub(crate) fn finish(self, alloc: Global) -> Result<Script, ScriptErr>
        ensures answer { (heard : Heard) → IsRead self heard
            → Gives result (option_map_or Err (posts_refusal heard) (Ok (script_of heard))) }
        ensures memory { (heard : Heard) → IsRead self heard
            → result ≡ Err ScriptErr.Memory → posts_refusal heard ≡ None }
    {
        let mut reader = self;
        if let Some(line) = reader.unposted() {
            return Err(ScriptErr::NeverPosted(line));
        }
        if let Some(line) = reader.stuck() {
            return Err(ScriptErr::Stuck(line));
        }
        match reader.into_script(alloc) {
            Ok(script) => Ok(script),
            Err(_) => Err(ScriptErr::Memory),
        }
    }

    // The least line that awaits a name that nobody posts.
    fn unposted(&self) -> Option<u32>
        ensures { (heard : Heard) → IsRead self.now heard
            → result ≡ unposted (saids heard) heard }
    {
        match unposted(&self.names, self.ended.as_slice()) {
            Some(line) => Some(line),
            None => match &self.current {
                Some(thread) => unposted_in(&self.names, thread.as_slice()),
                None => None,
            },
        }
    }

    // The least line at which a thread is stuck, if one is, where no name is awaited that nobody
    // posts. The names that the threads come to post are taken out.
    fn stuck(&mut self) -> Option<u32>
        ensures threads { threads_kept self.new ≡ threads_kept self.old }
        ensures stuck { (heard : Heard) → IsRead self.old heard
            → unposted (saids heard) heard ≡ None → result ≡ stuck_at (threads_of heard) }
    {
        match &self.current {
            Some(last) => stuck_among(&mut self.names, self.ended.as_slice(), last.as_slice()),
            None => None,
        }
    }

    // The script of the threads.
    fn into_script(self, alloc: Global) -> Result<Script, AllocError>
        ensures { IfOk result (λ script. script ≡ map (map (λ x. x.1)) (threads_kept self)) }
    {
        script_of(alloc, self.into_threads()?)
    }

    // The threads.
    fn into_threads(self) -> Result<Vec<Thread>, AllocError>
        ensures { IfOk result (λ threads. threads.items ≡ threads_kept self) }
    {
        let Reader { ended, current, .. } = self;
        let mut threads = ended;
        if let Some(thread) = current {
            threads.push(thread)?;
        }
        Ok(threads)
    }
}

// The name that stands in a line, as a command keeps it.
fn name_of(alloc: Global, name: &str) -> Result<PostName, AllocError>
    ensures { IfOk result (λ kept. kept ≡ name.now) }
{
    Ok(PostName::new(String::from_str(alloc, name)?))
}

// Whether the sectors of a line are those of a target of this capacity.
fn range_holds(capacity: u64, said: &Said<'_>) -> bool
    ensures { result ≡ range_holds capacity (said_of said.now) }
{
    match said {
        Said::Write { lba, count, .. } | Said::Read { lba, count } => {
            *count <= capacity && *lba <= capacity - *count
        }
        Said::Thread | Said::Flush | Said::Post(_) | Said::Await(_) => true,
    }
}
