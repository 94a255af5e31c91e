//! What a script asks for.

ghost use Rattle.std.specs.Prelude.{◌≡◌, ◌++◌, [], ◌∷◌, OnOk, OnErr, string_bytes};

use std::alloc::{AllocError, Global};
use std::marker::Model;
use thiserror::Error;

/// The name of a post. In a script that is accepted it has 1 to 16 lower-case ASCII letters or digits.
/// Contracts see its bytes.
#[derive(Debug, Drop)]
pub struct PostName {
    text: String,
}

impl Model for PostName {
    ghost use Rattle.std.specs.Prelude.{ℕ, List, string_bytes};

    ghost Value = { List ℕ };

    ghost view = { λ a. string_bytes a.text };
}

impl PostName {
    /// The name that a text is.
    pub fn new(text: String) -> PostName
        ensures { result ≡ string_bytes text }
    {
        PostName { text }
    }

    /// The name as text.
    pub fn as_str(&self) -> &str
        ensures { result.now ≡ self.now }
    {
        self.text.as_str()
    }
}

/// A command of a thread.
#[derive(Debug, Drop)]
pub enum Command {
    /// Write `count` sectors of tag `tag` from `lba` on.
    Write { lba: u64, count: u32, tag: u64 },
    /// Read `count` sectors from `lba` on.
    Read { lba: u64, count: u32 },
    /// Flush all that this thread has seen.
    Flush,
    /// Tell under a name what this thread has seen.
    Post(PostName),
    /// Wait for the post of a name, and hear it.
    Await(PostName),
}

/// The commands of a thread, numbered from 0. Contracts see their list.
#[derive(Debug, Drop)]
pub struct Commands {
    list: Vec<Command>,
}

impl Model for Commands {
    ghost use Rattle.std.specs.Prelude.{List};
    ghost use Rattle.pblk_model.specs.declared.script.Command.{Command};

    ghost Value = { List Command };

    ghost view = { λ a. a.list.items };
}

impl Commands {
    /// No commands.
    pub fn new(alloc: Global) -> Commands
        ensures { result ≡ [] }
    {
        Commands {
            list: Vec::new(alloc),
        }
    }

    /// Adds a command at the end. After want of memory the list is as it was.
    pub fn push(&mut self, command: Command) -> Result<(), AllocError>
        ensures ok { OnOk result (self.new ≡ self.old ++ command ∷ []) }
        ensures err { OnErr result (self.new ≡ self.old) }
    {
        self.list.push(command)?;
        Ok(())
    }

    /// The commands, in their order.
    pub fn as_slice(&self) -> &[Command]
        ensures { result.now ≡ self.now }
    {
        self.list.as_slice()
    }
}

/// The threads of a script, numbered from 0. Contracts see the list of their commands.
#[derive(Debug, Drop)]
pub struct Script {
    threads: Vec<Commands>,
}

impl Model for Script {
    ghost use Rattle.std.specs.Prelude.{List};
    ghost use Rattle.pblk_model.specs.declared.script.Command.{Command};

    ghost Value = { List (List Command) };

    ghost view = { λ a. a.threads.items };
}

impl Script {
    /// A script of no thread.
    pub fn new(alloc: Global) -> Script
        ensures { result ≡ [] }
    {
        Script {
            threads: Vec::new(alloc),
        }
    }

    /// Adds a thread at the end. After want of memory the script is as it was.
    pub fn push(&mut self, thread: Commands) -> Result<(), AllocError>
        ensures ok { OnOk result (self.new ≡ self.old ++ thread ∷ []) }
        ensures err { OnErr result (self.new ≡ self.old) }
    {
        self.threads.push(thread)?;
        Ok(())
    }

    /// The threads' commands, by the thread's number.
    pub fn as_slice(&self) -> &[Commands]
        ensures { result.now ≡ self.now }
    {
        self.threads.as_slice()
    }
}

/// Why bytes are no script, with the number of a line, from 1. A line number that has reached 2^32 - 1 stands
/// still there.
///
/// The first line that is refused by itself decides; within a line the order is `Form`, `Limit`, `Range`. Where
/// no line is refused by itself, `NeverPosted` comes before `Stuck`.
#[derive(Clone, Copy, Debug, PartialEq, Eq, Error)]
pub enum ScriptErr {
    /// The line has no known form, or is a command before the first thread, or posts a name a second time.
    #[error("line {0} has no known form")]
    Form(u32),
    /// The line is one too many, begins too late, or names too many sectors or none.
    #[error("line {0} is past a limit")]
    Limit(u32),
    /// The line's sectors aren't all below the capacity.
    #[error("line {0} names a sector past the capacity")]
    Range(u32),
    /// The line awaits a name that nobody posts. It is the least such line.
    #[error("line {0} awaits a name that nobody posts")]
    NeverPosted(u32),
    /// A thread waits at the line for ever. It is the least such line.
    #[error("a thread waits at line {0} for ever")]
    Stuck(u32),
    /// There was no memory.
    #[error("out of memory")]
    Memory,
}
