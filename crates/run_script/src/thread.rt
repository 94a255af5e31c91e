//! The threads of a script, with the lines of their commands.

ghost use Rattle.std.specs.Prelude.{◌≡◌, [], ◌∷◌, ◌++◌, map, IfOk, OnOk, OnErr};

use pblk_model::{Command, Commands, Script};
use std::alloc::{AllocError, Global};
use std::marker::Model;

/// A command, behind the number of its line.
pub(crate) type Numbered = (u32, Command);

/// The commands of a thread, each with the number of its line. Contracts see their list.
#[derive(Drop)]
pub(crate) struct Thread {
    commands: Vec<Numbered>,
}

impl Model for Thread {
    ghost use Rattle.std.specs.Prelude.{ℕ, List};
    ghost use Rattle.pblk_model.specs.declared.script.Command.{Command};

    ghost Value = { List (ℕ × Command) };

    ghost view = { λ a. a.commands.items };
}

impl Thread {
    /// No commands.
    pub(crate) fn new(alloc: Global) -> Thread
        ensures { result ≡ [] }
    {
        Thread {
            commands: Vec::new(alloc),
        }
    }

    /// Adds the command of a line at the end.
    pub(crate) fn push(&mut self, line: u32, command: Command) -> Result<(), AllocError>
        ensures { OnOk result (self.new ≡ self.old ++ (line, command) ∷ []) }
    {
        self.commands.push((line, command))?;
        Ok(())
    }

    pub(crate) fn as_slice(&self) -> &[Numbered]
        ensures { result.now ≡ self.now }
    {
        self.commands.as_slice()
    }

    // The commands alone.
    fn into_commands(self, alloc: Global) -> Result<Commands, AllocError>
        ensures { IfOk result (λ commands. commands ≡ map (λ x. x.1) self) }
    {
        let mut commands = Commands::new(alloc);
        for (_, command) in self.commands {
            commands.push(command)?;
        }
        Ok(commands)
    }
}

/// The script of some threads.
pub(crate) fn script_of(alloc: Global, threads: Vec<Thread>) -> Result<Script, AllocError>
    ensures { IfOk result (λ script. script ≡ map (map (λ x. x.1)) threads.items) }
{
    let mut script = Script::new(alloc);
    for thread in threads {
        script.push(thread.into_commands(alloc)?)?;
    }
    Ok(script)
}
