//! The names that a script posts, each with its word on the board.
ghost use Rattle.std.specs.Prelude.{ℕ, List, ◌≡◌, ◌<◌, ◌+◌, ◌^◌, ◌∷◌, ◌++◌, [], Some, None, if◌then◌else◌, IfOk, OnOk, IsSome};
ghost use Rattle.std.specs.HashMap.{hash_map_len};
ghost use Rattle.std.specs.Str.{bytes_eq};
ghost use Rattle.pblk_model.specs.declared.script.Command.{Command};
ghost use Rattle.run_threads.specs.Names.{AreNames, IsNew, PostOnce, all_of, word_of};

use pblk_model::{Command, Script};
use std::alloc::{AllocError, Global};
use std::collections::HashMap;

/// The words of the names that a script posts, which count from 0 in the order of its posts, those
/// of the first thread first.
#[derive(Drop)]
pub(crate) struct Names {
    words: HashMap<String, usize>,
}

impl Names {
    /// The names that a script posts, none of them twice. Takes all its memory here.
    pub(crate) fn new(alloc: Global, script: &Script) -> Result<Names, AllocError>
        requires once { PostOnce (all_of script.now) }
        ensures { IfOk result (λ names. AreNames names (all_of script.now)) }
    {
        let mut names = Names {
            words: HashMap::new(alloc),
        };
        for thread in script.as_slice() {
            names.prepare(alloc, thread.as_slice())?;
        }
        Ok(names)
    }

    // Gives the names that commands post the next words, in their order.
    fn prepare(&mut self, alloc: Global, commands: &[Command]) -> Result<(), AllocError>
        ensures { OnOk result ((before rest : List Command) → AreNames self.old before
            → PostOnce (before ++ (commands.now ++ rest))
            → AreNames self.new (before ++ commands.now)) }
    {
        for command in commands {
            self.prepare_one(alloc, command)?;
        }
        Ok(())
    }

    // Gives the name that a command posts the next word.
    fn prepare_one(&mut self, alloc: Global, command: &Command) -> Result<(), AllocError>
        ensures { OnOk result ((before : List Command) → AreNames self.old before
            → IsNew before command.now → AreNames self.new (before ++ command.now ∷ [])) }
    {
        match command {
            Command::Post(name) => self.add(alloc, name.as_str())?,
            _ => {}
        }
        Ok(())
    }

    // Gives a new name the next word.
    fn add(&mut self, alloc: Global, name: &str) -> Result<(), AllocError>
        ensures words { OnOk result ((other : List ℕ) → word_of self.new other
            ≡ (if bytes_eq name.now other then Some (hash_map_len self.old.words)
            else word_of self.old other)) }
        ensures count { OnOk result (word_of self.old name.now ≡ None
            → hash_map_len self.new.words ≡ hash_map_len self.old.words + 1) }
    {
        let word = self.words.len();
        let name = String::from_str(alloc, name)?;
        self.words.insert(name, word)?;
        Ok(())
    }

    /// How many names there are.
    pub(crate) fn count(&self) -> usize
        ensures count { result ≡ hash_map_len self.now.words }
        ensures small { result < 2 ^ 63 }
    {
        self.words.len()
    }

    /// The word of a name that is posted.
    pub(crate) fn word(&self, name: &str) -> usize
        requires { IsSome (word_of self.now name.now) }
        ensures { word_of self.now name.now ≡ Some result }
    {
        match self.words.get(name) {
            Some(word) => *word,
            None => unreachable!(),
        }
    }
}
