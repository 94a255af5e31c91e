//! Scripts, and the bytes that are them.

ghost use Rattle.std.specs.Prelude.{◌≡◌, [], ◌∷◌, ℕ, List, Some, Err, codes};
ghost use Rattle.std.specs.List.{join_with_byte};
ghost use Rattle.pblk_model.specs.declared.script.Command.{Command};
ghost use Rattle.pblk_model.specs.declared.script.Command.TheVariants.{Write, Read, Post, Await};
ghost use Rattle.pblk_model.specs.declared.script.ScriptErr.TheVariants.{Stuck};
ghost use Rattle.pblk_model.specs.Script.{CommandFits, NeverStuck, ScriptFits, command_line};
ghost use Rattle.pblk_model.specs.ScriptText.{Commands, IsScript, Said, read_script, said_in, said_line};
ghost use Rattle.pblk_laws.specs.ScriptLines.{AreLinesOf};

/// A line that is read is the one spelling of what it says.
pub fn a_line_is_spelled()
    ensures { (bytes : List ℕ) (said : Said) → said_in bytes ≡ Some said → bytes ≡ said_line said }
{}

/// The spelling of a command that a target takes is read as that command.
pub fn a_spelled_line_is_read()
    ensures { (capacity : ℕ) (c : Command) → CommandFits capacity c
        → said_in (command_line c) ≡ Some (Commands c) }
{}

/// Bytes that are read as a script are its lines, each begun before the limit of a script's
/// length. The target takes the script, and there is a time for each of its commands.
pub fn a_read_script_is_spelled()
    ensures spelled { (capacity : ℕ) (bytes : List ℕ) (script : List (List Command))
        → IsScript capacity bytes script → AreLinesOf bytes script }
    ensures fits { (capacity : ℕ) (bytes : List ℕ) (script : List (List Command))
        → IsScript capacity bytes script → ScriptFits capacity script }
    ensures flows { (capacity : ℕ) (bytes : List ℕ) (script : List (List Command))
        → IsScript capacity bytes script → NeverStuck script }
{}

/// Bytes that are the lines of a script are read as it, where the target takes it and there is a
/// time for each of its commands.
pub fn a_spelled_script_is_read()
    ensures { (capacity : ℕ) (bytes : List ℕ) (script : List (List Command))
        → AreLinesOf bytes script → ScriptFits capacity script → NeverStuck script
        → IsScript capacity bytes script }
{}

/// Bytes are at most one script.
pub fn bytes_are_one_script()
    ensures { (capacity : ℕ) (bytes : List ℕ) (a b : List (List Command))
        → IsScript capacity bytes a → IsScript capacity bytes b → a ≡ b }
{}

/// Bytes that are refused as stuck are the lines of a script that the target would take, if there
/// were a time for each of its commands. There is none.
pub fn a_stuck_script_has_no_times()
    ensures { (capacity : ℕ) (bytes : List ℕ) (line : ℕ)
        → read_script capacity bytes ≡ Err (Stuck line) → (script : List (List Command))
        × AreLinesOf bytes script × ScriptFits capacity script × ¬ NeverStuck script }
{}

/// Three threads that hear each other are a script.
pub fn three_posts_are_a_script()
    ensures { IsScript 64 (join_with_byte 10 (codes "thread" ∷ codes "w 3 1 7" ∷ codes "post a"
        ∷ codes "thread" ∷ codes "await a" ∷ codes "w 3 1 8" ∷ codes "post b"
        ∷ codes "thread" ∷ codes "await b" ∷ codes "r 3 1" ∷ []))
        ((Write 3 1 7 ∷ Post (codes "a") ∷ [])
        ∷ (Await (codes "a") ∷ Write 3 1 8 ∷ Post (codes "b") ∷ [])
        ∷ (Await (codes "b") ∷ Read 3 1 ∷ [])
        ∷ []) }
{}

/// Two threads that await each other first are stuck.
pub fn two_awaits_are_stuck()
    ensures { read_script 64 (join_with_byte 10 (codes "thread" ∷ codes "await a" ∷ codes "post b"
        ∷ codes "thread" ∷ codes "await b" ∷ codes "post a" ∷ [])) ≡ Err (Stuck 2) }
{}
