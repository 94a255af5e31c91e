//! The words of a line.

ghost use Rattle.std.specs.Prelude.{◌≡◌, ◌==◌, [], ◌∷◌, ◌++◌, IfSome, IfNone};
ghost use Rattle.std.specs.List.{slice_split};
ghost use Rattle.run_script.specs.Lines.{Lacks};

use std::marker::Model;

/// The words of a line, which are parted by one space each. Contracts see those that are left.
#[derive(Drop)]
pub(crate) struct Words<'a> {
    // What wasn't taken yet. None where the last word was.
    left: Option<&'a [u8]>,
}

impl<'a> Model for Words<'a> {
    ghost use Rattle.std.specs.Prelude.{ℕ, List};
    ghost use Rattle.std.specs.Option.{option_map};
    ghost use Rattle.run_script.specs.Lines.{words_of};

    ghost Value = { List (List ℕ) };

    ghost view = { λ a. words_of (option_map (λ bytes. bytes.now) a.left) };
}

impl<'a> Words<'a> {
    /// The words of a line. An empty line has one, which is empty.
    pub(crate) fn of(line: &'a [u8]) -> Words<'a>
        ensures { result ≡ slice_split (λ byte. byte == 32) line.now }
    {
        Words { left: Some(line) }
    }

    /// Takes the first word that is left.
    pub(crate) fn next(&mut self) -> Option<&'a [u8]>
        ensures word { IfSome result (λ word. self.old ≡ word.now ∷ self.new) }
        ensures none { IfNone result (self.old ≡ []) }
    {
        let line = self.left?;
        match split_word(line) {
            Some((word, rest)) => {
                self.left = Some(rest);
                Some(word)
            }
            None => {
                self.left = None;
                Some(line)
            }
        }
    }
}

// What stands before the first space, and what after it.
fn split_word(bytes: &[u8]) -> Option<(&[u8], &[u8])>
    ensures found { IfSome result (λ parts. bytes.now ≡ parts.0.now ++ 32 ∷ parts.1.now) }
    ensures first { IfSome result (λ parts. Lacks 32 parts.0.now) }
    ensures none { IfNone result (Lacks 32 bytes.now) }
{
    let place = bytes.iter().position(|byte| *byte == b' ')?;
    Some((&bytes[..place], &bytes[place + 1..]))
}
