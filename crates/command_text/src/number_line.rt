//! Lines of a word and numbers.

ghost use Rattle.std.specs.Prelude.{◌≡◌, ◌≤◌, ◌++◌, ◌∷◌, []};
ghost use Rattle.pblk_model.specs.Text.{spaced, newline};
ghost use Rattle.command_text.specs.Says.{Says};

use crate::line::tell;
use itoa::Buffer;
use pblk_outside::Sink;

/// Writes the line of a word and a number.
pub fn tell_number<O: Sink>(out: &mut O, word: &[u8], number: u64)
    ensures said { Says (word.now ++ spaced (number ∷ []) ++ newline)
        (O.view out.old) (O.view out.new) }
    ensures same_told { (O.view out.new).told ≡ (O.view out.old).told }
    ensures never_falls { (O.view out.old).faults ≤ (O.view out.new).faults }
{
    let mut digits = Buffer::new();
    tell(out, &[word, b" ", digits.format(number).as_bytes(), b"\n"]);
}

/// Writes the line of a word and three numbers.
pub(crate) fn tell_numbers<O: Sink>(out: &mut O, word: &[u8], first: u32, second: u32, third: u32)
    ensures said { Says (word.now ++ spaced (first ∷ second ∷ third ∷ []) ++ newline)
        (O.view out.old) (O.view out.new) }
    ensures same_told { (O.view out.new).told ≡ (O.view out.old).told }
    ensures never_falls { (O.view out.old).faults ≤ (O.view out.new).faults }
{
    let mut of_first = Buffer::new();
    let mut of_second = Buffer::new();
    let mut of_third = Buffer::new();
    tell(
        out,
        &[
            word,
            b" ",
            of_first.format(first).as_bytes(),
            b" ",
            of_second.format(second).as_bytes(),
            b" ",
            of_third.format(third).as_bytes(),
            b"\n",
        ],
    );
}
