//! Where a drive stops, as a word spells it.

ghost use Rattle.std.specs.Prelude.{ℕ, List, IfSome, IfNone};
ghost use Rattle.unit_port.specs.declared.armed.Fuse.{Fuse};
ghost use Rattle.command_words.specs.Grammar.{IsFuse};
ghost use Rattle.command_words.specs.Words.{IsInThree};

use crate::number::read_small;
use unit_port::Fuse;

/// The stop that a word spells, as `unit:nth:cut`: three numbers below 2^32, of which nth is at
/// least 1.
pub(crate) fn read_fuse(word: &str) -> Option<Fuse>
    ensures found { IfSome result (λ f. IsFuse f word.now) }
    ensures none { IfNone result ((f : Fuse) → ¬ IsFuse f word.now) }
{
    let (unit, nth, cut) = in_three(word)?;
    let unit = read_small(unit)?;
    let nth = read_small(nth)?;
    let cut = read_small(cut)?;
    if nth == 0 {
        return None;
    }
    Some(Fuse { unit, nth, cut })
}

/// The parts of a word before its first `:`, between its first two, and after these. None where it
/// has fewer.
pub(crate) fn in_three(word: &str) -> Option<(&str, &str, &str)>
    ensures found { IfSome result (λ r. IsInThree r.0.now r.1.now r.2.now word.now) }
    ensures none { IfNone result ((first second third : List ℕ)
        → ¬ IsInThree first second third word.now) }
{
    let (first, rest) = word.split_once(':')?;
    let (second, third) = rest.split_once(':')?;
    Some((first, second, third))
}
