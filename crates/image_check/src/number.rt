//! Numbers as they are spelled in certificates.

ghost use Rattle.std.specs.Prelude.{◌≡◌, ◌∷◌, []};
ghost use Rattle.std.specs.Option.{option_map};
ghost use Rattle.pblk_model.specs.ScriptText.{number_of};
ghost use Rattle.image_check.specs.Text.{AreNumbers};

use crate::cut::cut_at;
use itoa::Buffer;

/// The number that these bytes spell: `0`, or digits without a leading 0, below 2^64.
pub(crate) fn one_in(text: &[u8]) -> Option<u64>
    ensures { AreNumbers 1 text.now (option_map (λ n. n ∷ []) result) }
{
    number_of(text)
}

/// The two numbers that these bytes spell, parted by a space.
pub(crate) fn two_in(text: &[u8]) -> Option<(u64, u64)>
    ensures { AreNumbers 2 text.now (option_map (λ n. n.0 ∷ n.1 ∷ []) result) }
{
    let (word, rest) = cut_at(text, b' ')?;
    let first = number_of(word)?;
    let second = one_in(rest)?;
    Some((first, second))
}

/// The three numbers that these bytes spell, parted by a space each.
pub(crate) fn three_in(text: &[u8]) -> Option<(u64, u64, u64)>
    ensures { AreNumbers 3 text.now (option_map (λ n. n.0 ∷ n.1 ∷ n.2 ∷ []) result) }
{
    let (word, rest) = cut_at(text, b' ')?;
    let first = number_of(word)?;
    let (second, third) = two_in(rest)?;
    Some((first, second, third))
}

/// The four numbers that these bytes spell, parted by a space each.
pub(crate) fn four_in(text: &[u8]) -> Option<(u64, u64, u64, u64)>
    ensures { AreNumbers 4 text.now (option_map (λ n. n.0 ∷ n.1 ∷ n.2 ∷ n.3 ∷ []) result) }
{
    let (word, rest) = cut_at(text, b' ')?;
    let first = number_of(word)?;
    let (second, third, fourth) = three_in(rest)?;
    Some((first, second, third, fourth))
}

// The number that a word spells: its digits are added up, and what comes out is spelled again.
fn number_of(word: &[u8]) -> Option<u64>
    ensures { result ≡ number_of word.now }
{
    let mut number: u64 = 0;
    for byte in word {
        let digit = u64::from(byte.saturating_sub(b'0'));
        number = number.checked_mul(10)?.checked_add(digit)?;
    }
    let mut digits = Buffer::new();
    if word == digits.format(number).as_bytes() {
        Some(number)
    } else {
        None
    }
}
