//! The words of `soak`.

ghost use Rattle.std.specs.Prelude.{ℕ, List, ◌≡◌, IfSome, IsSomeAnd, map, string_bytes};
ghost use Rattle.command_words.specs.Words.{AreSoakWords};

use crate::item::is_plain;
use crate::number::{read_number, read_rounds};

/// Reads the words after `soak`: the image, the number of a load, and how many rounds it has.
pub(crate) fn read_soak(words: &[String]) -> Option<(&str, u64, u32)>
    ensures found { IfSome result
        (λ r. AreSoakWords (map string_bytes words.now) r.0.now r.1 r.2) }
    ensures only { (image : List ℕ) (number rounds : ℕ)
        → AreSoakWords (map string_bytes words.now) image number rounds
        → IsSomeAnd result (λ r. (r.0.now ≡ image) × (r.1 ≡ number) × (r.2 ≡ rounds)) }
{
    let [image, number, rounds] = words else {
        return None;
    };
    let image = image.as_str();
    if !is_plain(image) {
        return None;
    }
    let number = read_number(number.as_str())?;
    let rounds = read_rounds(rounds.as_str())?;
    Some((image, number, rounds))
}
