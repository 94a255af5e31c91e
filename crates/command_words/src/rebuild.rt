//! The words of `rebuild`.

ghost use Rattle.std.specs.Prelude.{ℕ, List, ◌≡◌, IfSome, IsSomeAnd, map, string_bytes};
ghost use Rattle.command_words.specs.Words.{AreRebuildWords};

use crate::item::is_plain;
use crate::number::read_small;

/// Reads the words after `rebuild`: the image, the file of its parity, and a unit.
pub(crate) fn read_rebuild(words: &[String]) -> Option<(&str, &str, u32)>
    ensures found { IfSome result
        (λ r. AreRebuildWords (map string_bytes words.now) r.0.now r.1.now r.2) }
    ensures only { (image parity : List ℕ) (unit : ℕ)
        → AreRebuildWords (map string_bytes words.now) image parity unit
        → IsSomeAnd result (λ r. (r.0.now ≡ image) × (r.1.now ≡ parity) × (r.2 ≡ unit)) }
{
    let [image, parity, unit] = words else {
        return None;
    };
    let image = image.as_str();
    let parity = parity.as_str();
    if !is_plain(image) || !is_plain(parity) {
        return None;
    }
    let unit = read_small(unit.as_str())?;
    Some((image, parity, unit))
}
