//! Numbers as they are spelled in scripts.

ghost use Rattle.std.specs.Prelude.{◌≡◌};
ghost use Rattle.pblk_model.specs.ScriptText.{number_of};

use pblk_model::is_padded;

/// The number that a word spells: `0`, or digits without a leading 0, below 2^64.
pub(crate) fn number_of(word: &[u8]) -> Option<u64>
    ensures { result ≡ number_of word.now }
{
    if is_padded(word) {
        return None;
    }
    let Ok(text) = std::str::from_utf8(word) else {
        return None;
    };
    text.parse::<u64>().ok()
}
