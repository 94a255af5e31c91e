//! Words that look like numbers, and spell none.

ghost use Rattle.std.specs.Prelude.{◌≡◌};
ghost use Rattle.pblk_model.specs.Number.{is_padded};

/// Whether a word begins with `+`, or with a 0 that more follows. Such a word spells no number, but
/// Rust's own reading of numbers takes it.
pub fn is_padded(word: &[u8]) -> bool
    ensures { result ≡ is_padded word.now }
{
    matches!(word, [b'+', ..] | [b'0', _, ..])
}
