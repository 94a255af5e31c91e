//! Numbers as words spell them.

ghost use Rattle.std.specs.Prelude.{◌≡◌, ◌≢◌, ℕ, ◌<◌, ◌≤◌, ◌^◌, IfSome, IfNone};
ghost use Rattle.std.specs.Fmt.{decimal};

use pblk_model::is_padded;

/// The number that a word spells: `0`, or digits without a leading 0, below 2^64.
pub(crate) fn read_number(word: &str) -> Option<u64>
    ensures found { IfSome result (λ n. word.now ≡ decimal n) }
    ensures none { IfNone result ((n : ℕ) → n < 2 ^ 64 → word.now ≢ decimal n) }
{
    if is_padded(word.as_bytes()) {
        return None;
    }
    word.parse::<u64>().ok()
}

/// The number below 2^32 that a word spells so.
pub(crate) fn read_small(word: &str) -> Option<u32>
    ensures found { IfSome result (λ n. word.now ≡ decimal n) }
    ensures none { IfNone result ((n : ℕ) → n < 2 ^ 32 → word.now ≢ decimal n) }
{
    let number = read_number(word)?;
    if number > u64::from(u32::MAX) {
        return None;
    }
    Some(number as u32)
}

/// The number from 0 to 8 that a word spells so.
pub(crate) fn read_lanes(word: &str) -> Option<u32>
    ensures found { IfSome result (λ n. (word.now ≡ decimal n) × (n ≤ 8)) }
    ensures none { IfNone result ((n : ℕ) → n ≤ 8 → word.now ≢ decimal n) }
{
    let number = read_small(word)?;
    if number > 8 {
        return None;
    }
    Some(number)
}

/// The number from 1 to 3,125 that a word spells so.
pub(crate) fn read_rounds(word: &str) -> Option<u32>
    ensures found { IfSome result (λ n. (word.now ≡ decimal n) × (1 ≤ n) × (n ≤ 3125)) }
    ensures none { IfNone result ((n : ℕ) → 1 ≤ n → n ≤ 3125 → word.now ≢ decimal n) }
{
    let number = read_small(word)?;
    if number < 1 || number > 3125 {
        return None;
    }
    Some(number)
}
