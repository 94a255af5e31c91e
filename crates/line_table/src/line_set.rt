//! Sets of lines.

ghost use Rattle.std.specs.Prelude.{ℕ, ◌*◌, ◌≡◌, ◌≢◌, ◌<◌, ◌≤◌, true, false, IfSome, IfNone};
ghost use Rattle.line_table.specs.LineSets.{is_set, has};

use std::marker::Model;

/// A set of lines, of which the least is at hand. A drive has at most 1024 lines, and the set is a
/// bit for each. It takes no memory, and no call takes more than a few steps, whatever the set.
///
/// Contracts see the list of its words. `has` of them tells whether a line is in the set.
#[derive(Drop)]
pub struct LineSet {
    words: [u64; 16],
}

impl Model for LineSet {
    ghost use Rattle.std.specs.Prelude.{ℕ, List};

    ghost Value = { List ℕ };

    ghost view = { λ s. s.words };
}

impl LineSet {
    /// No line.
    pub fn empty() -> LineSet
        ensures { (n : ℕ) → has result n ≡ false }
    {
        LineSet { words: [0; 16] }
    }

    /// Puts a line in or takes it out. Its number is below 1024.
    pub fn set(&mut self, line: u32, to: bool)
        requires { line < 1024 }
        ensures set { has self.new line ≡ to }
        ensures others { (n : ℕ) → n ≢ line → has self.new n ≡ has self.old n }
    {
        let index = line as usize / 64;
        self.words[index] = with_bit(self.words[index], line % 64, to);
    }

    /// Whether a line is in the set. Its number is below 1024.
    pub fn has(&self, line: u32) -> bool
        requires { line < 1024 }
        ensures { result ≡ has self.now line }
    {
        self.words[line as usize / 64] >> (line % 64) & 1 == 1
    }

    /// The least line of the set. None exactly where the set is empty.
    pub fn least(&self) -> Option<u32>
        ensures inside { IfSome result (λ n. n < 1024) }
        ensures found { IfSome result (λ n. has self.now n ≡ true) }
        ensures least { IfSome result (λ n. (m : ℕ) → m < n → has self.now m ≡ false) }
        ensures none { IfNone result ((m : ℕ) → has self.now m ≡ false) }
    {
        self.least_from(0)
    }

    /// The least line of the set whose number is at least this one. None exactly where the set has
    /// no such line.
    pub fn least_from(&self, from: u32) -> Option<u32>
        ensures inside { IfSome result (λ n. n < 1024) }
        ensures from { IfSome result (λ n. from ≤ n) }
        ensures found { IfSome result (λ n. has self.now n ≡ true) }
        ensures least { IfSome result (λ n. (m : ℕ) → from ≤ m → m < n → has self.now m ≡ false) }
        ensures none { IfNone result ((m : ℕ) → from ≤ m → has self.now m ≡ false) }
    {
        let first = from / 64;
        if first < 16 {
            let word = self.words[first as usize] >> (from % 64);
            if word != 0 {
                return Some(from + word.trailing_zeros());
            }
        }
        self.least_in_words(first + 1)
    }

    // The least line in the words from one of them on.
    fn least_in_words(&self, first: u32) -> Option<u32>
        ensures inside { IfSome result (λ n. n < 1024) }
        ensures from { IfSome result (λ n. first * 64 ≤ n) }
        ensures found { IfSome result (λ n. has self.now n ≡ true) }
        ensures least { IfSome result (λ n.
            (m : ℕ) → first * 64 ≤ m → m < n → has self.now m ≡ false) }
        ensures none { IfNone result ((m : ℕ) → first * 64 ≤ m → has self.now m ≡ false) }
    {
        for index in first..16u32 {
            let word = self.words[index as usize];
            if word != 0 {
                return Some(index * 64 + word.trailing_zeros());
            }
        }
        None
    }
}

/// A word with one bit set or cleared.
fn with_bit(word: u64, bit: u32, to: bool) -> u64
    requires { bit < 64 }
    ensures set { is_set result bit ≡ to }
    ensures others { (n : ℕ) → n < 64 → n ≢ bit → is_set result n ≡ is_set word n }
{
    if to {
        word | 1 << bit
    } else {
        word & !(1 << bit)
    }
}
