//! The first thing of which two lists don't say the same.

ghost use Rattle.std.specs.Prelude.{◌≡◌, ◌↔◌, ℕ, IsTrue, map, nat_lt, if◌then◌else◌, IfSome, IfNone};
ghost use Rattle.std.specs.List.Sorted.{IsStrictlyIncreasing};
ghost use Rattle.image_check.specs.Right.{IsLeastOther};

use crate::certificate::{LineEntry, LiveCount};
use pblk_model::Winner;

/// What a certificate says of a number.
pub(crate) trait Numbered {
    /// The number.
    ghost of: { Self → ℕ };

    fn number(&self) -> u64
        ensures { result ≡ of self.now };

    /// Whether both say the same.
    fn is(&self, other: &Self) -> bool
        ensures { IsTrue result ↔ (self.now ≡ other.now) };
}

impl Numbered for LineEntry {
    ghost of = { λ e. e.line };

    fn number(&self) -> u64 {
        u64::from(self.line)
    }

    fn is(&self, other: &Self) -> bool {
        self == other
    }
}

impl Numbered for Winner {
    ghost of = { λ w. w.lba };

    fn number(&self) -> u64 {
        self.lba
    }

    fn is(&self, other: &Self) -> bool {
        self == other
    }
}

impl Numbered for LiveCount {
    ghost of = { λ l. l.line };

    fn number(&self) -> u64 {
        u64::from(self.line)
    }

    fn is(&self, other: &Self) -> bool {
        self == other
    }
}

/// Of two lists by rising number what one of them says of the least number of which they don't say
/// the same.
pub(crate) fn first_other<'a, N: Numbered>(right: &'a [N], said: &'a [N]) -> Option<&'a N>
    requires right { IsStrictlyIncreasing (map N.of right.now) }
    requires said { IsStrictlyIncreasing (map N.of said.now) }
    ensures other { IfSome result (λ x. IsLeastOther N.of right.now said.now (N.of x.now)) }
    ensures same { IfNone result (said.now ≡ right.now) }
{
    for place in 0..right.len() {
        let Some(theirs) = said.get(place) else {
            return Some(&right[place]);
        };
        if !right[place].is(theirs) {
            return Some(lesser(&right[place], theirs));
        }
    }
    said.get(right.len())
}

// The one of the lesser number.
fn lesser<'a, N: Numbered>(a: &'a N, b: &'a N) -> &'a N
    ensures { result.now ≡ (if nat_lt (N.of b.now) (N.of a.now) then b.now else a.now) }
{
    if b.number() < a.number() { b } else { a }
}
