//! Sets of units as the bits of a number.

ghost use Rattle.std.specs.Prelude.{◌≡◌, ◌<◌, ◌≤◌, ◌^◌, ℕ, length, slice_get, Some};
ghost use Rattle.std.specs.Bool.{OnTrue};
ghost use Rattle.pblk_layout.specs.Online.{is_in, units_below, units_in};

/// Whether a unit is in the set.
pub(crate) fn is_in(online: u64, unit: u32) -> bool
    ensures is { result ≡ is_in online unit }
    ensures below { OnTrue result (unit < 64) }
{
    unit < 64 && (online >> unit) & 1 == 1
}

/// How many units are in the set.
pub(crate) fn width(online: u64) -> u32
    ensures width { result ≡ length (units_in online) }
    ensures few { (n : ℕ) → online < 2 ^ n → result ≤ n }
{
    online.count_ones()
}

/// How many units below this one are in the set.
pub(crate) fn rank(online: u64, unit: u32) -> u32
    requires { unit < 64 }
    ensures { result ≡ length (units_below online unit) }
{
    (online & ((1 << unit) - 1)).count_ones()
}

/// The unit of the set that has `n` others of it below.
pub(crate) fn nth(online: u64, n: u32) -> u32
    requires { n < length (units_in online) }
    ensures { slice_get (units_in online) n ≡ Some result }
{
    let mut left = n;
    for unit in 0..64 {
        if is_in(online, unit) {
            if left == 0 {
                return unit;
            }
            left -= 1;
        }
    }
    unreachable!()
}
