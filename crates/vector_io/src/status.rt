//! The status of a vector's addresses.
ghost use Rattle.std.specs.Prelude.{◌≡◌, ◌-◌, ◌<◌, ◌≤◌, ◌++◌, [], ◌∷◌, length, replicate, Bool, List};
ghost use Rattle.vector_io.specs.Status.{HasBits};

/// What became of the commands of a vector's addresses: a bit for each address, by its index, from the
/// lowest on. All further bits are 0.
#[derive(Clone, Copy, Debug, PartialEq, Eq)]
pub struct Status {
    /// The address's command failed or was stopped.
    pub failed: u64,
    /// The address's block isn't readable yet.
    pub empty: u64,
}

/// The bits with one more, at this place.
pub(crate) fn with_bit(bits: u64, at: usize, set: bool) -> u64
    requires { at < 64 }
    ensures { (flags : List Bool) → length flags ≡ at → HasBits bits flags
        → HasBits result (flags ++ set ∷ []) }
{
    if set { bits | (1u64 << at) } else { bits }
}

/// The bits with more of them, all set or none, from a place to before another.
pub(crate) fn with_bits(bits: u64, from: usize, to: usize, set: bool) -> u64
    requires end { to ≤ 64 }
    requires order { from ≤ to }
    ensures { (flags : List Bool) → length flags ≡ from → HasBits bits flags
        → HasBits result (flags ++ replicate (to - from) set) }
{
    let mut bits = bits;
    for at in from..to {
        bits = with_bit(bits, at, set);
    }
    bits
}
