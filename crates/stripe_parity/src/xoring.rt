//! Exclusive ors of sectors and of marks.

ghost use Rattle.std.specs.Prelude.{◌≡◌, length};
ghost use Rattle.stripe_parity.specs.Xors.{xor_bytes as xored_bytes, xor_marks as xored_marks, zero_mark};

use pblk_model::Mark;

/// The longest sector of a drive that is taken, in bytes.
pub(crate) const MAX_SECTOR: usize = 4096;

/// The mark of zeros alone.
pub(crate) const ZERO_MARK: Mark = Mark {
    lba: 0,
    position: 0,
};

/// Replaces bytes by their exclusive or with as many others.
pub(crate) fn xor_bytes(out: &mut [u8], with: &[u8])
    requires { length with.now ≡ length out.old }
    ensures { out.new ≡ xored_bytes out.old with.now }
{
    for i in 0..out.len() {
        out[i] ^= with[i];
    }
}

/// The exclusive ors of the two numbers of marks.
pub(crate) fn xor_marks(mark: Mark, with: Mark) -> Mark
    ensures { result ≡ xored_marks mark with }
{
    Mark {
        lba: mark.lba ^ with.lba,
        position: mark.position ^ with.position,
    }
}
