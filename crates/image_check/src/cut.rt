//! Bytes, cut at one of them.

ghost use Rattle.std.specs.Prelude.{◌≡◌, ◌∷◌, ◌++◌, IfSome, IfNone};
ghost use Rattle.image_check.specs.Text.{Lacks};

/// What stands before the first such byte, and what after it.
pub(crate) fn cut_at(bytes: &[u8], byte: u8) -> Option<(&[u8], &[u8])>
    ensures found { IfSome result (λ parts. bytes.now ≡ parts.0.now ++ byte ∷ parts.1.now) }
    ensures first { IfSome result (λ parts. Lacks byte parts.0.now) }
    ensures none { IfNone result (Lacks byte bytes.now) }
{
    let place = bytes.iter().position(|found| *found == byte)?;
    Some((&bytes[..place], &bytes[place + 1..]))
}
