//! What a command gives that did its work.

ghost use Rattle.std.specs.Prelude.{◌≡◌, string_bytes};

/// The status that the program ends with, and the text that it writes.
#[derive(Drop)]
pub(crate) struct Output {
    pub(crate) status: u8,
    pub(crate) text: Vec<u8>,
}

impl Output {
    /// Of a command that did all its work.
    pub(crate) fn done(text: String) -> Output
        ensures status { result.status ≡ 0 }
        ensures text { result.text.items ≡ string_bytes text }
    {
        Output {
            status: 0,
            text: text.into_bytes(),
        }
    }
}
