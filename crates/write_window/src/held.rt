//! What is kept of an entry.
ghost use Rattle.std.specs.Prelude.{◌≡◌};
ghost use Rattle.write_window.specs.Entries.{has_landed, is_readable, user_count};

use sector_pool::{Class, Entry};

/// How far a taken entry has come on its way to the drive. It is answered from the window until it is readable
/// (Bjørling, González, Bonnet, FAST 2017, write buffering).
#[derive(Clone, Copy, Debug, PartialEq, Eq)]
pub enum Progress {
    /// No block on the drive holds it yet.
    Waiting,
    /// It has landed in a block that can't be read yet: one of the last MW_CUNITS of an Open chunk
    /// (Open-Channel SSD Specification 2.0, Chunk states and write pointer).
    Landed,
    /// Its block can be read.
    Readable,
}

impl Progress {
    pub(crate) fn has_landed(self) -> bool
        ensures { result ≡ has_landed self }
    {
        !matches!(self, Progress::Waiting)
    }

    pub(crate) fn is_readable(self) -> bool
        ensures { result ≡ is_readable self }
    {
        matches!(self, Progress::Readable)
    }
}

/// An entry in the window. Contracts speak of it; the window's calls give its parts.
pub struct Held {
    /// The entry, with its frame.
    pub entry: Entry,
    /// How far it has come.
    pub progress: Progress,
}

/// How many lines of the history an entry of this class is: one for a user's write, none for a copy.
pub(crate) fn user_count(class: Class) -> u64
    ensures { result ≡ user_count class }
{
    match class {
        Class::User => 1,
        Class::Copy => 0,
    }
}
