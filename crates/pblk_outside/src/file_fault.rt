//! Faults of files, each with the name and the kind of the call that met it.

use pblk_model::Shows;
use std::marker::Model;

/// A kind of call of files.
#[derive(Clone, Copy, Debug, PartialEq, Eq)]
pub enum FileCall {
    /// A file is read.
    Read,
    /// A file is written.
    Write,
}

/// A fault of files: the name that a call was given, and the kind of the call.
///
/// Lists of faults exist in contracts alone, so no value of this type is ever made.
pub struct FileFault {
    unmade: Unmade,
}

// No value of it can be made.
enum Unmade {}

impl Model for FileFault {
    ghost use Rattle.pblk_outside.specs.Files.{FileFault};

    ghost Value = { FileFault };

    ghost view = { λ f. elim f.unmade as (λ _. FileFault) [ ] };
}

/// A call that met a fault, as it is shown to the list of faults.
#[derive(Drop)]
pub(crate) struct Faulted<'a> {
    pub(crate) name: &'a str,
    pub(crate) call: FileCall,
}

impl Shows for Faulted<'_> {
    type Event = FileFault;

    ghost shown = { λ f. record { name = f.name.now; call = f.call } };
}
