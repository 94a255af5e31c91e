//! Why a command is refused, and what a call tells at its end.

ghost use Rattle.std.specs.Prelude.{◌≡◌, ◌≤◌};
ghost use Rattle.pblk_cli.specs.declared.refusal.Refusal.TheVariants.{Memory};
ghost use Rattle.pblk_cli.specs.Endings.{reason_of};
ghost use Rattle.pblk_cli.specs.Telling.{Finishes, Gives, Refuses, Tells, status_of};

use crate::output::Output;
use crate::parity_line::tell_parity;
use command_text::{
    tell_certificate, tell_check, tell_failed, tell_image, tell_memory, tell_missing, tell_script,
    tell_words,
};
use image_check::CheckErr;
use pblk_model::{ImageErr, ScriptErr};
use pblk_outside::{Sink, SinkErr};
use std::alloc::{AllocError, AllocFailed};
use stripe_parity::ParityErr;

/// Why a command is refused.
#[derive(Clone, Copy)]
pub(crate) enum Refusal<'a> {
    /// The image, or what it is to be made of, is refused.
    Image(ImageErr),
    /// The script is refused.
    Script(ScriptErr),
    /// The parity is refused, or it isn't one of this drive.
    Parity(ParityErr),
    /// The file of this name could not be read or written.
    Failed(&'a str),
    /// The file of this name isn't there.
    Missing(&'a str),
    /// The certificate's bytes are none, by the first line that isn't of one.
    Certificate(u32),
    /// The certificate isn't right.
    Check(CheckErr),
    /// The words, which ask for more than the image has.
    Words,
    /// There was no memory.
    Memory,
}

impl From<AllocError> for Refusal<'_> {
    ghost from_gives = { λ _ refusal. refusal ≡ Memory };

    fn from(_e: AllocError) -> Self {
        Refusal::Memory
    }
}

impl<T: Drop> From<AllocFailed<T>> for Refusal<'_> {
    ghost from_gives = { λ _ refusal. refusal ≡ Memory };

    fn from(_e: AllocFailed<T>) -> Self {
        Refusal::Memory
    }
}

impl Refusal<'_> {
    // The status that the program ends with.
    fn status(self) -> u8
        ensures { result ≡ status_of (reason_of self.entry) }
    {
        match self {
            Refusal::Words => 1,
            Refusal::Script(_) => 2,
            Refusal::Image(_) | Refusal::Parity(_) | Refusal::Certificate(_) | Refusal::Check(_) =>
                3,
            Refusal::Failed(_) | Refusal::Missing(_) => 4,
            Refusal::Memory => 7,
        }
    }

    /// Writes the line of this refusal, and answers its status. Whether the line could be written
    /// changes nothing.
    pub(crate) fn refuse<O: Sink>(self, out: &mut O) -> u8
        ensures tells { Tells (Refuses (reason_of self.entry)) result
            (O.view out.old) (O.view out.new) }
        ensures told { (O.view out.new).told ≡ (O.view out.old).told }
        ensures never_falls { (O.view out.old).faults ≤ (O.view out.new).faults }
    {
        match self {
            Refusal::Image(e) => tell_image(out, &e),
            Refusal::Script(e) => tell_script(out, &e),
            Refusal::Parity(e) => tell_parity(out, &e),
            Refusal::Failed(name) => tell_failed(out, name),
            Refusal::Missing(name) => tell_missing(out, name),
            Refusal::Certificate(line) => tell_certificate(out, line),
            Refusal::Check(e) => tell_check(out, &e),
            Refusal::Words => tell_words(out),
            Refusal::Memory => tell_memory(out),
        }
        self.status()
    }
}

/// Writes the text of a command that did its work: the status is the command's own, or 8 where the
/// output failed.
pub(crate) fn finish<O: Sink>(output: &Output, out: &mut O) -> u8
    ensures tells { Tells (Gives output.now.status output.now.text.items) result
        (O.view out.old) (O.view out.new) }
    ensures told { (O.view out.new).told ≡ (O.view out.old).told }
    ensures never_falls { (O.view out.old).faults ≤ (O.view out.new).faults }
{
    match out.write(&output.text) {
        Ok(()) => output.status,
        Err(SinkErr::Failed) => 8,
    }
}
