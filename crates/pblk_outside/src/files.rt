//! Whole files, read and written by name.
ghost use Rattle.std.specs.Prelude.{◌≡◌, ℕ, IsTrue, List, Some, None, OnOk, OnErr, IfErr, IsErrOf};
ghost use Rattle.pblk_outside.specs.Files.{FilesView, AddsFault, AppendsFile, IsCalm, SameFiles, SameOthers, TellsMissing};
ghost use Rattle.pblk_outside.specs.declared.file_fault.FileCall.TheVariants.{Read, Write};

use thiserror::Error;

/// Why a file was not read or written.
#[derive(Clone, Copy, Debug, PartialEq, Eq, Error)]
pub enum FileErr {
    /// The call met a fault, which is now the last of the files' faults.
    #[error("the file could not be read or written")]
    Failed,
    /// There is no file of that name.
    #[error("there is no such file")]
    Missing,
    /// There was no memory for the bytes of the file.
    #[error("out of memory")]
    Memory,
}

/// Files that are read and written whole, by name.
///
/// Contracts see whether they tell what they hold, what the file of each name holds, and the faults
/// that their calls have met, oldest first. A call adds at most one fault, and that is its own: its
/// name, and its kind.
pub trait Files {
    ghost view: { Self → FilesView };

    /// Appends the bytes of the file to `into`.
    ///
    /// `Failed` comes with a fault. `Missing` comes without one where the files tell that there is none
    /// of that name, and with one where they don't tell what they hold. `Memory` comes for want of
    /// memory, where the file is there as far as is told, without a fault. After an error `into` is as
    /// it was.
    fn read(&mut self, name: &str, into: &mut Vec<u8>) -> Result<(), FileErr>
        ensures appends { OnOk result
            (AppendsFile name.now (view self.old) into.old.items into.new.items) }
        ensures kept { OnErr result (into.new.items ≡ into.old.items) }
        ensures calm { OnOk result (IsCalm (view self.old) (view self.new)) }

        ensures failed { IsErrOf result FileErr.Failed →
            AddsFault name.now Read (view self.old) (view self.new) }
        ensures missing { IsErrOf result FileErr.Missing →
            TellsMissing name.now (view self.old) (view self.new) }
        ensures memory { IsErrOf result FileErr.Memory → IsTrue (view self.old).told →
            (bytes : List ℕ) × ((view self.old).file name.now ≡ Some bytes) }
        ensures memory_calm { IsErrOf result FileErr.Memory →
            IsCalm (view self.old) (view self.new) }

        ensures same_files { SameFiles (view self.old).file (view self.new).file }
        ensures same_told { (view self.new).told ≡ (view self.old).told };

    /// Makes the file of that name hold just these bytes, whether or not there was one.
    ///
    /// The only error is `Failed`, which comes with a fault. That file may hold any bytes after it.
    /// All other files stay as they were, with an error or without.
    fn write(&mut self, name: &str, bytes: &[u8]) -> Result<(), FileErr>
        ensures stored { OnOk result (IsTrue (view self.old).told →
            (view self.new).file name.now ≡ Some bytes.now) }
        ensures calm { OnOk result (IsCalm (view self.old) (view self.new)) }

        ensures only_failed { IfErr result (λ e. e ≡ FileErr.Failed) }
        ensures failed { OnErr result (AddsFault name.now Write (view self.old) (view self.new)) }

        ensures same_others { SameOthers name.now (view self.old).file (view self.new).file }
        ensures same_told { (view self.new).told ≡ (view self.old).told };
}
