//! The system's files. No proof says what they hold.
ghost use Rattle.std.specs.Prelude.{◌≡◌, ℕ, List, [], ◌++◌, IfOk};

use crate::file_fault::Faulted;
use crate::replace::replace_file;
use crate::{FileCall, FileErr, FileFault, Files};
use std::alloc::{AllocError, Global};
use std::io::{ErrorKind, Read};
use std::{fs, io, rt};
use unit_port::Log;

/// The system's files, under their paths. They tell nothing of what they hold, so each error but want
/// of memory comes with a fault.
///
/// A file is never left half written: a write makes a new file beside the old one, waits until it is
/// stored, and only then gives it the old one's place. The new file has the permissions and the owner
/// of the old one. A name that is a symbolic link stands for the file that it leads to. Only regular
/// files that may be written are replaced; other names of a file, made by hard links, keep the old
/// bytes. After an error the old file is there whole, and nothing new beside it. This is tested; no
/// clause says it.
#[derive(Drop)]
pub struct RealFiles<R> {
    alloc: Global,
    runtime: R,
    faults: Log<FileFault>,
}

impl<R: rt::Files + Drop> RealFiles<R> {
    ghost use Rattle.pblk_outside.specs.Real.{real_files_view};

    /// The files that this runtime reaches, with no fault. Fails only for want of memory.
    pub fn new(alloc: Global, runtime: R) -> Result<Self, AllocError>
        ensures { IfOk result (λ files. (real_files_view files).faults ≡ []) }
    {
        let faults = Log::new(alloc)?;
        Ok(RealFiles {
            alloc,
            runtime,
            faults,
        })
    }
}

/// How many bytes of a file are read at a time.
const PIECE: usize = 1 << 16;

// Appends a file's bytes. After an error some of them may be there.
//
// They come by way of a small buffer, since the library's `read_to_end` first fills the room that it
// reads into with zeros, one byte after another.
fn append_file<R: rt::Files>(runtime: &R, name: &str, into: &mut Vec<u8>) -> io::Result<()>
    ensures { (bytes : List ℕ) × (into.new.items ≡ into.old.items ++ bytes) }
{
    let mut file = fs::open(runtime, name)?;
    let mut piece = [0; PIECE];
    for _ in 0..u64::MAX {
        match file.read(&mut piece) {
            Ok(0) => return Ok(()),
            Ok(count) => into.extend_from_slice(&piece[..count])?,
            Err(error) if error.kind() == ErrorKind::Interrupted => {}
            Err(error) => return Err(error),
        }
    }
    Err(io::Error::from(ErrorKind::TimedOut))
}

impl<R: rt::Files> Files for RealFiles<R> {
    ghost use Rattle.pblk_outside.specs.Real.{real_files_view};

    ghost view = { real_files_view };

    fn read(&mut self, name: &str, into: &mut Vec<u8>) -> Result<(), FileErr> {
        let had = into.len();
        let Err(error) = append_file(&self.runtime, name, into) else {
            return Ok(());
        };
        into.truncate(had);
        let error = match error.kind() {
            ErrorKind::OutOfMemory => return Err(FileErr::Memory),
            ErrorKind::NotFound => FileErr::Missing,
            _ => FileErr::Failed,
        };
        self.faults.add(&Faulted {
            name,
            call: FileCall::Read,
        });
        Err(error)
    }

    fn write(&mut self, name: &str, bytes: &[u8]) -> Result<(), FileErr> {
        match replace_file(self.alloc, &self.runtime, name, bytes) {
            Ok(()) => Ok(()),
            Err(_) => {
                self.faults.add(&Faulted {
                    name,
                    call: FileCall::Write,
                });
                Err(FileErr::Failed)
            }
        }
    }
}
