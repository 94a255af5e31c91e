//! Files in memory.
ghost use Rattle.std.specs.Prelude.{◌≡◌, ◌+◌, ◌-◌, ◌^◌, ◌↔◌, ℕ, [], min, List, Some, None, Contains, OnOk, OnErr, IfOk, IfErr, IsErrOf};
ghost use Rattle.std.specs.Option.{option_copied};
ghost use Rattle.pblk_outside.specs.Files.{AddsFault, AppendsFile, IsCalm, SameFiles, SameOthers};
ghost use Rattle.pblk_outside.specs.declared.file_fault.FileCall.TheVariants.{Read, Write};

use crate::file_fault::Faulted;
use crate::plan::Plan;
use crate::{FileCall, FileErr, FileFault, Files};
use std::alloc::{AllocError, Global};
use std::collections::BTreeMap;
use unit_port::Log;

/// Files in memory, which tell what they hold and fail at chosen calls.
///
/// The calls of `read` and `write` are counted together, from 1. A call that is to fail answers
/// `Failed` and changes no file; so does a `write` that wants memory.
#[derive(Drop)]
pub struct MemoryFiles {
    alloc: Global,
    contents: BTreeMap<String, Vec<u8>>,
    plan: Plan,
    faults: Log<FileFault>,
}

impl MemoryFiles {
    ghost use Rattle.pblk_outside.specs.MemoryFiles.{file_of, failing_of, calls_of, faults_of};

    /// No files. The calls with these numbers are to fail. Fails only for want of memory.
    pub fn new(alloc: Global, failing: &[u64]) -> Result<Self, AllocError>
        ensures empty { IfOk result (λ store. (name : List ℕ) → file_of store name ≡ None) }
        ensures failing { IfOk result (λ store. failing_of store ≡ failing.now) }
        ensures no_calls { IfOk result (λ store. calls_of store ≡ 0) }
        ensures no_faults { IfOk result (λ store. faults_of store ≡ []) }
    {
        Ok(MemoryFiles {
            alloc,
            contents: BTreeMap::new(alloc),
            plan: Plan::new(alloc, failing)?,
            faults: Log::new(alloc)?,
        })
    }

    /// Makes a file hold these bytes, and counts as no call. Fails only for want of memory, and
    /// then changes nothing.
    pub fn put(&mut self, name: &str, bytes: &[u8]) -> Result<(), AllocError>
        ensures stored { OnOk result (file_of self.new name.now ≡ Some bytes.now) }
        ensures same_others { SameOthers name.now (file_of self.old) (file_of self.new) }
        ensures err { OnErr result (SameFiles (file_of self.old) (file_of self.new)) }
        ensures failing { failing_of self.new ≡ failing_of self.old }
        ensures calls { calls_of self.new ≡ calls_of self.old }
        ensures faults { faults_of self.new ≡ faults_of self.old }
    {
        let key = String::from_str(self.alloc, name)?;
        let content = Vec::from_slice(self.alloc, bytes)?;
        self.contents.insert(key, content)?;
        Ok(())
    }

    /// What the file of this name holds, if there is one. It counts as no call.
    pub fn get(&self, name: &str) -> Option<&[u8]>
        ensures { option_copied result ≡ file_of self.now name.now }
    {
        match self.contents.get(name) {
            Some(bytes) => Some(bytes.as_slice()),
            None => None,
        }
    }
}

impl Files for MemoryFiles {
    ghost use Rattle.pblk_outside.specs.MemoryFiles.{files_view, file_of, failing_of, calls_of};

    ghost view = { files_view };

    fn read(&mut self, name: &str, into: &mut Vec<u8>) -> Result<(), FileErr>
        ensures planned { IsErrOf result FileErr.Failed
            ↔ Contains (failing_of self.old) (calls_of self.new) }
        ensures counted { calls_of self.new ≡ min (calls_of self.old + 1) (2 ^ 64 - 1) }
        ensures same_plan { failing_of self.new ≡ failing_of self.old }

        // What each `Files` ensures, where all is told.
        ensures appends { OnOk result
            (AppendsFile name.now (files_view self.old) into.old.items into.new.items) }
        ensures kept { OnErr result (into.new.items ≡ into.old.items) }
        ensures calm { OnOk result (IsCalm (files_view self.old) (files_view self.new)) }

        ensures failed { IsErrOf result FileErr.Failed →
            AddsFault name.now Read (files_view self.old) (files_view self.new) }
        ensures missing { IsErrOf result FileErr.Missing →
            file_of self.old name.now ≡ None }
        ensures missing_calm { IsErrOf result FileErr.Missing →
            IsCalm (files_view self.old) (files_view self.new) }
        ensures memory { IsErrOf result FileErr.Memory →
            (bytes : List ℕ) × (file_of self.old name.now ≡ Some bytes) }
        ensures memory_calm { IsErrOf result FileErr.Memory →
            IsCalm (files_view self.old) (files_view self.new) }

        ensures same_files { SameFiles (file_of self.old) (file_of self.new) }
        ensures same_told { (files_view self.new).told ≡ (files_view self.old).told }
    {
        if self.plan.next_call_fails() {
            self.faults.add(&Faulted {
                name,
                call: FileCall::Read,
            });
            return Err(FileErr::Failed);
        }
        match self.contents.get(name) {
            Some(bytes) => match into.extend_from_slice(bytes) {
                Ok(()) => Ok(()),
                Err(_) => Err(FileErr::Memory),
            },
            None => Err(FileErr::Missing),
        }
    }

    fn write(&mut self, name: &str, bytes: &[u8]) -> Result<(), FileErr>
        ensures planned { Contains (failing_of self.old) (calls_of self.new) →
            IsErrOf result FileErr.Failed }
        ensures counted { calls_of self.new ≡ min (calls_of self.old + 1) (2 ^ 64 - 1) }
        ensures same_plan { failing_of self.new ≡ failing_of self.old }
        ensures changes_nothing { OnErr result (SameFiles (file_of self.old) (file_of self.new)) }

        // What each `Files` ensures, where all is told.
        ensures stored { OnOk result (file_of self.new name.now ≡ Some bytes.now) }
        ensures calm { OnOk result (IsCalm (files_view self.old) (files_view self.new)) }

        ensures only_failed { IfErr result (λ e. e ≡ FileErr.Failed) }
        ensures failed { OnErr result
            (AddsFault name.now Write (files_view self.old) (files_view self.new)) }

        ensures same_others { SameOthers name.now (file_of self.old) (file_of self.new) }
        ensures same_told { (files_view self.new).told ≡ (files_view self.old).told }
    {
        if !self.plan.next_call_fails() && self.put(name, bytes).is_ok() {
            return Ok(());
        }
        self.faults.add(&Faulted {
            name,
            call: FileCall::Write,
        });
        Err(FileErr::Failed)
    }
}
