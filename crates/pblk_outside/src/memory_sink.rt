//! A sink in memory.
ghost use Rattle.std.specs.Prelude.{◌≡◌, ◌+◌, ◌-◌, ◌^◌, ◌<◌, ◌≤◌, min, [], ◌++◌, Contains, OnOk, OnErr, IfOk, IsErr};
ghost use Rattle.pblk_outside.specs.Faults.{HasRisen};
ghost use Rattle.pblk_outside.specs.Sink.{TakesPrefix};

use crate::fault_count::FaultCount;
use crate::plan::Plan;
use crate::{Sink, SinkErr};
use std::alloc::{AllocError, Global};

/// A sink in memory, which tells what it has taken and fails at chosen calls, counted from 1.
///
/// A call that is to fail takes the first half of its piece, or nothing where memory is wanting. A
/// call that wants memory otherwise takes nothing and fails too.
#[derive(Drop)]
pub struct MemorySink {
    bytes: Vec<u8>,
    plan: Plan,
    faults: FaultCount,
}

impl MemorySink {
    ghost use Rattle.pblk_outside.specs.MemorySink.{taken_of, failing_of, calls_of, faults_of};

    /// A sink that has taken nothing. The calls with these numbers are to fail. Fails only for want
    /// of memory.
    pub fn new(alloc: Global, failing: &[u64]) -> Result<Self, AllocError>
        ensures empty { IfOk result (λ sink. taken_of sink ≡ []) }
        ensures failing { IfOk result (λ sink. failing_of sink ≡ failing.now) }
        ensures no_calls { IfOk result (λ sink. calls_of sink ≡ 0) }
        ensures no_faults { IfOk result (λ sink. faults_of sink ≡ 0) }
    {
        Ok(MemorySink {
            bytes: Vec::new(alloc),
            plan: Plan::new(alloc, failing)?,
            faults: FaultCount::new(),
        })
    }

    /// The bytes taken so far.
    pub fn taken(&self) -> &[u8]
        ensures { result.now ≡ taken_of self.now }
    {
        &self.bytes
    }
}

impl Sink for MemorySink {
    ghost use Rattle.pblk_outside.specs.MemorySink.{sink_view, taken_of, failing_of, calls_of, faults_of};

    ghost view = { sink_view };

    fn write(&mut self, bytes: &[u8]) -> Result<(), SinkErr>
        ensures planned { Contains (failing_of self.old) (calls_of self.new) → IsErr result }
        ensures counted { calls_of self.new ≡ min (calls_of self.old + 1) (2 ^ 64 - 1) }
        ensures same_plan { failing_of self.new ≡ failing_of self.old }

        // What each `Sink` ensures.
        ensures took { OnOk result (taken_of self.new ≡ taken_of self.old ++ bytes.now) }
        ensures took_prefix { OnErr result
            (TakesPrefix bytes.now (taken_of self.old) (taken_of self.new)) }
        ensures failed { OnErr result (HasRisen (faults_of self.old) (faults_of self.new)) }
        ensures same_told { (sink_view self.new).told ≡ (sink_view self.old).told }
        ensures calm { OnOk result (faults_of self.new ≡ faults_of self.old) }
        ensures never_falls { faults_of self.old ≤ faults_of self.new }
        ensures bounded { faults_of self.new < 2 ^ 64 }
    {
        if self.plan.next_call_fails() {
            self.faults.rise();
            let _ = self.bytes.extend_from_slice(&bytes[..bytes.len() / 2]);
            return Err(SinkErr::Failed);
        }
        if self.bytes.extend_from_slice(bytes).is_err() {
            self.faults.rise();
            return Err(SinkErr::Failed);
        }
        Ok(())
    }
}
