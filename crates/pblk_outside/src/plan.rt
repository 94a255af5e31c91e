//! Which calls of something in memory are to fail.
ghost use Rattle.std.specs.Prelude.{◌≡◌, ◌+◌, ◌-◌, ◌^◌, ◌↔◌, min, IsTrue, Contains, IfOk};

use std::alloc::{AllocError, Global};

/// The numbers of the calls that are to fail, counted from 1, and how many calls there were. That
/// count stands still at its greatest value.
#[derive(Drop)]
pub(crate) struct Plan {
    failing: Vec<u64>,
    calls: u64,
}

impl Plan {
    /// No call was made yet.
    pub(crate) fn new(alloc: Global, failing: &[u64]) -> Result<Plan, AllocError>
        ensures failing { IfOk result (λ plan. plan.failing.items ≡ failing.now) }
        ensures calls { IfOk result (λ plan. plan.calls ≡ 0) }
    {
        Ok(Plan {
            failing: Vec::from_slice(alloc, failing)?,
            calls: 0,
        })
    }

    /// Counts a call and says whether it is to fail.
    pub(crate) fn next_call_fails(&mut self) -> bool
        ensures planned { IsTrue result ↔ Contains self.old.failing.items self.new.calls }
        ensures counted { self.new.calls ≡ min (self.old.calls + 1) (2 ^ 64 - 1) }
        ensures failing { self.new.failing.items ≡ self.old.failing.items }
    {
        self.calls = self.calls.saturating_add(1);
        self.failing.contains(&self.calls)
    }
}
