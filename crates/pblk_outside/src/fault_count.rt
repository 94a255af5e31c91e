//! A count of faults.
ghost use Rattle.std.specs.Prelude.{◌≡◌, ◌+◌, ◌-◌, ◌^◌, ◌<◌, ◌≤◌, min};
ghost use Rattle.pblk_outside.specs.Faults.{HasRisen};

/// How many faults there were. It never falls, and stands still at its greatest value.
#[derive(Drop)]
pub struct FaultCount {
    count: u64,
    ghost bounded: { count < 2 ^ 64 },
}

impl FaultCount {
    /// No fault yet.
    pub fn new() -> Self
        ensures { result.count ≡ 0 }
    {
        FaultCount { count: 0 }
    }

    /// Counts one more.
    pub fn rise(&mut self)
        ensures counted { self.new.count ≡ min (self.old.count + 1) (2 ^ 64 - 1) }
        ensures risen { HasRisen self.old.count self.new.count }
        ensures never_falls { self.old.count ≤ self.new.count }
    {
        self.count = self.count.saturating_add(1);
    }
}
