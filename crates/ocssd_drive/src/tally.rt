//! The count of a unit's commands of one kind, and the plans that are still to fall on them.
ghost use Rattle.std.specs.Prelude.{ℕ, List, ◌≡◌, ◌+◌, ◌<◌, ◌≤◌, ◌==◌, if◌then◌else◌, [], ◌∷◌, Some, None, IfOk, OnOk, OnErr, IfSome, IfNone, IsSome};
ghost use Rattle.std.specs.List.{AllByRecursion};
ghost use Rattle.std.specs.Option.{option_or};
ghost use Rattle.unit_port.specs.declared.armed.CommandKind.{CommandKind};
ghost use Rattle.unit_port.specs.declared.armed.FaultPlan.{FaultPlan};
ghost use Rattle.ocssd_drive.specs.Faults.{planned};
ghost use Rattle.ocssd_drive.specs.Tally.{IsTally, idle_tally, cut_of, IsFalling, IsPlace};

use std::alloc::{AllocError, Global};
use std::marker::Model;
use unit_port::{CommandKind, FaultPlan};

/// A fault that is to fall on the nth command of a kind, counted from 1.
#[derive(Clone, Copy)]
pub(crate) struct Fall {
    pub(crate) nth: u32,
    pub(crate) cut: u32,
}

/// How many commands of one kind a unit had since it was armed, and the faults that are to fall on later
/// ones.
///
/// What a command costs here doesn't grow with the plans: the next fault stands last.
#[derive(Drop)]
pub(crate) struct Tally {
    count: u64,
    falls: Vec<Fall>,
}

// Contracts see the count, which stands still at 2^64 - 1, and the faults, the last first.
impl Model for Tally {
    ghost use Rattle.ocssd_drive.specs.Tally.{TallyView, IsFalling};

    ghost Value = { TallyView };

    ghost view = { λ t. record { count = t.count; falls = t.falls.items } };

    ghost invariant = { λ t. IsFalling t.falls.items };
}

impl Tally {
    /// No command yet, and no fault to come.
    pub(crate) fn idle(alloc: Global) -> Tally
        ensures { result ≡ idle_tally }
    {
        Tally {
            count: 0,
            falls: Vec::new(alloc),
        }
    }

    /// No command yet, and the faults of the plans for this kind of this unit.
    pub(crate) fn new(
        alloc: Global,
        plans: &[FaultPlan],
        unit: u32,
        kind: CommandKind,
    ) -> Result<Tally, AllocError>
        ensures { IfOk result (λ t. IsTally plans.now unit kind 0 t) }
    {
        let mut falls = Vec::new(alloc);
        for plan in plans {
            add_fall(&mut falls, plan, unit, kind)?;
        }
        Ok(Tally { count: 0, falls })
    }

    /// Takes the count and all faults away.
    pub(crate) fn clear(&mut self)
        ensures { self.new ≡ idle_tally }
    {
        self.count = 0;
        self.falls.clear();
    }

    /// How many commands there were, or 2^64 - 1 where that is less.
    pub(crate) fn count(&self) -> u64
        ensures { result ≡ self.now.count }
    {
        self.count
    }

    /// The cut of the fault that falls on the next command, if one does.
    pub(crate) fn next(&self) -> Option<u32>
        ensures { (plans : List FaultPlan) (unit : ℕ) (kind : CommandKind) (n : ℕ)
            → IsTally plans unit kind n self.now → result ≡ planned plans unit kind (n + 1) }
    {
        cut_on(&self.falls, self.count.saturating_add(1))
    }

    /// Counts a command. A fault that fell on it is none to come.
    pub(crate) fn advance(&mut self)
        ensures { (plans : List FaultPlan) (unit : ℕ) (kind : CommandKind) (n : ℕ)
            → IsTally plans unit kind n self.old → IsTally plans unit kind (n + 1) self.new }
    {
        self.count = self.count.saturating_add(1);
        let count = self.count;
        drop_fallen(&mut self.falls, count);
    }
}

// The cut of the fault that falls on this command, where none is to fall before it.
fn cut_on(falls: &[Fall], nth: u64) -> Option<u32>
    requires { IsFalling falls.now }
    ensures { AllByRecursion (λ f. nth ≤ f.nth) falls.now → result ≡ cut_of falls.now nth }
{
    match falls.last() {
        Some(fall) if u64::from(fall.nth) == nth => Some(fall.cut),
        _ => None,
    }
}

// Takes the last fault away where it fell on the command with this number.
fn drop_fallen(falls: &mut Vec<Fall>, count: u64)
    requires { IsFalling falls.old.items }
    ensures falling { IsFalling falls.new.items }
    ensures later { (m : ℕ) → count < m → cut_of falls.new.items m ≡ cut_of falls.old.items m }
    ensures ahead { AllByRecursion (λ f. count ≤ f.nth) falls.old.items
        → AllByRecursion (λ f. count < f.nth) falls.new.items }
{
    if let Some(fall) = falls.last() {
        if u64::from(fall.nth) == count {
            falls.pop();
        }
    }
}

// Adds the fault of a plan, if it is one for this kind of this unit, and if none falls on the same
// command already.
fn add_fall(
    falls: &mut Vec<Fall>,
    plan: &FaultPlan,
    unit: u32,
    kind: CommandKind,
) -> Result<(), AllocError>
    requires { IsFalling falls.old.items }
    ensures falling { IsFalling falls.new.items }
    ensures cuts { OnOk result ((m : ℕ) → 0 < m
        → cut_of falls.new.items m
        ≡ option_or (cut_of falls.old.items m) (planned (plan.now ∷ []) unit kind m)) }
    ensures err { OnErr result (falls.new.items ≡ falls.old.items) }
{
    if plan.unit != unit || plan.kind != kind || plan.nth == 0 {
        return Ok(());
    }
    insert(falls, plan.nth, plan.cut)
}

// Puts a fault in its place, unless one that falls on the same command stands there.
fn insert(falls: &mut Vec<Fall>, nth: u32, cut: u32) -> Result<(), AllocError>
    requires falling { IsFalling falls.old.items }
    requires counted { 0 < nth }
    ensures falling { IsFalling falls.new.items }
    ensures cuts { OnOk result ((m : ℕ)
        → cut_of falls.new.items m
        ≡ option_or (cut_of falls.old.items m) (if nth == m then Some cut else None)) }
    ensures err { OnErr result (falls.new.items ≡ falls.old.items) }
{
    if let Some(at) = place(falls, nth) {
        falls.insert(at, Fall { nth, cut })?;
    }
    Ok(())
}

// Where a fault that falls on this command belongs, if none stands there yet.
fn place(falls: &[Fall], nth: u32) -> Option<usize>
    requires { IsFalling falls.now }
    ensures place { IfSome result (IsPlace falls.now nth) }
    ensures taken { IfNone result (IsSome (cut_of falls.now nth)) }
{
    falls.binary_search_by(|fall| nth.cmp(&fall.nth)).err()
}
