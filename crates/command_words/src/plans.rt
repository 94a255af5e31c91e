//! Plans of faults, as many as the words of a run may name.

ghost use Rattle.std.specs.Prelude.{ℕ, ◌≡◌, ◌≤◌, ◌<◌, ◌++◌, ◌∷◌, [], List, length, IfSome, IfNone};
ghost use Rattle.unit_port.specs.declared.armed.FaultPlan.{FaultPlan};

use std::marker::Model;
use unit_port::{CommandKind, FaultPlan};

/// Up to 16 plans of faults, in the order in which they were named.
#[derive(Debug, Drop)]
pub struct FaultPlans {
    // the first `count` of these are the plans
    slots: [FaultPlan; 16],
    count: usize,
}

// Contracts see the list of the plans.
impl Model for FaultPlans {
    ghost use Rattle.std.specs.Prelude.{List};
    ghost use Rattle.unit_port.specs.declared.armed.FaultPlan.{FaultPlan as ModelPlan};

    ghost Value = { List ModelPlan };

    ghost use Rattle.command_words.specs.Plans.{plans_kept, ArePlansKept};

    ghost view = { plans_kept };

    ghost invariant = { ArePlansKept };
}

// A plan that falls on no command.
fn no_plan() -> FaultPlan {
    FaultPlan {
        unit: 0,
        kind: CommandKind::Program,
        nth: 0,
        cut: 0,
    }
}

impl FaultPlans {
    /// No plan.
    pub fn none() -> FaultPlans
        ensures { result ≡ [] }
    {
        FaultPlans {
            slots: [no_plan(); 16],
            count: 0,
        }
    }

    /// These plans and one more behind them. None where there are 16.
    pub(crate) fn with(self, plan: FaultPlan) -> Option<FaultPlans>
        ensures more { IfSome result (λ next. (next ≡ self ++ plan ∷ []) × (length self < 16)) }
        ensures full { IfNone result (length self ≡ 16) }
    {
        if self.count == 16 {
            return None;
        }
        let mut slots = self.slots;
        slots[self.count] = plan;
        Some(FaultPlans {
            slots,
            count: self.count + 1,
        })
    }

    /// The plans, in their order. There are 16 at most.
    pub fn as_slice(&self) -> &[FaultPlan]
        ensures plans { result.now ≡ self.now }
        ensures few { length self.now ≤ 16 }
    {
        &self.slots[..self.count]
    }
}
