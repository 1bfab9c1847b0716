//! What a gate's fixed list tells: the plan of its disk's faults, and for a node the names of the clusters that fail.
//!
//! Layer: stands on `disk_core` (plans of faults) and `turn_gate` (lists of numbers in one); the gates of a node and of
//! the master cite its definitions.
//! Its one contract: the list tells the plan and the names.
#![tactic(auto)]

ghost use Rattle.std.specs.Prelude.{◌≡◌, ℕ, List};
ghost use Rattle.disk_core.specs.declared.plan.FaultPlan.{FaultPlan as a_plan};
ghost use Rattle.plan_numbers.specs.Plans.{fixed_numbers};

/// A law: the numbers of names and of a plan of faults tell the names and the plan.
pub fn plans_are_told_apart()
    ensures { (ms ns : List (List ℕ)) (p q : a_plan)
        → fixed_numbers ms p ≡ fixed_numbers ns q → (ms ≡ ns) × (p ≡ q) }
{}
