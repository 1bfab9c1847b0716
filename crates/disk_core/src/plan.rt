//! The plan of a disk's faults.
ghost use Rattle.std.specs.Prelude.{◌≡◌, IfOk};
ghost use Rattle.disk_core.specs.Plans.{no_faults};

use std::alloc::{AllocError, Global};
use std::marker::Model;

/// A kind of call that a plan lets fail.
#[derive(Clone, Copy, Debug, PartialEq, Eq, Drop)]
pub enum FailKind {
    Read,
    Write,
    Sync,
}

/// Power stops: pairs of a write's number, counted from 1 since the plan was armed, and the bytes of it that stay.
#[derive(Drop)]
pub struct Stops {
    items: Vec<(u64, u64)>,
}

impl Model for Stops {
    ghost use Rattle.std.specs.Prelude.{List, ℕ};

    ghost Value = { List (ℕ × ℕ) };

    ghost view = { λ s. s.items.items };
}

impl Stops {
    pub fn of(items: Vec<(u64, u64)>) -> Stops
        ensures { result ≡ items.items }
    {
        Stops { items }
    }

    pub fn as_slice(&self) -> &[(u64, u64)]
        ensures { result.now ≡ self.now }
    {
        self.items.as_slice()
    }

    /// A second list of the same stops.
    pub fn copy(&self, alloc: Global) -> Result<Stops, AllocError>
        ensures { IfOk result (λ s. s ≡ self.now) }
    {
        Ok(Stops {
            items: self.items.as_slice().to_vec(alloc)?,
        })
    }
}

/// Single failures: pairs of a kind of call and the number of the call of this kind, counted from 1 since the plan was
/// armed.
#[derive(Drop)]
pub struct Fails {
    items: Vec<(FailKind, u64)>,
}

impl Model for Fails {
    ghost use Rattle.std.specs.Prelude.{List, ℕ};
    ghost use Rattle.disk_core.specs.declared.plan.FailKind.{FailKind};

    ghost Value = { List (FailKind × ℕ) };

    ghost view = { λ f. f.items.items };
}

impl Fails {
    pub fn of(items: Vec<(FailKind, u64)>) -> Fails
        ensures { result ≡ items.items }
    {
        Fails { items }
    }

    pub fn as_slice(&self) -> &[(FailKind, u64)]
        ensures { result.now ≡ self.now }
    {
        self.items.as_slice()
    }

    /// A second list of the same failures.
    pub fn copy(&self, alloc: Global) -> Result<Fails, AllocError>
        ensures { IfOk result (λ f. f ≡ self.now) }
    {
        Ok(Fails {
            items: self.items.as_slice().to_vec(alloc)?,
        })
    }
}

/// The stops and failures that a disk is armed with. A disk that isn't armed has the empty plan.
#[derive(Drop)]
pub struct FaultPlan {
    pub stops: Stops,
    pub fails: Fails,
}

impl FaultPlan {
    /// The empty plan.
    pub fn none(alloc: Global) -> FaultPlan
        ensures { result ≡ no_faults }
    {
        FaultPlan {
            stops: Stops::of(Vec::new(alloc)),
            fails: Fails::of(Vec::new(alloc)),
        }
    }

    /// A second plan with the same stops and failures.
    pub fn copy(&self, alloc: Global) -> Result<FaultPlan, AllocError>
        ensures { IfOk result (λ p. p ≡ self.now) }
    {
        Ok(FaultPlan {
            stops: self.stops.copy(alloc)?,
            fails: self.fails.copy(alloc)?,
        })
    }
}
