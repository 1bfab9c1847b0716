//! What befalls a disk.

use disk_core::{FailKind, Fails, FaultPlan, Stops};
use std::alloc::{AllocError, Global};

/// Nothing; a power stop at a write, of which some bytes are kept; or the failure of one call of its kind. Calls are
/// counted from 1 since the plan was armed.
#[derive(Clone, Copy, Debug, PartialEq, Eq, Drop)]
pub enum Mishap {
    Nothing,
    Stop { write: u64, keep: u64 },
    Fail { kind: FailKind, call: u64 },
}

impl Mishap {
    /// The plan with this alone.
    pub fn plan(self, alloc: Global) -> Result<FaultPlan, AllocError> {
        match self {
            Mishap::Nothing => Ok(FaultPlan::none(alloc)),
            Mishap::Stop { write, keep } => Ok(FaultPlan {
                stops: Stops::of(vec![in alloc; (write, keep)]?),
                fails: Fails::of(Vec::new(alloc)),
            }),
            Mishap::Fail { kind, call } => Ok(FaultPlan {
                stops: Stops::of(Vec::new(alloc)),
                fails: Fails::of(vec![in alloc; (kind, call)]?),
            }),
        }
    }
}
