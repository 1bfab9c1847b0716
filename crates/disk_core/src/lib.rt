//! The disk model: what a read gives, what a crash may leave, and how each call changes both.
//!
//! Layer: the lowest of the durable crates; it stands on nothing. `disk_mem` is a disk in memory, `disk_area` a window.
//! Its one contract: the trait [`Disk`], each sentence of the model a clause of a call or a law.
#![tactic(auto)]

mod disk;
mod fault;
mod plan;

pub use disk::Disk;
pub use fault::{DeviceError, ReadError};
pub use plan::{FailKind, Fails, FaultPlan, Stops};
