//! Where the program's bytes come from and go to.
//!
//! Layer: stands on `fault_count`; `ucm_prog` stands on it.
//! Its one contract: what was taken is what a source told as left, what was put stands behind what a sink held, and a
//! call fails only where the count of faults rose in it.
#![tactic(auto)]

mod calls;
mod cuts;
mod memory;
mod sink;
mod source;
mod standard;

pub use calls::{Fails, PortError};
pub use cuts::Cuts;
pub use memory::{MemSink, MemSource};
pub use sink::{Sink, put_all};
pub use source::{ReadError, Source, read_all};
pub use standard::{StdSink, StdSource};
