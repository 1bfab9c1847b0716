//! What the calls of a durable node answer.
use pm_types::{Reached, Worked};

/// How a call was answered.
#[derive(Clone, Copy, Drop)]
pub enum NodeAnswer {
    /// It reached the node: it was executed, or it repeats one that was.
    Reached(Reached),
    /// The disk failed, and its count of faults rose by this much. The node is closed.
    NoReply { faults: u64 },
    /// Want of memory; the node is as before.
    OutOfMemory,
}

/// How a request for a unit of work was answered.
#[derive(Clone, Copy, Drop)]
pub enum WorkAnswer {
    /// The unit was done, or there was none to do.
    Worked(Worked),
    /// The disk failed, and its count of faults rose by this much. The node is closed.
    NoReply { faults: u64 },
    /// Want of memory; the node is as before.
    OutOfMemory,
}
