//! What a query is answered, and the faults that answers carry.
ghost use Rattle.std.specs.Prelude.{◌≡◌};
ghost use Rattle.node_gate.specs.Calls.{rise_of, rise_of_ask, rise_of_work};

use node_store::{NodeAnswer, WorkAnswer};
use pm_types::Answer;

/// How a query was answered.
#[derive(Drop)]
pub enum AskAnswer {
    /// So many entries stand since the gate was made, and this is the answer after them.
    At { place: u64, answer: Answer },
    /// The disk failed, and its count of faults rose by this much. The node is closed, and what was pending still is.
    NoReply { faults: u64 },
    /// Want of memory.
    OutOfMemory,
}

impl AskAnswer {
    /// How often the disk failed.
    pub(crate) fn faults(&self) -> u64
        ensures { result ≡ rise_of_ask self.now }
    {
        match self {
            AskAnswer::NoReply { faults } => *faults,
            AskAnswer::At { .. } | AskAnswer::OutOfMemory => 0,
        }
    }
}

/// How often the disk failed in a call.
pub(crate) fn faults_of(answer: &NodeAnswer) -> u64
    ensures { result ≡ rise_of answer.now }
{
    match answer {
        NodeAnswer::NoReply { faults } => *faults,
        NodeAnswer::Reached(_) | NodeAnswer::OutOfMemory => 0,
    }
}

/// How often the disk failed in a unit of work.
pub(crate) fn faults_of_work(answer: &WorkAnswer) -> u64
    ensures { result ≡ rise_of_work answer.now }
{
    match answer {
        WorkAnswer::NoReply { faults } => *faults,
        WorkAnswer::Worked(_) | WorkAnswer::OutOfMemory => 0,
    }
}
