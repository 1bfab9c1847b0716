//! How far a driver is.
use crate::{Finding, SendStep};
use pm_types::IdList;
use ucm_base::CallNo;

/// How far it is in the rounds, or that it is in the end phase.
#[derive(Clone, Copy)]
pub enum Progress {
    Sync,
    /// A transfer starts.
    Transfer,
    /// The block of this counter comes next, of as many bytes as are left.
    Data { id: u32, counter: u64, left: u32 },
    /// So many packages are processed; it is settled where the node has nothing to do.
    Process { taken: usize, is_settled: bool },
    /// Activate is answered.
    Activating,
    Voted(Finding),
    Ending { commit: bool, at: EndProgress },
}

/// How far it is in the end phase.
#[derive(Clone, Copy)]
pub enum EndProgress {
    /// A Sync, or the call for the node's status.
    Call(SendStep),
    /// The node works.
    Units,
    /// The transfer at this place of those that the Sync listed is deleted next.
    Delete { listed: IdList, place: usize },
    /// The Sync of this number showed nothing that is left to do.
    Rest { no: CallNo },
}

/// What a driver asks for, however often it was missed.
#[derive(Clone, Copy)]
pub enum Wish {
    Send(SendStep),
    Unit,
    Rest(Finding),
}
