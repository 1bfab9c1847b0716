//! What a driver asks for, what it is answered, and what it finds.
use pm_types::{Refusal, Reply, Worked};
use ucm_base::CallNo;

/// A round of a campaign; each subordinate goes through them in this order, and may go to the end from any.
#[derive(Clone, Copy, Debug, PartialEq, Eq)]
pub enum Round {
    Sync,
    Transfer,
    Process,
    Activate,
    End { commit: bool },
}

/// A call to a subordinate, with a package's index and a block's counter in place of bytes.
#[derive(Clone, Copy, Debug, PartialEq, Eq)]
pub enum SendStep {
    Sync,
    Start { package: u16 },
    Data { package: u16, id: u32, counter: u64 },
    Exit { id: u32 },
    Process { id: u32, tag: u32 },
    Activate,
    Finish,
    Rollback,
    Revert,
    Delete { id: u32 },
}

/// What one attempt at a call or a unit gave.
#[derive(Clone, Copy)]
pub enum Got {
    Replied(Reply),
    UnitOf(Worked),
    /// Nothing: so far the losses and the faults rose in this attempt.
    Miss { losses: u64, faults: u64 },
}

/// How far the losses and the faults rose in one failed attempt.
#[derive(Clone, Copy, Debug, PartialEq, Eq)]
pub struct Rises {
    pub losses: u64,
    pub faults: u64,
}

/// Why a driver rests.
#[derive(Clone, Copy)]
pub enum Finding {
    /// The calls of the round are answered, and the node has nothing to do.
    RoundDone,
    Yes,
    Refused { no: CallNo, refusal: Refusal },
    RolledBack,
    /// Eight attempts at one call or unit failed; these are the sums of their rises.
    Unreached { losses: u64, faults: u64 },
    /// The Sync of this number showed neither a session of the master nor a transfer.
    Ended { no: CallNo },
}

/// What a driver asks for.
#[derive(Clone, Copy)]
pub enum Todo {
    Send { no: CallNo, step: SendStep },
    Unit,
    Rest(Finding),
}

/// A package that a step of the campaign brings to the node.
#[derive(Clone, Copy, Debug, PartialEq, Eq)]
pub struct PackageSize {
    /// Its index among the packages of the campaign.
    pub index: u16,
    /// Its length in bytes.
    pub length: u32,
}
