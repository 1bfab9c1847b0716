//! The events of the master's list.
ghost use Rattle.std.specs.Prelude.{◌≡◌};
ghost use Rattle.campaign_core.specs.Campaign.{is_cancel, is_yes};

use pm_types::{Outcome, Refusal};
use ucm_base::{CallNo, NodeId, NodeSet, Rows};

/// A phase of a campaign's rounds, after the Sync.
#[derive(Clone, Copy, Debug, PartialEq, Eq)]
pub enum Phase {
    Transferring,
    Processing,
    Activating,
}

/// What a node's rounds came to. All but `Yes` are a vote of no.
#[derive(Clone, Copy)]
pub enum Vote {
    /// The node is activated.
    Yes,
    /// The node refused the call of this number.
    Refused { no: CallNo, refusal: Refusal },
    /// The node rolled its session back.
    RolledBack,
    /// Eight attempts failed, with these losses of its link and faults of its disk.
    Unreached { losses: u64, faults: u64 },
}

/// Why a campaign is aborted: the first of these that holds.
#[derive(Clone, Copy, Debug, PartialEq, Eq)]
pub enum Cause {
    /// A cancel was asked.
    Cancel,
    /// The lowest node with a vote of no.
    Vote(NodeId),
    /// The master restarted before the decision.
    Restart,
}

#[derive(Clone, Copy, Debug, PartialEq, Eq)]
pub enum Decision {
    Commit,
    Abort(Cause),
}

/// How a campaign ended.
#[derive(Clone, Copy, Debug, PartialEq, Eq)]
pub enum CampaignResult {
    Successful,
    Failed,
    Cancelled,
}

/// Why an event is not taken.
#[derive(Clone, Copy, Debug, PartialEq, Eq)]
pub enum CampaignRefusal {
    /// The event's condition fails.
    OperationNotPermitted,
    /// The event is about the current campaign, and there is none.
    NoCampaign,
}

/// One event of the master's list.
#[derive(Clone, Copy)]
pub enum MasterEvent {
    /// The master starts, with the epoch of its calls from here on.
    Start { epoch: u32 },
    /// A campaign of these nodes begins.
    Begin { campaign: u32, named: NodeSet },
    /// The rounds of this phase may be sent.
    PhaseTo { phase: Phase },
    /// A node's vote.
    VoteOf { node: NodeId, vote: Vote },
    /// Somebody asked for the campaign to be cancelled.
    CancelAsked,
    /// The decision. It is never changed.
    Decide { decision: Decision },
    /// A node is at rest after the decision.
    EndedAt { node: NodeId, outcome: Outcome },
    /// The campaign is over.
    Enter { result: CampaignResult },
}

/// Events of the master's list with their places, in order.
pub type MasterList = Rows<(u64, MasterEvent)>;

impl Vote {
    /// Whether the vote is a Yes.
    pub fn is_yes(&self) -> bool
        ensures { result ≡ is_yes self.now }
    {
        matches!(self, Vote::Yes)
    }
}

impl Cause {
    pub(crate) fn is_cancel(self) -> bool
        ensures { result ≡ is_cancel self }
    {
        matches!(self, Cause::Cancel)
    }
}
