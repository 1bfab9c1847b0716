//! The script of events.
use campaign_core::{CampaignResult, Decision, MasterEvent, Phase, Vote};
use pm_types::Outcome;
use ucm_base::{NodeId, NodeSet};

/// How many events the script has.
pub const EVENTS: usize = 12;

/// The first node.
const FIRST: NodeSet = NodeSet {
    flags: [true, false, false, false, false, false, false, false],
};

/// A campaign of one node that is successful, a restart, and the next one, which is to be cancelled. Each is allowed
/// behind those before it, and not again behind itself.
pub fn of_one(node: NodeId) -> [MasterEvent; 12] {
    let named = FIRST;
    let vote = Vote::Yes;
    let decision = Decision::Commit;
    let outcome = Outcome::New;
    let result = CampaignResult::Successful;
    [
        MasterEvent::Start { epoch: 1 },
        MasterEvent::Begin { campaign: 7, named },
        MasterEvent::PhaseTo {
            phase: Phase::Transferring,
        },
        MasterEvent::PhaseTo {
            phase: Phase::Processing,
        },
        MasterEvent::PhaseTo {
            phase: Phase::Activating,
        },
        MasterEvent::VoteOf { node, vote },
        MasterEvent::Decide { decision },
        MasterEvent::EndedAt { node, outcome },
        MasterEvent::Enter { result },
        MasterEvent::Start { epoch: 2 },
        MasterEvent::Begin { campaign: 8, named },
        MasterEvent::CancelAsked,
    ]
}
