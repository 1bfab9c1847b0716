//! The campaign law: what a campaign leaves on every node that it names, over every list of events.
//!
//! Layer: stands on `campaign_core` (the master's list), `node_laws` and `pm_types` (a node's tables);
//! the driver of a campaign and the run cite its definitions.
//! Its one contract: in every world that allowed events make, a campaign that the master's list entered
//! as successful left each named node new, and one entered as failed or cancelled left each old.
#![tactic(auto)]

ghost use Rattle.world.specs.Attempts.{RepliesAreGot};
ghost use Rattle.world.specs.Law.{CampaignLaw};
ghost use Rattle.world.specs.RoundCalls.{RoundsEnd, RoundsInOrder};
ghost use Rattle.world.specs.RoundsBySize.{GoesBySize};

/// The law of campaigns. What a world is, what may be sent, and what a record needs to have been told
/// are the definitions in `specs/`; docs/CAMPAIGN-LAW.md reads them aloud.
pub fn campaign_law()
    ensures law { CampaignLaw }
    ensures rounds { RoundsInOrder }
    ensures ends { RoundsEnd }
    ensures by_size { GoesBySize }
    ensures attempts { RepliesAreGot }
{}
