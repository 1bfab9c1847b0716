//! What is printed of the master's list.

use crate::{CampaignRefusal, CampaignResult, Cause, Decision, MasterEvent, Phase, Vote};
use std::fmt;

impl fmt::Display for Phase {
    ghost use Rattle.std.specs.Prelude.{Some};
    ghost use Rattle.campaign_core.specs.Printed.{phase_text};

    ghost output = { λ phase. Some (phase_text phase) };

    fn fmt<W: fmt::Write>(&self, f: &mut fmt::Formatter<W>) -> fmt::Result {
        match self {
            Phase::Transferring => write!(f, "SoftwarePackageTransferring"),
            Phase::Processing => write!(f, "Processing"),
            Phase::Activating => write!(f, "Activating"),
        }
    }
}

impl fmt::Display for Vote {
    ghost use Rattle.std.specs.Prelude.{Some};
    ghost use Rattle.campaign_core.specs.Printed.{vote_text};

    ghost output = { λ vote. Some (vote_text vote) };

    fn fmt<W: fmt::Write>(&self, f: &mut fmt::Formatter<W>) -> fmt::Result {
        match self {
            Vote::Yes => write!(f, "Yes"),
            Vote::Refused { no, refusal } => {
                let code = refusal.code();
                write!(f, "No Refused {no} {code} {refusal}")
            }
            Vote::RolledBack => write!(f, "No RolledBack"),
            Vote::Unreached { losses, faults } => write!(f, "No Unreached {losses} {faults}"),
        }
    }
}

impl fmt::Display for Cause {
    ghost use Rattle.std.specs.Prelude.{Some};
    ghost use Rattle.campaign_core.specs.Printed.{cause_text};

    ghost output = { λ cause. Some (cause_text cause) };

    fn fmt<W: fmt::Write>(&self, f: &mut fmt::Formatter<W>) -> fmt::Result {
        match self {
            Cause::Cancel => write!(f, "Cancel"),
            Cause::Vote(node) => write!(f, "Vote {node}"),
            Cause::Restart => write!(f, "Restart"),
        }
    }
}

impl fmt::Display for Decision {
    ghost use Rattle.std.specs.Prelude.{Some};
    ghost use Rattle.campaign_core.specs.Printed.{decision_text};

    ghost output = { λ decision. Some (decision_text decision) };

    fn fmt<W: fmt::Write>(&self, f: &mut fmt::Formatter<W>) -> fmt::Result {
        match self {
            Decision::Commit => write!(f, "Commit"),
            Decision::Abort(cause) => write!(f, "Abort {cause}"),
        }
    }
}

impl fmt::Display for CampaignResult {
    ghost use Rattle.std.specs.Prelude.{Some};
    ghost use Rattle.campaign_core.specs.Printed.{result_text};

    ghost output = { λ r. Some (result_text r) };

    fn fmt<W: fmt::Write>(&self, f: &mut fmt::Formatter<W>) -> fmt::Result {
        match self {
            CampaignResult::Successful => write!(f, "successful"),
            CampaignResult::Failed => write!(f, "failed"),
            CampaignResult::Cancelled => write!(f, "cancelled"),
        }
    }
}

impl fmt::Display for CampaignRefusal {
    ghost use Rattle.std.specs.Prelude.{Some};
    ghost use Rattle.campaign_core.specs.Printed.{refused_text};

    ghost output = { λ refusal. Some (refused_text refusal) };

    fn fmt<W: fmt::Write>(&self, f: &mut fmt::Formatter<W>) -> fmt::Result {
        match self {
            CampaignRefusal::OperationNotPermitted => write!(f, "OperationNotPermitted"),
            CampaignRefusal::NoCampaign => write!(f, "NoCampaign"),
        }
    }
}

impl fmt::Display for MasterEvent {
    ghost use Rattle.std.specs.Prelude.{Some};
    ghost use Rattle.campaign_core.specs.Printed.{event_text};

    ghost output = { λ event. Some (event_text event) };

    fn fmt<W: fmt::Write>(&self, f: &mut fmt::Formatter<W>) -> fmt::Result {
        match self {
            MasterEvent::Start { epoch } => write!(f, "Start {epoch}"),
            MasterEvent::Begin { campaign, named } => write!(f, "Begin {campaign} {named}"),
            MasterEvent::PhaseTo { phase } => write!(f, "Phase {phase}"),
            MasterEvent::VoteOf { node, vote } => write!(f, "Vote {node} {vote}"),
            MasterEvent::CancelAsked => write!(f, "Cancel"),
            MasterEvent::Decide { decision } => write!(f, "Decide {decision}"),
            MasterEvent::EndedAt { node, outcome } => write!(f, "Ended {node} {outcome}"),
            MasterEvent::Enter { result } => write!(f, "Enter {result}"),
        }
    }
}
