//! The master's events, and what its list says.
ghost use Rattle.std.specs.Prelude.{◌≡◌, ◌++◌, IfOk, IfErr};
ghost use Rattle.wire.specs.Fields.{u8_field};
ghost use Rattle.event_codec.specs.Spelling.{Any, IsOutside};
ghost use Rattle.event_codec.specs.Master.{DecisionFits, EventFits, VoteFits, campaign_phase_spelled, decision_spelled, event_spelled, phase_or_0, result_spelled, vote_spelled};
ghost use Rattle.event_codec.specs.UniqueMaster.{unique-campaign_phase, unique-decision, unique-event, unique-reached, unique-result, unique-vote};

use crate::taking::{Put, Take, Unread};
use campaign_core::{CampaignResult, Cause, Decision, MasterEvent, Phase, Vote};
use pm_types::{Outcome, Refusal};
use std::alloc::{AllocError, Global};
use ucm_base::{CallNo, NodeId, NodeSet};

impl Take for Phase {
    ghost spelled = { campaign_phase_spelled };

    ghost fits = { Any };

    ghost unique = { unique-campaign_phase };

    fn take(alloc: Global, bytes: &[u8]) -> Result<(Phase, &[u8]), Unread> {
        let (code, rest) = u8::take(alloc, bytes)?;
        match code {
            1 => Ok((Phase::Transferring, rest)),
            2 => Ok((Phase::Processing, rest)),
            3 => Ok((Phase::Activating, rest)),
            _ => Err(Unread::Outside),
        }
    }
}

impl Put for Phase {
    fn put(&self, alloc: Global, into: &mut Vec<u8>) -> Result<(), AllocError> {
        let code: u8 = match self {
            Phase::Transferring => 1,
            Phase::Processing => 2,
            Phase::Activating => 3,
        };
        code.put(alloc, into)
    }
}

/// The phase of a campaign, spelled as 0 while Syncs are sent.
#[derive(Clone, Copy)]
pub(crate) struct Reached {
    pub phase: Option<Phase>,
}

impl Take for Reached {
    ghost spelled = { λ r. u8_field (phase_or_0 r.phase) };

    ghost fits = { Any };

    ghost unique = { unique-reached };

    fn take(alloc: Global, bytes: &[u8]) -> Result<(Reached, &[u8]), Unread> {
        let (code, rest) = u8::take(alloc, bytes)?;
        let phase = match code {
            0 => None,
            1 => Some(Phase::Transferring),
            2 => Some(Phase::Processing),
            3 => Some(Phase::Activating),
            _ => return Err(Unread::Outside),
        };
        Ok((Reached { phase }, rest))
    }
}

impl Put for Reached {
    fn put(&self, alloc: Global, into: &mut Vec<u8>) -> Result<(), AllocError> {
        match &self.phase {
            None => 0u8.put(alloc, into),
            Some(phase) => phase.put(alloc, into),
        }
    }
}

/// What follows the number of a vote that is a refusal.
fn take_refused(alloc: Global, bytes: &[u8]) -> Result<(Vote, &[u8]), Unread>
    ensures taken { IfOk result (λ t. VoteFits t.0
        × (u8_field 1 ++ bytes.now ≡ vote_spelled t.0 ++ t.1.now)) }
    ensures outside { IfErr result (λ e. e ≡ Unread.Outside
        → IsOutside vote_spelled VoteFits (u8_field 1 ++ bytes.now)) }
{
    match <(CallNo, Refusal)>::take(alloc, bytes) {
        Ok(((no, refusal), rest)) => Ok((Vote::Refused { no, refusal }, rest)),
        Err(unread) => Err(unread),
    }
}

/// What follows the number of a vote of a node that wasn't reached.
fn take_unreached(alloc: Global, bytes: &[u8]) -> Result<(Vote, &[u8]), Unread>
    ensures taken { IfOk result (λ t. VoteFits t.0
        × (u8_field 3 ++ bytes.now ≡ vote_spelled t.0 ++ t.1.now)) }
    ensures outside { IfErr result (λ e. e ≡ Unread.Outside
        → IsOutside vote_spelled VoteFits (u8_field 3 ++ bytes.now)) }
{
    match <(u64, u64)>::take(alloc, bytes) {
        Ok(((losses, faults), rest)) => Ok((Vote::Unreached { losses, faults }, rest)),
        Err(unread) => Err(unread),
    }
}

impl Take for Vote {
    ghost spelled = { vote_spelled };

    ghost fits = { VoteFits };

    ghost unique = { unique-vote };

    fn take(alloc: Global, bytes: &[u8]) -> Result<(Vote, &[u8]), Unread> {
        let (number, rest) = u8::take(alloc, bytes)?;
        match number {
            0 => Ok((Vote::Yes, rest)),
            1 => take_refused(alloc, rest),
            2 => Ok((Vote::RolledBack, rest)),
            3 => take_unreached(alloc, rest),
            _ => Err(Unread::Outside),
        }
    }
}

impl Put for Vote {
    fn put(&self, alloc: Global, into: &mut Vec<u8>) -> Result<(), AllocError> {
        match self {
            Vote::Yes => 0u8.put(alloc, into),
            Vote::Refused { no, refusal } => {
                1u8.put(alloc, into)?;
                no.put(alloc, into)?;
                refusal.put(alloc, into)
            }
            Vote::RolledBack => 2u8.put(alloc, into),
            Vote::Unreached { losses, faults } => {
                3u8.put(alloc, into)?;
                losses.put(alloc, into)?;
                faults.put(alloc, into)
            }
        }
    }
}

impl Take for Decision {
    ghost spelled = { decision_spelled };

    ghost fits = { DecisionFits };

    ghost unique = { unique-decision };

    fn take(alloc: Global, bytes: &[u8]) -> Result<(Decision, &[u8]), Unread> {
        let (number, rest) = u8::take(alloc, bytes)?;
        match number {
            0 => Ok((Decision::Commit, rest)),
            1 => Ok((Decision::Abort(Cause::Cancel), rest)),
            2 => match NodeId::take(alloc, rest) {
                Ok((node, rest)) => Ok((Decision::Abort(Cause::Vote(node)), rest)),
                Err(unread) => Err(unread),
            },
            3 => Ok((Decision::Abort(Cause::Restart), rest)),
            _ => Err(Unread::Outside),
        }
    }
}

impl Put for Decision {
    fn put(&self, alloc: Global, into: &mut Vec<u8>) -> Result<(), AllocError> {
        match self {
            Decision::Commit => 0u8.put(alloc, into),
            Decision::Abort(Cause::Cancel) => 1u8.put(alloc, into),
            Decision::Abort(Cause::Vote(node)) => {
                2u8.put(alloc, into)?;
                node.put(alloc, into)
            }
            Decision::Abort(Cause::Restart) => 3u8.put(alloc, into),
        }
    }
}

impl Take for CampaignResult {
    ghost spelled = { result_spelled };

    ghost fits = { Any };

    ghost unique = { unique-result };

    fn take(alloc: Global, bytes: &[u8]) -> Result<(CampaignResult, &[u8]), Unread> {
        let (code, rest) = u8::take(alloc, bytes)?;
        match code {
            0 => Ok((CampaignResult::Successful, rest)),
            1 => Ok((CampaignResult::Failed, rest)),
            2 => Ok((CampaignResult::Cancelled, rest)),
            _ => Err(Unread::Outside),
        }
    }
}

impl Put for CampaignResult {
    fn put(&self, alloc: Global, into: &mut Vec<u8>) -> Result<(), AllocError> {
        let code: u8 = match self {
            CampaignResult::Successful => 0,
            CampaignResult::Failed => 1,
            CampaignResult::Cancelled => 2,
        };
        code.put(alloc, into)
    }
}

/// What follows the number of Begin.
fn take_begin(alloc: Global, bytes: &[u8]) -> Result<(MasterEvent, &[u8]), Unread>
    ensures taken { IfOk result (λ t. EventFits t.0
        × (u8_field 1 ++ bytes.now ≡ event_spelled t.0 ++ t.1.now)) }
    ensures outside { IfErr result (λ e. e ≡ Unread.Outside
        → IsOutside event_spelled EventFits (u8_field 1 ++ bytes.now)) }
{
    match <(u32, NodeSet)>::take(alloc, bytes) {
        Ok(((campaign, named), rest)) => Ok((MasterEvent::Begin { campaign, named }, rest)),
        Err(unread) => Err(unread),
    }
}

/// What follows the number of VoteOf.
fn take_vote_of(alloc: Global, bytes: &[u8]) -> Result<(MasterEvent, &[u8]), Unread>
    ensures taken { IfOk result (λ t. EventFits t.0
        × (u8_field 3 ++ bytes.now ≡ event_spelled t.0 ++ t.1.now)) }
    ensures outside { IfErr result (λ e. e ≡ Unread.Outside
        → IsOutside event_spelled EventFits (u8_field 3 ++ bytes.now)) }
{
    match <(NodeId, Vote)>::take(alloc, bytes) {
        Ok(((node, vote), rest)) => Ok((MasterEvent::VoteOf { node, vote }, rest)),
        Err(unread) => Err(unread),
    }
}

/// What follows the number of EndedAt.
fn take_ended_at(alloc: Global, bytes: &[u8]) -> Result<(MasterEvent, &[u8]), Unread>
    ensures taken { IfOk result (λ t. EventFits t.0
        × (u8_field 6 ++ bytes.now ≡ event_spelled t.0 ++ t.1.now)) }
    ensures outside { IfErr result (λ e. e ≡ Unread.Outside
        → IsOutside event_spelled EventFits (u8_field 6 ++ bytes.now)) }
{
    match <(NodeId, Outcome)>::take(alloc, bytes) {
        Ok(((node, outcome), rest)) => Ok((MasterEvent::EndedAt { node, outcome }, rest)),
        Err(unread) => Err(unread),
    }
}

impl Take for MasterEvent {
    ghost spelled = { event_spelled };

    ghost fits = { EventFits };

    ghost unique = { unique-event };

    fn take(alloc: Global, bytes: &[u8]) -> Result<(MasterEvent, &[u8]), Unread> {
        let (number, rest) = u8::take(alloc, bytes)?;
        match number {
            0 => {
                let (epoch, rest) = u32::take(alloc, rest)?;
                Ok((MasterEvent::Start { epoch }, rest))
            }
            1 => take_begin(alloc, rest),
            2 => match Phase::take(alloc, rest) {
                Ok((phase, rest)) => Ok((MasterEvent::PhaseTo { phase }, rest)),
                Err(unread) => Err(unread),
            },
            3 => take_vote_of(alloc, rest),
            4 => Ok((MasterEvent::CancelAsked, rest)),
            5 => match Decision::take(alloc, rest) {
                Ok((decision, rest)) => Ok((MasterEvent::Decide { decision }, rest)),
                Err(unread) => Err(unread),
            },
            6 => take_ended_at(alloc, rest),
            7 => match CampaignResult::take(alloc, rest) {
                Ok((result, rest)) => Ok((MasterEvent::Enter { result }, rest)),
                Err(unread) => Err(unread),
            },
            _ => Err(Unread::Outside),
        }
    }
}

impl Put for MasterEvent {
    fn put(&self, alloc: Global, into: &mut Vec<u8>) -> Result<(), AllocError> {
        match self {
            MasterEvent::Start { epoch } => {
                0u8.put(alloc, into)?;
                epoch.put(alloc, into)
            }
            MasterEvent::Begin { campaign, named } => {
                1u8.put(alloc, into)?;
                campaign.put(alloc, into)?;
                named.put(alloc, into)
            }
            MasterEvent::PhaseTo { phase } => {
                2u8.put(alloc, into)?;
                phase.put(alloc, into)
            }
            MasterEvent::VoteOf { node, vote } => {
                3u8.put(alloc, into)?;
                node.put(alloc, into)?;
                vote.put(alloc, into)
            }
            MasterEvent::CancelAsked => 4u8.put(alloc, into),
            MasterEvent::Decide { decision } => {
                5u8.put(alloc, into)?;
                decision.put(alloc, into)
            }
            MasterEvent::EndedAt { node, outcome } => {
                6u8.put(alloc, into)?;
                node.put(alloc, into)?;
                outcome.put(alloc, into)
            }
            MasterEvent::Enter { result } => {
                7u8.put(alloc, into)?;
                result.put(alloc, into)
            }
        }
    }
}
