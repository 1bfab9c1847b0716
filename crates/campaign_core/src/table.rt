//! The master's table: the condition of each event, and its effect.
ghost use Rattle.std.specs.Prelude.{◌≡◌, ◌+◌, nat_eq, Bool, true, false};
ghost use Rattle.campaign_core.specs.Campaign.{after_event, changed, is_activating, is_cause, is_new_of, is_next, is_result_of, may_begin, may_decide, meets, refusal_of};
ghost use Rattle.campaign_core.specs.Standing.{is_entry};

use crate::fold::{has_any, is_in, place_of};
use crate::{
    CampaignRefusal, CampaignResult, Cause, Current, Decision, Fold, MasterEvent, Phase, Vote,
};
use pm_types::Outcome;
use ucm_base::limits::CAMPAIGN_LIMIT;
use ucm_base::{NodeId, NodeSet};

fn is_next(phase: Option<Phase>, next: Phase) -> bool
    ensures { result ≡ is_next phase next }
{
    match (phase, next) {
        (None, Phase::Transferring) => true,
        (Some(Phase::Transferring), Phase::Processing) => true,
        (Some(Phase::Processing), Phase::Activating) => true,
        _ => false,
    }
}

fn is_activating(phase: Option<Phase>) -> bool
    ensures { result ≡ is_activating phase }
{
    matches!(phase, Some(Phase::Activating))
}

fn is_cause(first: Option<Cause>, cause: Cause) -> bool
    ensures { result ≡ is_cause first cause }
{
    first == Some(cause)
}

/// Whether a node ends so after the decision.
fn is_new_of(decision: Option<Decision>, outcome: Outcome) -> bool
    ensures { result ≡ is_new_of decision outcome }
{
    match (decision, outcome) {
        (Some(Decision::Commit), Outcome::New) => true,
        (Some(Decision::Abort(_)), Outcome::Old) => true,
        _ => false,
    }
}

/// Whether a campaign ends so after the decision.
fn is_result_of(decision: Option<Decision>, result_given: CampaignResult) -> bool
    ensures { result ≡ is_result_of decision result_given }
{
    match (decision, result_given) {
        (Some(Decision::Commit), CampaignResult::Successful) => true,
        (Some(Decision::Abort(cause)), CampaignResult::Failed) => !cause.is_cancel(),
        (Some(Decision::Abort(cause)), CampaignResult::Cancelled) => cause.is_cancel(),
        _ => false,
    }
}

impl Current {
    fn may_go_to(&self, phase: Phase) -> bool
        ensures { result ≡ meets self.now (MasterEvent.PhaseTo phase) }
    {
        self.is_undecided()
            && !self.is_marked()
            && self.first_no().is_none()
            && is_next(self.phase, phase)
    }

    fn may_vote(&self, node: NodeId, vote: &Vote) -> bool
        ensures { result ≡ meets self.now (MasterEvent.VoteOf node vote.now) }
    {
        self.is_undecided()
            && !self.restart
            && is_in(&self.named, node)
            && self.vote(node).is_none()
            && (!vote.is_yes() || is_activating(self.phase))
    }

    fn may_decide(&self, decision: Decision) -> bool
        ensures { result ≡ may_decide self.now decision }
    {
        self.is_undecided()
            && match decision {
                Decision::Commit => self.all_yes() && !self.is_marked(),
                Decision::Abort(cause) => is_cause(self.first_cause(), cause),
            }
    }

    fn may_end(&self, node: NodeId, outcome: Outcome) -> bool
        ensures { result ≡ meets self.now (MasterEvent.EndedAt node outcome) }
    {
        is_in(&self.named, node) && self.end(node).is_none() && is_new_of(self.decision, outcome)
    }

    /// Whether the event's condition holds in this campaign.
    fn meets(&self, event: &MasterEvent) -> bool
        ensures { result ≡ meets self.now event.now }
    {
        match event {
            MasterEvent::Start { .. } => true,
            MasterEvent::Begin { .. } => false,
            MasterEvent::PhaseTo { phase } => self.may_go_to(*phase),
            MasterEvent::VoteOf { node, vote } => self.may_vote(*node, vote),
            MasterEvent::CancelAsked => self.is_undecided() && !self.cancel,
            MasterEvent::Decide { decision } => self.may_decide(*decision),
            MasterEvent::EndedAt { node, outcome } => self.may_end(*node, *outcome),
            MasterEvent::Enter { result: given } => {
                self.all_ended() && is_result_of(self.decision, *given)
            }
        }
    }

    /// The campaign after the event.
    fn change(&mut self, event: &MasterEvent)
        ensures { self.new ≡ changed self.old event.now }
    {
        match event {
            MasterEvent::Start { .. } => {
                if self.is_undecided() {
                    self.restart = true;
                }
            }
            MasterEvent::PhaseTo { phase } => self.phase = Some(*phase),
            MasterEvent::VoteOf { node, vote } => self.votes[place_of(*node)] = Some(*vote),
            MasterEvent::CancelAsked => self.cancel = true,
            MasterEvent::Decide { decision } => self.decision = Some(*decision),
            MasterEvent::EndedAt { node, outcome } => self.ended[place_of(*node)] = Some(*outcome),
            MasterEvent::Begin { .. } | MasterEvent::Enter { .. } => {}
        }
    }
}

impl Fold {
    fn may_begin(&self, campaign: u32, named: &NodeSet) -> bool
        ensures { result ≡ may_begin self.now campaign named.now }
    {
        self.epoch >= 1
            && self.current.is_none()
            && campaign >= 1
            && self.earlier.are_below(campaign)
            && has_any(named)
            && self.earlier.as_slice().len() < CAMPAIGN_LIMIT
    }

    fn is_next_epoch(&self, epoch: u32) -> bool
        ensures { result ≡ nat_eq epoch (self.now.epoch + 1) }
    {
        u64::from(epoch) == u64::from(self.epoch) + 1
    }

    /// Why the event is refused here, if it is.
    pub(crate) fn refusal(&self, event: &MasterEvent) -> Option<CampaignRefusal>
        ensures { result ≡ refusal_of self.now event.now }
    {
        let is_allowed = match (event, &self.current) {
            (MasterEvent::Start { epoch }, _) => self.is_next_epoch(*epoch),
            (MasterEvent::Begin { campaign, named }, _) => self.may_begin(*campaign, named),
            (_, None) => return Some(CampaignRefusal::NoCampaign),
            (_, Some(current)) => current.meets(event),
        };
        if is_allowed {
            None
        } else {
            Some(CampaignRefusal::OperationNotPermitted)
        }
    }

    /// The fold after an allowed event that isn't an Enter.
    pub(crate) fn advance(&mut self, event: &MasterEvent)
        requires { is_entry event.now ≡ false }
        ensures fold { self.new ≡ after_event self.old event.now }
        ensures earlier { self.new.earlier ≡ self.old.earlier }
    {
        match event {
            MasterEvent::Start { epoch } => self.epoch = *epoch,
            MasterEvent::Begin { campaign, named } => {
                self.current = Some(Current::begin(*campaign, *named));
                return;
            }
            _ => {}
        }
        if let Some(current) = &mut self.current {
            current.change(event);
        }
    }
}
