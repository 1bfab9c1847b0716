//! What the master's list says: the epoch, the earlier campaigns and the current one.
ghost use Rattle.std.specs.Prelude.{◌≡◌, ◌+◌, ◌<◌, ◌-◌, is_none, is_some, Option, None};
ghost use Rattle.campaign_core.specs.Campaign.{all_ended, all_yes, begun, end_of, first_no, first_cause, has_ended, is_marked, is_undecided, nothing_yet, vote_of, voted_no, voted_yes};
ghost use Rattle.campaign_core.specs.Nodes.{any_flag, flag_of};

use crate::{CampaignList, Cause, Decision, Phase, Vote};
use pm_types::Outcome;
use std::alloc::Global;
use ucm_base::{NodeId, NodeSet};

/// The campaign that began last and was not entered yet. Node n's part stands at place n - 1.
#[derive(Clone, Copy)]
pub struct Current {
    /// Its number, at least 1.
    pub campaign: u32,
    pub named: NodeSet,
    /// None until the first phase, while Syncs are sent.
    pub phase: Option<Phase>,
    pub votes: [Option<Vote>; 8],
    /// Whether a cancel was asked.
    pub cancel: bool,
    /// Whether the master restarted before the decision.
    pub restart: bool,
    pub decision: Option<Decision>,
    pub ended: [Option<Outcome>; 8],
}

/// What a list of events comes to.
#[derive(Drop)]
pub struct Fold {
    /// The epoch of the last Start, or 0.
    pub epoch: u32,
    pub earlier: CampaignList,
    pub current: Option<Current>,
}

impl Fold {
    /// The fold of no event.
    pub fn empty(alloc: Global) -> Fold
        ensures { result ≡ nothing_yet }
    {
        Fold {
            epoch: 0,
            earlier: CampaignList::of(Vec::new(alloc)),
            current: None,
        }
    }
}

/// The place of a node's part.
pub(crate) fn place_of(node: NodeId) -> usize
    ensures place { result ≡ node - 1 }
    ensures within { result < 8 }
    ensures back { node ≡ result + 1 }
{
    usize::from(node.number()) - 1
}

/// Whether the node is in the set.
pub(crate) fn is_in(nodes: &NodeSet, node: NodeId) -> bool
    ensures { result ≡ flag_of nodes.now node }
{
    nodes.flags[place_of(node)]
}

/// Whether some node is in the set.
pub(crate) fn has_any(nodes: &NodeSet) -> bool
    ensures { result ≡ any_flag nodes.now }
{
    nodes.flags.iter().any(|flag| *flag)
}

fn is_yes(vote: &Option<Vote>) -> bool
    ensures { result ≡ voted_yes vote.now }
{
    match vote {
        Some(vote) => vote.is_yes(),
        None => false,
    }
}

fn is_no(vote: &Option<Vote>) -> bool
    ensures { result ≡ voted_no vote.now }
{
    match vote {
        Some(vote) => !vote.is_yes(),
        None => false,
    }
}

impl Current {
    /// A campaign that begins.
    pub(crate) fn begin(campaign: u32, named: NodeSet) -> Current
        ensures { result ≡ begun campaign named }
    {
        Current {
            campaign,
            named,
            phase: None,
            votes: [None; 8],
            cancel: false,
            restart: false,
            decision: None,
            ended: [None; 8],
        }
    }

    pub(crate) fn is_undecided(&self) -> bool
        ensures { result ≡ is_undecided self.now }
    {
        self.decision.is_none()
    }

    pub(crate) fn is_marked(&self) -> bool
        ensures { result ≡ is_marked self.now }
    {
        self.cancel || self.restart
    }

    /// The vote of a node.
    pub fn vote(&self, node: NodeId) -> Option<Vote>
        ensures { result ≡ vote_of self.now node }
    {
        self.votes[place_of(node)]
    }

    /// How a node ended.
    pub fn end(&self, node: NodeId) -> Option<Outcome>
        ensures { result ≡ end_of self.now node }
    {
        self.ended[place_of(node)]
    }

    /// The lowest node with a vote of no.
    pub fn first_no(&self) -> Option<NodeId>
        ensures { result ≡ first_no self.now }
    {
        let place = self.votes.iter().position(is_no)?;
        NodeId::of(place as u64 + 1)
    }

    /// Whether every named node voted Yes.
    pub fn all_yes(&self) -> bool
        ensures { result ≡ all_yes self.now }
    {
        let mut votes = self.named.flags.iter().zip(self.votes.iter());
        votes.all(|(named, vote)| !*named || is_yes(vote))
    }

    /// Whether every named node has ended.
    pub fn all_ended(&self) -> bool
        ensures { result ≡ all_ended self.now }
    {
        let mut ends = self.named.flags.iter().zip(self.ended.iter());
        ends.all(|(named, end)| !*named || end.is_some())
    }

    /// The cause that an abort would have, if there is one.
    pub fn first_cause(&self) -> Option<Cause>
        ensures { result ≡ first_cause self.now }
    {
        if self.cancel {
            return Some(Cause::Cancel);
        }
        match self.first_no() {
            Some(node) => Some(Cause::Vote(node)),
            None if self.restart => Some(Cause::Restart),
            None => None,
        }
    }
}
