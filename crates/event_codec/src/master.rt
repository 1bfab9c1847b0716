//! What the master's list says: its epoch, the earlier campaigns and the current one.
ghost use Rattle.std.specs.Prelude.{◌≡◌, ◌++◌, ◌<◌, ◌^◌, IfOk, OnOk, length};
ghost use Rattle.std.specs.List.{flat_map};
ghost use Rattle.ucm_base.specs.Limits.{node_limit};
ghost use Rattle.event_codec.specs.Spelling.{Any, ManyFit, OptionFits, option_spelled};
ghost use Rattle.event_codec.specs.Replies.{outcome_spelled};
ghost use Rattle.event_codec.specs.Master.{CampaignsFit, CurrentFits, EventFits, FoldFits, VoteFits, campaigns_spelled, current_spelled, event_spelled, fold_spelled, vote_spelled};
ghost use Rattle.event_codec.specs.Unique.{unique-many, unique-option};
ghost use Rattle.event_codec.specs.UniqueReplies.{unique-outcome};
ghost use Rattle.event_codec.specs.UniqueMaster.{unique-campaigns, unique-current, unique-fold, unique-vote};

use crate::campaigns::Reached;
use crate::fields::{put_many, take_many};
use crate::taking::{Put, Take, Unread};
use campaign_core::{CampaignList, CampaignResult, Current, Decision, Fold, MasterEvent, Vote};
use pm_types::Outcome;
use std::alloc::{AllocError, Global};
use ucm_base::NodeSet;
use ucm_base::limits::NODE_LIMIT;

impl Take for [Option<Vote>; NODE_LIMIT as usize] {
    ghost spelled = { flat_map (option_spelled vote_spelled) };

    ghost fits = { ManyFit (OptionFits VoteFits) node_limit };

    ghost unique = { unique-many node_limit (unique-option unique-vote) };

    fn take(alloc: Global, bytes: &[u8]) -> Result<(Self, &[u8]), Unread> {
        match take_many::<Option<Vote>>(alloc, bytes, NODE_LIMIT as usize) {
            Ok((items, rest)) => {
                let mut votes = [None; NODE_LIMIT as usize];
                votes.copy_from_slice(items.as_slice());
                Ok((votes, rest))
            }
            Err(unread) => Err(unread),
        }
    }
}

impl Put for [Option<Vote>; NODE_LIMIT as usize] {
    fn put(&self, alloc: Global, into: &mut Vec<u8>) -> Result<(), AllocError> {
        put_many(alloc, into, self.as_slice())
    }
}

impl Take for [Option<Outcome>; NODE_LIMIT as usize] {
    ghost spelled = { flat_map (option_spelled outcome_spelled) };

    ghost fits = { ManyFit (OptionFits Any) node_limit };

    ghost unique = { unique-many node_limit (unique-option unique-outcome) };

    fn take(alloc: Global, bytes: &[u8]) -> Result<(Self, &[u8]), Unread> {
        match take_many::<Option<Outcome>>(alloc, bytes, NODE_LIMIT as usize) {
            Ok((items, rest)) => {
                let mut ended = [None; NODE_LIMIT as usize];
                ended.copy_from_slice(items.as_slice());
                Ok((ended, rest))
            }
            Err(unread) => Err(unread),
        }
    }
}

impl Put for [Option<Outcome>; NODE_LIMIT as usize] {
    fn put(&self, alloc: Global, into: &mut Vec<u8>) -> Result<(), AllocError> {
        put_many(alloc, into, self.as_slice())
    }
}

impl Take for Current {
    ghost spelled = { current_spelled };

    ghost fits = { CurrentFits };

    ghost unique = { unique-current };

    fn take(alloc: Global, bytes: &[u8]) -> Result<(Current, &[u8]), Unread> {
        type Votes = [Option<Vote>; NODE_LIMIT as usize];
        type Ends = [Option<Outcome>; NODE_LIMIT as usize];
        type Marks = (bool, (bool, (Option<Decision>, Ends)));
        match <(u32, (NodeSet, (Reached, (Votes, Marks))))>::take(alloc, bytes) {
            Ok((fields, rest)) => {
                let (campaign, (named, (reached, parts))) = fields;
                let (votes, marks) = parts;
                let (cancel, (restart, last)) = marks;
                let (decision, ended) = last;
                let current = Current {
                    campaign,
                    named,
                    phase: reached.phase,
                    votes,
                    cancel,
                    restart,
                    decision,
                    ended,
                };
                Ok((current, rest))
            }
            Err(unread) => Err(unread),
        }
    }
}

impl Put for Current {
    fn put(&self, alloc: Global, into: &mut Vec<u8>) -> Result<(), AllocError> {
        self.campaign.put(alloc, into)?;
        self.named.put(alloc, into)?;
        Reached { phase: self.phase }.put(alloc, into)?;
        self.votes.put(alloc, into)?;
        self.cancel.put(alloc, into)?;
        self.restart.put(alloc, into)?;
        self.decision.put(alloc, into)?;
        self.ended.put(alloc, into)
    }
}

impl Take for CampaignList {
    ghost spelled = { campaigns_spelled };

    ghost fits = { CampaignsFit };

    ghost unique = { unique-campaigns };

    fn take(alloc: Global, bytes: &[u8]) -> Result<(CampaignList, &[u8]), Unread> {
        let (count, rest) = u16::take(alloc, bytes)?;
        match take_many::<(u32, CampaignResult)>(alloc, rest, usize::from(count)) {
            Ok((items, rest)) => Ok((CampaignList::of(items), rest)),
            Err(unread) => Err(unread),
        }
    }
}

impl Take for Fold {
    ghost spelled = { fold_spelled };

    ghost fits = { FoldFits };

    ghost unique = { unique-fold };

    fn take(alloc: Global, bytes: &[u8]) -> Result<(Fold, &[u8]), Unread> {
        match <(u32, (CampaignList, Option<Current>))>::take(alloc, bytes) {
            Ok(((epoch, (earlier, current)), rest)) => {
                let fold = Fold {
                    epoch,
                    earlier,
                    current,
                };
                Ok((fold, rest))
            }
            Err(unread) => Err(unread),
        }
    }
}

/// Appends the spelling of what the master's list says. Where memory is wanting, a part of it may stand there.
fn put_fold(alloc: Global, into: &mut Vec<u8>, fold: &Fold) -> Result<(), AllocError>
    requires { length fold.now.earlier < 2 ^ 16 }
    ensures appended { OnOk result
        (into.new.items ≡ into.old.items ++ fold_spelled fold.now) }
    ensures form { OnOk result (FoldFits fold.now) }
{
    fold.epoch.put(alloc, into)?;
    let earlier = fold.earlier.as_slice();
    (earlier.len() as u16).put(alloc, into)?;
    put_many(alloc, into, earlier)?;
    fold.current.put(alloc, into)
}

/// The spelling of an event.
pub fn event_bytes(alloc: Global, event: &MasterEvent) -> Result<Vec<u8>, AllocError>
    ensures spelled { IfOk result (λ bytes. bytes.items ≡ event_spelled event.now) }
    ensures form { OnOk result (EventFits event.now) }
{
    let mut bytes = Vec::new(alloc);
    event.put(alloc, &mut bytes)?;
    Ok(bytes)
}

/// The spelling of what the master's list says.
pub fn fold_bytes(alloc: Global, fold: &Fold) -> Result<Vec<u8>, AllocError>
    requires { length fold.now.earlier < 2 ^ 16 }
    ensures spelled { IfOk result (λ bytes. bytes.items ≡ fold_spelled fold.now) }
    ensures form { OnOk result (FoldFits fold.now) }
{
    let mut bytes = Vec::new(alloc);
    put_fold(alloc, &mut bytes, fold)?;
    Ok(bytes)
}
