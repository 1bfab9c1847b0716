//! Replies and polls against the list that came back.
use campaign_core::{Campaign, CampaignState, MasterEvent};
use event_codec::event_bytes;
use master_gate::AddAnswer;
use std::alloc::{AllocError, Global};

/// An event that was added, and how it was answered.
#[derive(Clone, Copy, Drop)]
pub struct Reply {
    pub event: MasterEvent,
    pub answer: AddAnswer,
}

/// How many adds were answered in which way, the faults that they carried, how many events came back, and whether the
/// look, each reply and each poll is true of these.
#[derive(Debug, Drop)]
pub struct Found {
    added: u64,
    refused: u64,
    unanswered: u64,
    faults: u64,
    listed: usize,
    looked: bool,
    replies: bool,
    polls: bool,
}

/// What was found.
pub fn compare(
    alloc: Global,
    replies: &[Reply],
    polls: &[(u64, CampaignState)],
    list: &[MasterEvent],
    looked: Option<u64>,
) -> Result<Found, AllocError> {
    let mut found = count(replies);
    found.listed = list.len();
    found.looked = looked == Some(list.len() as u64);
    found.replies = are_told(alloc, replies, list)?;
    found.polls = are_shown(alloc, polls, list)?;
    Ok(found)
}

fn count(replies: &[Reply]) -> Found {
    let mut found = Found {
        added: 0,
        refused: 0,
        unanswered: 0,
        faults: 0,
        listed: 0,
        looked: false,
        replies: false,
        polls: false,
    };
    for reply in replies {
        match reply.answer {
            AddAnswer::Added => found.added = found.added.saturating_add(1),
            AddAnswer::Refused(_) => found.refused = found.refused.saturating_add(1),
            AddAnswer::NoReply { faults } => {
                found.unanswered = found.unanswered.saturating_add(1);
                found.faults = found.faults.saturating_add(faults);
            }
            AddAnswer::OutOfMemory => {}
        }
    }
    found
}

/// How far the list was told: so many of its events, and the campaign after them.
#[derive(Drop)]
struct Told {
    place: usize,
    campaign: Campaign,
}

impl Told {
    fn new(alloc: Global) -> Told {
        Told {
            place: 0,
            campaign: Campaign::new(alloc),
        }
    }

    /// Goes past an event, if it is the next one.
    fn pass(
        &mut self,
        alloc: Global,
        list: &[MasterEvent],
        event: &MasterEvent,
    ) -> Result<bool, AllocError> {
        if self.place >= list.len() || !is_same(alloc, &list[self.place], event)? {
            return Ok(false);
        }
        self.place = self.place.saturating_add(1);
        self.campaign.reserve()?;
        Ok(self.campaign.apply(event).is_ok())
    }

    /// Goes past an event that was added, and past one before it that was without a reply, if that stood.
    fn pass_added(
        &mut self,
        alloc: Global,
        list: &[MasterEvent],
        event: &MasterEvent,
        doubt: &Option<MasterEvent>,
    ) -> Result<bool, AllocError> {
        if self.pass(alloc, list, event)? {
            return Ok(true);
        }
        self.pass_doubt(alloc, list, doubt)?;
        self.pass(alloc, list, event)
    }

    /// Goes past an event that was without a reply, if it stood.
    fn pass_doubt(
        &mut self,
        alloc: Global,
        list: &[MasterEvent],
        doubt: &Option<MasterEvent>,
    ) -> Result<(), AllocError> {
        if let Some(event) = doubt {
            self.pass(alloc, list, event)?;
        }
        Ok(())
    }
}

/// Whether two events are spelled alike.
fn is_same(alloc: Global, one: &MasterEvent, other: &MasterEvent) -> Result<bool, AllocError> {
    let first = event_bytes(alloc, one)?;
    let second = event_bytes(alloc, other)?;
    Ok(first.as_slice() == second.as_slice())
}

/// Whether the replies tell the list: an event that was added is the next one, one that was refused is refused by the
/// table there, one without a reply may be the next one, and there are no others.
fn are_told(alloc: Global, replies: &[Reply], list: &[MasterEvent]) -> Result<bool, AllocError> {
    let mut told = Told::new(alloc);
    let mut doubt = None;
    for reply in replies {
        match reply.answer {
            AddAnswer::Added => {
                if !told.pass_added(alloc, list, &reply.event, &doubt)? {
                    return Ok(false);
                }
                doubt = None;
            }
            AddAnswer::Refused(refusal) => {
                told.pass_doubt(alloc, list, &doubt)?;
                if told.campaign.refusal(&reply.event) != Some(refusal) {
                    return Ok(false);
                }
                doubt = None;
            }
            AddAnswer::NoReply { .. } => doubt = Some(reply.event),
            AddAnswer::OutOfMemory => {}
        }
    }
    told.pass_doubt(alloc, list, &doubt)?;
    Ok(told.place == list.len())
}

/// Whether the polls go on, and each shows the state after so many events of the list.
fn are_shown(
    alloc: Global,
    polls: &[(u64, CampaignState)],
    list: &[MasterEvent],
) -> Result<bool, AllocError> {
    let mut least = 0u64;
    for poll in polls {
        let (place, state) = *poll;
        if place < least || state_after(alloc, list, place)? != Some(state) {
            return Ok(false);
        }
        least = place;
    }
    Ok(true)
}

/// The state after so many events of the list.
fn state_after(
    alloc: Global,
    list: &[MasterEvent],
    place: u64,
) -> Result<Option<CampaignState>, AllocError> {
    if place > list.len() as u64 {
        return Ok(None);
    }
    let mut campaign = Campaign::new(alloc);
    for event in &list[..place as usize] {
        campaign.reserve()?;
        if campaign.apply(event).is_err() {
            return Ok(None);
        }
    }
    Ok(Some(campaign.state()))
}
