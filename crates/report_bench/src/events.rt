//! Events of the master, calls, replies and entries, by their numbers.

use crate::codes::{at, call_no, client, node, outcome, refusal, short_at, status};
use campaign_core::{CampaignResult, Cause, Decision, MasterEvent, Phase, Vote};
use pm_types::{Call, EndMark, Entry, IdList, Reached, Reply, SessionMark, Synced};
use std::alloc::Global;
use ucm_base::{Block, ClientId, NodeSet};

/// The nodes whose bits are set: bit 0 is that of node 1.
fn nodes(bits: u64) -> NodeSet {
    let mut flags = [false; 8];
    let mut left = bits;
    for place in 0..8 {
        flags[place] = left % 2 == 1;
        left /= 2;
    }
    NodeSet { flags }
}

fn phase(number: u64) -> Phase {
    match number {
        0 => Phase::Transferring,
        1 => Phase::Processing,
        _ => Phase::Activating,
    }
}

/// A vote: 0 Yes; 1, epoch, number, refusal and place; 2 rolled back; 3, losses and faults.
fn vote(numbers: &[u64]) -> Option<Vote> {
    match at(numbers, 2) {
        0 => Some(Vote::Yes),
        1 => Some(Vote::Refused {
            no: call_no(numbers, 3)?,
            refusal: refusal(at(numbers, 5), at(numbers, 6))?,
        }),
        2 => Some(Vote::RolledBack),
        _ => Some(Vote::Unreached {
            losses: at(numbers, 3),
            faults: at(numbers, 4),
        }),
    }
}

/// A decision: 0 Commit, 1 Cancel, 2 and a node, 3 Restart.
fn decision(numbers: &[u64]) -> Option<Decision> {
    match at(numbers, 1) {
        0 => Some(Decision::Commit),
        1 => Some(Decision::Abort(Cause::Cancel)),
        2 => Some(Decision::Abort(Cause::Vote(node(at(numbers, 2))?))),
        _ => Some(Decision::Abort(Cause::Restart)),
    }
}

fn result(number: u64) -> CampaignResult {
    match number {
        0 => CampaignResult::Successful,
        1 => CampaignResult::Failed,
        _ => CampaignResult::Cancelled,
    }
}

/// An event, 0 to 7, and its fields.
pub fn event(numbers: &[u64]) -> Option<MasterEvent> {
    let event = match at(numbers, 0) {
        0 => MasterEvent::Start {
            epoch: short_at(numbers, 1),
        },
        1 => MasterEvent::Begin {
            campaign: short_at(numbers, 1),
            named: nodes(at(numbers, 2)),
        },
        2 => MasterEvent::PhaseTo {
            phase: phase(at(numbers, 1)),
        },
        3 => MasterEvent::VoteOf {
            node: node(at(numbers, 1))?,
            vote: vote(numbers)?,
        },
        4 => MasterEvent::CancelAsked,
        5 => MasterEvent::Decide {
            decision: decision(numbers)?,
        },
        6 => MasterEvent::EndedAt {
            node: node(at(numbers, 1))?,
            outcome: outcome(at(numbers, 2)),
        },
        _ => MasterEvent::Enter {
            result: result(at(numbers, 1)),
        },
    };
    Some(event)
}

/// So many bytes of one value.
pub fn block(alloc: Global, size: u64, byte: u64) -> Option<Block> {
    let size = u32::try_from(size).ok()?;
    let byte = u8::try_from(byte).ok()?;
    let bytes = vec![in alloc; byte; size as usize].ok()?;
    Some(Block::of(bytes))
}

/// So many bytes of one value, or the kept bytes where it is above 255.
fn sent(alloc: Global, kept: &[u8], size: u64, byte: u64) -> Option<Block> {
    if byte > 255 {
        if kept.len() > 65_536 {
            return None;
        }
        return Some(Block::of(Vec::from_slice(alloc, kept).ok()?));
    }
    block(alloc, size, byte)
}

/// A call, 0 to 10, with at most four arguments from a place on.
fn call(alloc: Global, numbers: &[u64], kept: &[u8]) -> Option<Call> {
    let id = short_at(numbers, 4);
    let call = match at(numbers, 3) {
        0 => Call::Sync,
        1 => Call::TransferStart {
            size: at(numbers, 4),
        },
        2 => Call::TransferData {
            id,
            counter: at(numbers, 5),
            bytes: sent(alloc, kept, at(numbers, 6), at(numbers, 7))?,
        },
        3 => Call::TransferExit { id },
        4 => Call::DeleteTransfer { id },
        5 => Call::ProcessSwPackage {
            id,
            tag: short_at(numbers, 5),
        },
        6 => Call::Activate,
        7 => Call::Finish,
        8 => Call::Rollback,
        9 => Call::RevertProcessedSwPackages,
        _ => Call::Cancel { id },
    };
    Some(call)
}

/// The master's session of a tag, with a status; none of tag 0.
fn session(tag: u32, number: u64) -> Option<SessionMark> {
    if tag == 0 {
        return None;
    }
    Some(SessionMark {
        owner: ClientId::of(0)?,
        tag,
        status: status(number),
    })
}

fn ended(tag: u32, number: u64) -> Option<EndMark> {
    if tag == 0 {
        return None;
    }
    Some(EndMark {
        tag,
        outcome: outcome(number),
    })
}

/// The ids 1 to a number, at most 2.
fn ids(number: u64) -> IdList {
    let mut ids = IdList::new();
    if number == 0 {
        return ids;
    }
    ids.push(1);
    if number == 1 {
        return ids;
    }
    ids.push(2);
    ids
}

/// A reply: 0 Done; 1 and an id; 2, tag and status of the session, tag and outcome of the end, and a number of
/// transfers; 3, a refusal and a place.
pub fn reply(numbers: &[u64], place: usize) -> Option<Reply> {
    let numbers = numbers.get(place..)?;
    match at(numbers, 0) {
        0 => Some(Reply::Done),
        1 => Some(Reply::Started {
            id: short_at(numbers, 1),
        }),
        2 => Some(Reply::Synced(Synced {
            session: session(short_at(numbers, 1), at(numbers, 2)),
            ended: ended(short_at(numbers, 3), at(numbers, 4)),
            transfers: ids(at(numbers, 5)),
        })),
        _ => Some(Reply::Refused(refusal(at(numbers, 1), at(numbers, 2))?)),
    }
}

/// A numbered entry: client, epoch, number, call and its four arguments, and the reply.
pub fn entry(alloc: Global, numbers: &[u64], kept: &[u8]) -> Option<Entry> {
    Some(Entry::Numbered {
        client: client(at(numbers, 0))?,
        no: call_no(numbers, 1)?,
        call: call(alloc, numbers, kept)?,
        reply: reply(numbers, 8)?,
    })
}

/// A unit: whether it passed, and the status after it.
pub fn unit(numbers: &[u64]) -> Entry {
    Entry::Unit {
        passed: at(numbers, 0) == 1,
        after: status(at(numbers, 1)),
    }
}

/// What a call gave: 0 and a reply, 1 and the reply again, 2 and the number that it is behind.
pub fn reached(numbers: &[u64]) -> Option<Reached> {
    match at(numbers, 0) {
        0 => Some(Reached::Done(reply(numbers, 1)?)),
        1 => Some(Reached::Again(reply(numbers, 1)?)),
        _ => Some(Reached::Stale {
            last: call_no(numbers, 1)?,
        }),
    }
}
