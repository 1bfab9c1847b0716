//! The tables of a master's list.
ghost use Rattle.std.specs.Prelude.{◌≡◌, None};
ghost use Rattle.decision_log.specs.Known.{IsKnown};

use crate::tries::{Left, TryError, fresh, try_events};
use campaign_core::{CampaignResult, Cause, Decision, MasterEvent, Phase, Vote};
use decision_log::{AddAnswer, MasterLog};
use disk_core::{Disk, FailKind, Fails, FaultPlan, Stops};
use disk_mem::Tear;
use pm_types::Outcome;
use std::alloc::{AllocError, Global};
use std::io;
use ucm_base::{NodeId, NodeSet};

/// The first node, and the first two.
const FIRST: NodeSet = NodeSet {
    flags: [true, false, false, false, false, false, false, false],
};

const FIRST_TWO: NodeSet = NodeSet {
    flags: [true, true, false, false, false, false, false, false],
};

/// More bytes than a write of an event has.
const ALL: u64 = 16;

/// Formatting aside, an event makes two writes and two syncs: its body, which never decides, and its gate, a byte: it
/// stands where that is kept or torn to ones.
pub fn print<R: Print + AllocGlobal>(rt: &R) -> io::Result<()> {
    let (Some(first), Some(second)) = (NodeId::of(1), NodeId::of(2)) else {
        return println!(rt; "no nodes");
    };
    let Ok(mut log) = fresh(rt.alloc(), Tear::Keep) else {
        return println!(rt; "no list");
    };
    println!(rt; "events of a list of nodes 1 and 2:")?;
    print_answers(rt, rt.alloc(), &mut log, &of_two(second))?;
    let events = of_one(first, 7);
    println!(rt;
        "a list of node 1, stopped at the body and the gate of Start, Begin, the decision and Enter:"
    )?;
    for count in [1usize, 2, 7, 9] {
        print_stops(rt, &events[..count], &events)?;
    }
    println!(rt; "a list of node 1 where a call fails:")?;
    for kind in [FailKind::Write, FailKind::Sync] {
        for call in 1..=18u64 {
            let plan = failing_at(rt.alloc(), kind, call);
            let left = left_under(rt.alloc(), Tear::Keep, plan, &events, &events);
            println!(rt; "fail {kind:?} {call}: {left:?}")?;
        }
    }
    Ok(())
}

/// Adds the events, and prints what each is answered.
fn print_answers<D: Disk, R: Print>(
    rt: &R,
    alloc: Global,
    log: &mut MasterLog<D>,
    events: &[(&'static str, MasterEvent)],
) -> io::Result<()>
    requires known { IsKnown log.old.log log.old.campaign.fold log.old.pending
        (D.seen log.old.disk) (D.images log.old.disk) }
    requires open { log.old.pending ≡ None }
{
    'events: for row in events {
        let (name, event) = *row;
        match log.add(alloc, event) {
            AddAnswer::Added => println!(rt; "{name}: Added")?,
            AddAnswer::Refused(refusal) => println!(rt; "{name}: {refusal:?}")?,
            AddAnswer::OutOfMemory => println!(rt; "{name}: OutOfMemory")?,
            AddAnswer::NoReply { faults } => return println!(rt; "{name}: NoReply {faults}"),
        }
    }
    println!(rt; "{} added", log.count())
}

/// Stops the last of the first events at each of its writes, over each tear, with each count of bytes kept.
fn print_stops<R: Print + AllocGlobal>(
    rt: &R,
    first: &[MasterEvent],
    events: &[MasterEvent],
) -> io::Result<()> {
    let gate = (first.len() as u64).saturating_mul(2);
    for write in [gate.saturating_sub(1), gate] {
        for tear in [Tear::Keep, Tear::Old, Tear::Ones] {
            print_kept(rt, write, tear, first, events)?;
        }
    }
    Ok(())
}

/// The same at one write and over one tear: a line for all counts of bytes kept that leave the same.
fn print_kept<R: Print + AllocGlobal>(
    rt: &R,
    write: u64,
    tear: Tear,
    first: &[MasterEvent],
    events: &[MasterEvent],
) -> io::Result<()> {
    let mut from = 0u64;
    let plan = stopped_at(rt.alloc(), write, 0);
    let mut left = left_under(rt.alloc(), tear, plan, first, events);
    for keep in 1..=ALL {
        let plan = stopped_at(rt.alloc(), write, keep);
        let next = left_under(rt.alloc(), tear, plan, first, events);
        if next != left {
            println!(rt; "stop {write} tear {tear:?} keep {from} up: {left:?}")?;
            from = keep;
            left = next;
        }
    }
    println!(rt; "stop {write} tear {tear:?} keep {from} up: {left:?}")
}

/// The plan in which one write is stopped and keeps so many bytes.
fn stopped_at(alloc: Global, write: u64, keep: u64) -> Result<FaultPlan, AllocError> {
    Ok(FaultPlan {
        stops: Stops::of(vec![in alloc; (write, keep)]?),
        fails: Fails::of(Vec::new(alloc)),
    })
}

/// The plan in which one call fails.
fn failing_at(alloc: Global, kind: FailKind, call: u64) -> Result<FaultPlan, AllocError> {
    Ok(FaultPlan {
        stops: Stops::of(Vec::new(alloc)),
        fails: Fails::of(vec![in alloc; (kind, call)]?),
    })
}

/// What is left of the events under a plan.
fn left_under(
    alloc: Global,
    tear: Tear,
    plan: Result<FaultPlan, AllocError>,
    first: &[MasterEvent],
    events: &[MasterEvent],
) -> Result<Left, TryError> {
    let plan = plan?;
    try_events(alloc, tear, &plan, first, events)
}

/// Events of nodes 1 and 2 with their names, allowed and not.
fn of_two(second: NodeId) -> [(&'static str, MasterEvent); 9] {
    let named = FIRST_TWO;
    let commit = Decision::Commit;
    let restart = Decision::Abort(Cause::Restart);
    let voted = Decision::Abort(Cause::Vote(second));
    let result = CampaignResult::Failed;
    let vote = Vote::RolledBack;
    [
        ("CancelAsked", MasterEvent::CancelAsked),
        ("Start 1", MasterEvent::Start { epoch: 1 }),
        ("Begin 7", MasterEvent::Begin { campaign: 7, named }),
        ("Decide Commit", MasterEvent::Decide { decision: commit }),
        (
            "VoteOf 2 RolledBack",
            MasterEvent::VoteOf { node: second, vote },
        ),
        (
            "Decide Abort Restart",
            MasterEvent::Decide { decision: restart },
        ),
        (
            "Decide Abort Vote 2",
            MasterEvent::Decide { decision: voted },
        ),
        ("Enter Failed", MasterEvent::Enter { result }),
        ("Start 1", MasterEvent::Start { epoch: 1 }),
    ]
}

/// A campaign of node 1 that is successful, behind a first Start.
pub fn of_one(node: NodeId, campaign: u32) -> [MasterEvent; 9] {
    let named = FIRST;
    let vote = Vote::Yes;
    let decision = Decision::Commit;
    let outcome = Outcome::New;
    let result = CampaignResult::Successful;
    [
        MasterEvent::Start { epoch: 1 },
        MasterEvent::Begin { campaign, named },
        MasterEvent::PhaseTo {
            phase: Phase::Transferring,
        },
        MasterEvent::PhaseTo {
            phase: Phase::Processing,
        },
        MasterEvent::PhaseTo {
            phase: Phase::Activating,
        },
        MasterEvent::VoteOf { node, vote },
        MasterEvent::Decide { decision },
        MasterEvent::EndedAt { node, outcome },
        MasterEvent::Enter { result },
    ]
}
