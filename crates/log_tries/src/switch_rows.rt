//! A master's list whose half is full: the next event switches the halves.
ghost use Rattle.std.specs.Prelude.{◌≡◌, None, OnOk};
ghost use Rattle.decision_log.specs.Known.{IsKnown};

use crate::tries::{Settled, TryError, fresh, opened_again, settle};
use campaign_core::MasterEvent;
use decision_log::{AddAnswer, MasterLog};
use disk_core::{Disk, FailKind, Fails, FaultPlan, Stops};
use disk_mem::Tear;
use std::alloc::{AllocError, Global};
use std::io;

/// The bytes of a half's journal, and of the record of a Start with the gate behind it.
const JOURNAL: u64 = 1_835_008;

const START: u64 = 11;

/// More Starts than a half takes.
const MOST: u64 = 200_000;

/// A switch writes the state and its gate, and the record its body and its gate: an attempt that begins with a switch
/// makes four writes and four syncs, and one behind it two of each.
pub fn print<R: Print + AllocGlobal>(rt: &R) -> io::Result<()> {
    println!(rt;
        "a list of Starts whose half is full, stopped at writes 1, 3, 6 and 8 behind it:"
    )?;
    for tear in [Tear::Keep, Tear::Old, Tear::Ones] {
        for keep in [0u64, 1, 1_000_000] {
            println!(rt; "tear {tear:?} keep {keep}")?;
            let plan = stopped(rt.alloc(), keep);
            print_attempts(rt, tear, plan)?;
        }
    }
    for kind in [FailKind::Write, FailKind::Sync] {
        println!(rt; "failing at {kind:?} 1, 3, 6 and 8")?;
        let plan = failing(rt.alloc(), kind);
        print_attempts(rt, Tear::Keep, plan)?;
    }
    Ok(())
}

fn stopped(alloc: Global, keep: u64) -> Result<FaultPlan, AllocError> {
    Ok(FaultPlan {
        stops: Stops::of(vec![in alloc; (1u64, keep), (3, keep), (6, keep), (8, keep)]?),
        fails: Fails::of(Vec::new(alloc)),
    })
}

fn failing(alloc: Global, kind: FailKind) -> Result<FaultPlan, AllocError> {
    Ok(FaultPlan {
        stops: Stops::of(Vec::new(alloc)),
        fails: Fails::of(vec![in alloc; (kind, 1u64), (kind, 3), (kind, 6), (kind, 8)]?),
    })
}

/// Prints five attempts at the next Start under a plan, behind a full half, and what the disk shows opened again.
fn print_attempts<R: Print + AllocGlobal>(
    rt: &R,
    tear: Tear,
    plan: Result<FaultPlan, AllocError>,
) -> io::Result<()> {
    let (Ok(plan), Ok(mut log)) = (plan, fresh(rt.alloc(), tear)) else {
        return println!(rt; "no list");
    };
    fill(&mut log, rt.alloc());
    println!(rt; "{:?} {}", log.log, log.count())?;
    if log.is_closed() || log.arm(&plan).is_err() {
        return println!(rt; "no plan");
    }
    print_five(rt, rt.alloc(), &mut log)?;
    if settle(&mut log, rt.alloc()).is_err() {
        return println!(rt; "no answer");
    }
    match opened_again(rt.alloc(), log) {
        Ok(again) => println!(rt; "opened {:?} epoch {}", again.log, again.view().epoch),
        Err(error) => println!(rt; "{error:?}"),
    }
}

/// Prints five attempts, or those up to one that isn't settled.
fn print_five<D: Disk, R: Print>(rt: &R, alloc: Global, log: &mut MasterLog<D>) -> io::Result<()>
    requires known { IsKnown log.old.log log.old.campaign.fold log.old.pending
        (D.seen log.old.disk) (D.images log.old.disk) }
    requires open { log.old.pending ≡ None }
    ensures known { IsKnown log.new.log log.new.campaign.fold log.new.pending
        (D.seen log.new.disk) (D.images log.new.disk) }
{
    'attempts: for _attempt in 0..5 {
        let Ok((answer, revived)) = attempt(log, alloc) else {
            return println!(rt; "no answer");
        };
        println!(rt; "{answer} {revived:?} {:?} {}", log.log, log.count())?;
    }
    Ok(())
}

/// Adds Starts up to the last that the half takes.
fn fill<D: Disk>(log: &mut MasterLog<D>, alloc: Global)
    requires known { IsKnown log.old.log log.old.campaign.fold log.old.pending
        (D.seen log.old.disk) (D.images log.old.disk) }
    requires open { log.old.pending ≡ None }
    ensures known { IsKnown log.new.log log.new.campaign.fold log.new.pending
        (D.seen log.new.disk) (D.images log.new.disk) }
    ensures plan { D.armed log.new.disk ≡ D.armed log.old.disk }
{
    'starts: for _start in 0..MOST {
        if log.log.used.saturating_add(START) > JOURNAL {
            return;
        }
        let AddAnswer::Added = log.add(alloc, next_start(log)) else {
            return;
        };
    }
}

/// The Start that follows.
fn next_start<D: Disk>(log: &MasterLog<D>) -> MasterEvent {
    let epoch = log.view().epoch.saturating_add(1);
    MasterEvent::Start { epoch }
}

/// Adds the next Start, and revives the list where that isn't answered.
fn attempt<D: Disk>(
    log: &mut MasterLog<D>,
    alloc: Global,
) -> Result<(&'static str, Settled), TryError>
    requires known { IsKnown log.old.log log.old.campaign.fold log.old.pending
        (D.seen log.old.disk) (D.images log.old.disk) }
    requires open { log.old.pending ≡ None }
    ensures known { IsKnown log.new.log log.new.campaign.fold log.new.pending
        (D.seen log.new.disk) (D.images log.new.disk) }
    ensures open { OnOk result (log.new.pending ≡ None) }
{
    let event = next_start(log);
    let answer = match log.add(alloc, event) {
        AddAnswer::Added => "Added",
        AddAnswer::Refused(_) => "Refused",
        AddAnswer::NoReply { .. } => "NoReply",
        AddAnswer::OutOfMemory => return Err(TryError::Memory),
    };
    let revived = settle(log, alloc)?;
    Ok((answer, revived))
}
