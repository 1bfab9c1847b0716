//! The rows.
use crate::script::{EVENTS, of_one};
use crate::threads::try_script;
use campaign_core::MasterEvent;
use disk_core::{FailKind, Fails, FaultPlan, Stops};
use disk_mem::Tear;
use std::alloc::{AllocError, Global};
use std::io;
use std::sync::Wait;
use std::thread::Threads;
use ucm_base::NodeId;

/// More bytes than a write of an event has.
const ALL: u64 = 1_000;

/// An event makes two writes and two syncs: its body, which never decides, and its gate, a byte, which does. So an
/// event whose gate is kept stood, and is refused where it is added again.
pub fn print<R: Print + AllocGlobal + Threads + Wait + Sync>(rt: &R) -> io::Result<()> {
    let Some(node) = NodeId::of(1) else {
        return println!(rt; "no node");
    };
    let events = of_one(node);
    print_row(rt, "no fault", Ok(FaultPlan::none(rt.alloc())), &events)?;
    for write in 1..=2 * EVENTS as u64 {
        println!(rt; "stop {write}:")?;
        for (name, keep) in [("nothing kept", 0u64), ("all kept", ALL)] {
            print_row(
                rt,
                name,
                planned(rt.alloc(), &[(write, keep)], &[]),
                &events,
            )?;
        }
    }
    for call in 1..=2 * EVENTS as u64 {
        println!(rt; "fail {call}:")?;
        for (name, kind) in [("write", FailKind::Write), ("sync", FailKind::Sync)] {
            print_row(rt, name, planned(rt.alloc(), &[], &[(kind, call)]), &events)?;
        }
    }
    let twice = planned(rt.alloc(), &[(14, 0)], &[(FailKind::Read, 1)]);
    print_row(rt, "stop 14, and fail read 1", twice, &events)
}

/// Prints what a plan gave.
fn print_row<R: Print + AllocGlobal + Threads + Wait + Sync>(
    rt: &R,
    name: &str,
    plan: Result<FaultPlan, AllocError>,
    events: &[MasterEvent],
) -> io::Result<()> {
    let Ok(plan) = plan else {
        return println!(rt; "no memory");
    };
    let found = try_script(rt, rt.alloc(), Tear::Keep, &plan, events);
    println!(rt; "{name}: {found:?}")
}

/// The plan with these stops and failures.
fn planned(
    alloc: Global,
    stops: &[(u64, u64)],
    fails: &[(FailKind, u64)],
) -> Result<FaultPlan, AllocError> {
    Ok(FaultPlan {
        stops: Stops::of(stops.to_vec(alloc)?),
        fails: Fails::of(fails.to_vec(alloc)?),
    })
}
