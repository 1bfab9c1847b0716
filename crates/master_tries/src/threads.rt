//! One thread that adds, and one that polls.
ghost use Rattle.std.specs.Prelude.{◌≡◌};
ghost use Rattle.disk_core.specs.Plans.{no_faults};
ghost use Rattle.master_gate.specs.Seats.{IsMasterSeat, IsWatcher};

use crate::compare::{Found, Reply, compare};
use crate::fresh::{TryError, fresh};
use campaign_core::{CampaignState, MasterEvent};
use disk_core::{Disk, FaultPlan};
use disk_mem::{MemDisk, Tear};
use master_gate::{AddAnswer, LookAnswer, MasterGate, MasterSeat};
use std::alloc::Global;
use std::sync::Wait;
use std::sync::atomic::AtomicU64;
use std::sync::atomic::Ordering::SeqCst;
use std::thread::{Threads, join};

/// How often an event is added at most.
const ATTEMPTS: u32 = 3;

/// How often the list is polled at most.
const POLLS: u32 = 200_000_000;

/// Adds each event until it is added or refused, and then sets the flag. What each add was answered goes to `replies`.
fn add_all<R: Wait, D: Disk>(
    rt: &R,
    gate: &MasterGate<D>,
    mut seat: MasterSeat<D>,
    events: &[MasterEvent],
    mut replies: Vec<Reply>,
    done: &AtomicU64,
) -> (MasterSeat<D>, Vec<Reply>)
    requires ours { IsMasterSeat gate.now seat }
    ensures ours { IsMasterSeat gate.now result.0 }
{
    'events: for event in events {
        add_once(rt, gate, &mut seat, event, &mut replies);
    }
    done.store(1, SeqCst);
    (seat, replies)
}

/// Adds an event until it is added or refused, a few times at most.
fn add_once<R: Wait, D: Disk>(
    rt: &R,
    gate: &MasterGate<D>,
    seat: &mut MasterSeat<D>,
    event: &MasterEvent,
    replies: &mut Vec<Reply>,
)
    requires ours { IsMasterSeat gate.now seat.old }
    ensures ours { IsMasterSeat gate.now seat.new }
{
    'attempts: for _ in 0..ATTEMPTS {
        let answer = gate.add(rt, seat, *event);
        let is_answered = matches!(answer, AddAnswer::Added | AddAnswer::Refused(_));
        let event = *event;
        if replies.push(Reply { event, answer }).is_err() || is_answered {
            return;
        }
    }
}

/// Polls until the flag is set, and once more. What differs from the poll before goes to `polls`.
fn poll_all<D: Disk>(
    gate: &MasterGate<D>,
    mut seat: MasterSeat<D>,
    mut polls: Vec<(u64, CampaignState)>,
    done: &AtomicU64,
) -> (MasterSeat<D>, Vec<(u64, CampaignState)>)
    requires ours { IsWatcher gate.now seat }
    ensures ours { IsWatcher gate.now result.0 }
{
    'polls: for _ in 0..POLLS {
        let is_last = done.load(SeqCst) == 1;
        let polled = gate.state(&mut seat);
        let is_new = polls.last() != Some(&polled);
        if is_new && polls.push(polled).is_err() || is_last {
            break;
        }
    }
    (seat, polls)
}

/// Makes a list over a disk with this plan, shares it, adds the events in one thread while another polls, and compares.
pub fn try_script<R: Threads + Wait + Sync>(
    rt: &R,
    alloc: Global,
    tear: Tear,
    plan: &FaultPlan,
    events: &[MasterEvent],
) -> Result<Found, TryError> {
    let mut log = fresh(alloc, tear)?;
    log.arm(plan)?;
    match MasterGate::new(alloc, log) {
        Ok((gate, seat)) => share(rt, alloc, gate, seat, events),
        Err((_log, _)) => Err(TryError::Memory),
    }
}

/// What two threads find behind a gate.
fn share<R: Threads + Wait + Sync>(
    rt: &R,
    alloc: Global,
    gate: MasterGate<MemDisk>,
    mut seat: MasterSeat<MemDisk>,
    events: &[MasterEvent],
) -> Result<Found, TryError>
    requires ours { IsMasterSeat gate seat }
{
    let watcher = gate.watch(&mut seat);
    let done = AtomicU64::new(0);
    let flag = &done;
    let shared = &gate;
    let replies = Vec::new(alloc);
    let polls = Vec::new(alloc);
    let ((mut seat, replies), (watcher, polls)) = join(
        rt,
        || add_all(rt, shared, seat, events, replies, flag),
        || poll_all(shared, watcher, polls, flag),
    );
    let looked = match gate.look(rt, &mut seat) {
        LookAnswer::At { place, .. } => Some(place),
        LookAnswer::NoReply { .. } | LookAnswer::OutOfMemory => None,
    };
    gate.join(&mut seat, watcher);
    let (_log, list) = gate.close(seat);
    Ok(compare(alloc, &replies, &polls, &list, looked)?)
}
