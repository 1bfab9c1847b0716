//! What threads do behind one gate. A poll answers while another thread has the turn; what was
//! counted is each part's counts in their order, each once, whatever the schedule; a device that
//! fails loses a count or keeps it, and never doubles it.
ghost use Rattle.std.specs.Prelude.{◌≡◌};
ghost use Rattle.gate_counter.specs.Seats.{IsSeatOf};

use gate_counter::{Counter, count_together, watch_once};
use std::alloc::Global;
use std::sync::Wait;
use std::sync::atomic::AtomicU64;
use std::sync::atomic::Ordering::SeqCst;
use std::thread::{Threads, join};
use turn_gate::{Gate, Seat};

/// How often a flag is looked at before its thread goes on.
const LOOKS: u32 = 200_000_000;

fn wait_for(flag: &AtomicU64) -> bool {
    for _ in 0..LOOKS {
        if flag.load(SeqCst) == 1 {
            return true;
        }
    }
    false
}

/// Takes the turn, and keeps it until the flag `polled` is set; whether it was.
fn hold_a_turn<R: Wait>(
    rt: &R,
    gate: &Gate<Counter>,
    mut seat: Seat<Counter>,
    taken: &AtomicU64,
    polled: &AtomicU64,
) -> (Seat<Counter>, bool)
    requires ours { IsSeatOf gate.now 0 seat }
    ensures ours { IsSeatOf gate.now 0 result.0 }
    ensures fixed { result.0.view.fixed ≡ seat.view.fixed }
{
    let mut counter = gate.turn(rt, &mut seat);
    taken.store(1, SeqCst);
    let met = wait_for(polled);
    let answer = counter.count_for(0);
    gate.publish(&mut seat, &counter, answer.faults());
    gate.give(&mut seat, counter);
    (seat, met)
}

/// Polls once the flag `taken` is set; what was found, and whether it was.
fn poll_meanwhile(
    gate: &Gate<Counter>,
    mut seat: Seat<Counter>,
    taken: &AtomicU64,
    polled: &AtomicU64,
) -> (Seat<Counter>, (u64, u8), bool)
    requires ours { IsSeatOf gate.now 1 seat }
    ensures ours { IsSeatOf gate.now 1 result.0 }
    ensures fixed { result.0.view.fixed ≡ seat.view.fixed }
{
    let met = wait_for(taken);
    let found = gate.poll(&mut seat);
    polled.store(1, SeqCst);
    (seat, found, met)
}

/// What polls find while another thread has the turn, and after it counted once; None where there
/// is no memory or the threads didn't meet.
pub fn poll_beside_a_turn<R: Threads + Wait + Sync>(
    rt: &R,
    alloc: Global,
) -> Option<[(u64, u8); 2]> {
    let counter = Counter::new(alloc, 0);
    let (gate, mut seats) = Gate::new(alloc, counter, &[0, 1]).ok()?;
    let second = seats.pop()?;
    let first = seats.pop()?;
    let taken = AtomicU64::new(0);
    let polled = AtomicU64::new(0);
    let gate_ref = &gate;
    let ((mut first, met_first), (second, found, met_second)) = join(
        rt,
        || hold_a_turn(rt, gate_ref, first, &taken, &polled),
        || poll_meanwhile(gate_ref, second, &taken, &polled),
    );
    let later = watch_once(&gate, &mut first, 0);
    gate.join(&mut first, second);
    if met_first && met_second {
        Some([found, later])
    } else {
        None
    }
}

/// Whether each part's counts are 1, 2, 3 and so on, at least this many.
fn are_in_order(counter: &Counter, parts: u8, count: u32) -> bool {
    for by in 0..parts {
        let mut no = 0u32;
        for tick in counter.ticks() {
            if tick.by == by {
                if tick.no != no.wrapping_add(1) {
                    return false;
                }
                no = tick.no;
            }
        }
        if no < count {
            return false;
        }
    }
    true
}

/// Eight threads count so often each, over a device that fails at each call that the period
/// divides: how many counts there are, and whether each part's are in their order. None where there
/// is no memory.
pub fn count_in_order<R: Threads + Wait + Sync>(
    rt: &R,
    alloc: Global,
    period: u64,
    count: u32,
) -> Option<(usize, bool)> {
    let counter = count_together(rt, alloc, period, &[0, 1, 2, 3, 4, 5, 6, 7], count).ok()?;
    Some((counter.ticks().len(), are_in_order(&counter, 8, count)))
}
