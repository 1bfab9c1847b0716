//! Counting behind a gate, by one seat and by threads.
ghost use Rattle.std.specs.Prelude.{◌≡◌, ◌+◌, ◌<◌, ◌≤◌, IfOk, length, vec_capacity, vec_len, None, Some};
ghost use mathlib.Core.List.{IsPrefix};
ghost use Rattle.gate_counter.specs.Seats.{IsSeatOf, AreSeatsOf};
ghost use Rattle.gate_counter.specs.Counters.{account_of};
ghost use Rattle.gate_counter.specs.Rises.{IsTrueOf, rise_of};
ghost use Rattle.gate_counter.specs.Ticks.{tells};
ghost use Rattle.turn_gate.specs.Parts.{AllDiffer, TellsOnly};
ghost use Rattle.turn_gate.specs.Seats.{fixed_in};
ghost use denote.Param.Send.{IsSync};

use crate::counter::Counter;
use crate::tick::Answer;
use std::alloc::{AllocError, Global};
use std::sync::Wait;
use std::thread::{Threads, join};
use turn_gate::{Gate, Seat, Seats};

/// One turn: counts once for the seat's part.
pub fn count_once<R: Wait>(rt: &R, gate: &Gate<Counter>, seat: &mut Seat<Counter>, by: u8) -> Answer
    requires ours { IsSeatOf gate.now by seat.old }
    ensures ours { IsSeatOf gate.now by seat.new }
    ensures fixed { seat.new.view.fixed ≡ seat.old.view.fixed }
    ensures goes_on { IsPrefix seat.old.view.seen seat.new.view.seen }
    ensures rises { seat.new.view.rises ≡ seat.old.view.rises + rise_of result }
    ensures answer { IsTrueOf by result seat.new.view.seen }
{
    let mut counter = gate.turn(rt, seat);
    let answer = counter.count_for(by);
    gate.publish(seat, &counter, answer.faults());
    gate.give(seat, counter);
    answer
}

/// A second seat without a part, that polls once, is joined to the first again.
pub fn watch_once(gate: &Gate<Counter>, seat: &mut Seat<Counter>, by: u8) -> (u64, u8)
    requires ours { IsSeatOf gate.now by seat.old }
    ensures ours { IsSeatOf gate.now by seat.new }
    ensures fixed { seat.new.view.fixed ≡ seat.old.view.fixed }
    ensures not_before { length seat.old.view.seen ≤ result.0 }
{
    let mut watcher = gate.split(seat, None);
    let polled = gate.poll(&mut watcher);
    gate.join(seat, watcher);
    polled
}

/// Counts until this many counts were answered, or there is no memory.
pub fn count_all<R: Wait>(
    rt: &R,
    gate: &Gate<Counter>,
    mut seat: Seat<Counter>,
    by: u8,
    count: u32,
) -> Seat<Counter>
    requires ours { IsSeatOf gate.now by seat }
    ensures ours { IsSeatOf gate.now by result }
    ensures fixed { result.view.fixed ≡ seat.view.fixed }
{
    let mut counted = 0;
    for _ in rt.forever() {
        if counted >= count {
            break;
        }
        match count_once(rt, gate, &mut seat, by) {
            Answer::Counted => counted += 1,
            Answer::NoReply { .. } => {}
            Answer::OutOfMemory => break,
        }
    }
    seat
}

/// Each part counts in a thread of its own, by the seats in the order of the parts.
pub fn count_beside<R: Threads + Wait + Sync>(
    rt: &R,
    gate: &Gate<Counter>,
    mut seats: Seats<Counter>,
    parts: &[u8],
    count: u32,
) -> Seats<Counter>
    requires ours { AreSeatsOf gate.now parts.now seats.items }
    ensures ours { AreSeatsOf gate.now parts.now result.items }
    ensures fixed { fixed_in result.items ≡ fixed_in seats.items }
    ensures room { vec_capacity result ≡ vec_capacity seats }
    ensures as_many { vec_len result ≡ vec_len seats }
{
    let Some(seat) = seats.pop() else {
        return seats;
    };
    let Some((by, before)) = parts.split_last() else {
        return seats;
    };
    let by = *by;
    let (seat, mut seats) = join(
        rt,
        move || -> Seat<Counter>
            requires { IsSeatOf gate.now by seat }
            ensures { IsSeatOf gate.entry.now by result × (result.view.fixed ≡ seat.view.fixed) }
        { count_all(rt, gate, seat, by, count) },
        move || -> Seats<Counter>
            requires { IsSync R.row × AreSeatsOf gate.now before.now seats.items }
            ensures { AreSeatsOf gate.entry.now before.entry.now result.items
                × (fixed_in result.items ≡ fixed_in seats.items)
                × (vec_capacity result ≡ vec_capacity seats) × (vec_len result ≡ vec_len seats) }
        { count_beside(rt, gate, seats, before, count) },
    );
    seats.push_reserved(seat);
    seats
}

/// Makes a gate with a counter, lets each part count in a thread of its own, and closes the gate.
pub fn count_together<R: Threads + Wait + Sync>(
    rt: &R,
    alloc: Global,
    period: u64,
    parts: &[u8],
    count: u32,
) -> Result<Counter, AllocError>
    requires some_part { 0 < length parts.now }
    requires parts_differ { AllDiffer parts.now }
    ensures only_they { IfOk result (λ counter. TellsOnly tells parts.now (account_of counter)) }
{
    let counter = Counter::new(alloc, period);
    match Gate::new(alloc, counter, parts) {
        Ok((gate, seats)) => {
            let seats = count_beside(rt, &gate, seats, parts, count);
            Ok(gate.close(seats))
        }
        Err((counter, e)) => {
            drop(counter);
            Err(e)
        }
    }
}
