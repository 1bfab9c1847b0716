//! Times turns on one gate. `gate_bench THREADS TURNS`, with 1, 2, 4 or 8 threads that make so many
//! turns each, prints the microseconds that they took. Without words it shows what threads do behind
//! a gate, and times none.
//!
//! Layer: stands on `gate_counter`; nothing stands on it. It promises no time.
#![tactic(auto)]

mod tries;

use gate_counter::{Counter, count_together};
use std::alloc::{AllocError, Global};
use std::sync::Wait;
use std::thread::Threads;
use std::time::Instant;
use std::{env, io};

fn count<R: Threads + Wait + Sync>(
    rt: &R,
    alloc: Global,
    threads: u32,
    turns: u32,
) -> Result<Counter, AllocError> {
    match threads {
        1 => count_together(rt, alloc, 0, &[0], turns),
        2 => count_together(rt, alloc, 0, &[0, 1], turns),
        4 => count_together(rt, alloc, 0, &[0, 1, 2, 3], turns),
        _ => count_together(rt, alloc, 0, &[0, 1, 2, 3, 4, 5, 6, 7], turns),
    }
}

fn main(rt: HostRuntime) -> io::Result<()> {
    let mut numbers = [8u32, 100];
    let mut given = 0;
    for (i, word) in env::args(&rt)?.skip(1).enumerate() {
        if let Ok(number) = word.parse::<u32>() {
            if i < 2 {
                numbers[i] = number;
                given = i + 1;
            }
        }
    }
    if given < 2 {
        let polls = tries::poll_beside_a_turn(&rt, rt.alloc());
        println!(rt; "polls beside a turn and after it: {polls:?}")?;
        let counts = tries::count_in_order(&rt, rt.alloc(), 0, 100);
        println!(rt; "counts of 8 threads, and whether in order: {counts:?}")?;
        let is_in_order = tries::count_in_order(&rt, rt.alloc(), 7, 100).map(|found| found.1);
        return println!(rt; "over a device that fails, whether in order: {is_in_order:?}");
    }
    let [threads, turns] = numbers;
    let start = Instant::now(&rt)?;
    let Ok(counter) = count(&rt, rt.alloc(), threads, turns) else {
        return println!(rt; "no memory");
    };
    let took = start.elapsed(&rt)?.as_micros();
    let counted = counter.ticks().len();
    println!(rt; "{threads} threads, {turns} turns each: {counted} counts in {took} us")
}
