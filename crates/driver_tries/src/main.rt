//! Shows what drivers and workers do. Without words it prints tables: a driver whose Sync is missed, what the end phase
//! does with each status, answers of other kinds, refusals and deletions at the end, whose numbers end, whether two workers
//! meet, and what nodes in memory did under drivers.
//! `driver_tries blocks N` prints the nanoseconds of `next` and `on` for the first blocks of a package and for those
//! behind the N-th; `driver_tries round N` the microseconds of a round over N workers whose nodes wait; `driver_tries
//! transfer N` those in which N workers transfer one package of 16 MB.
//!
//! Layer: stands on `sub_workers`, `node_core` and `report`; nothing stands on it. It promises no time.
#![tactic(auto)]

mod answer_rows;
mod campaigns;
mod findings;
mod linked;
mod meeting;
mod node;
mod node_rows;
mod packing;
mod tables;
mod times;

use anyhow::Result;
use std::env;

/// What is timed.
#[derive(Clone, Copy)]
enum Timed {
    Blocks,
    Round,
    Transfer,
}

fn main(rt: HostRuntime) -> Result<()> {
    let mut timed = Timed::Blocks;
    let mut count = 0u32;
    for word in env::args(&rt)?.skip(1) {
        match word.as_str().parse::<u32>() {
            Ok(number) => count = number,
            Err(_) if word.as_str() == "round" => timed = Timed::Round,
            Err(_) if word.as_str() == "transfer" => timed = Timed::Transfer,
            Err(_) => timed = Timed::Blocks,
        }
    }
    if count == 0 {
        tables::print(&rt, rt.alloc())?;
        answer_rows::print(&rt, rt.alloc())?;
        let met = meeting::meet(&rt, rt.alloc());
        println!(rt; "calls of a round and its end in which two workers met: {met:?}")?;
        return node_rows::print(&rt, rt.alloc());
    }
    match timed {
        Timed::Blocks => {
            let took = times::blocks(&rt, rt.alloc(), count);
            println!(rt; "next and on, nanoseconds and the last block: {took:?}")?;
        }
        Timed::Round => {
            let took = times::round(&rt, rt.alloc(), count, [100, 100]);
            println!(rt; "a round over {count} workers, 100 ms each: {took:?} us")?;
            let took = times::round(&rt, rt.alloc(), count, [100, 300]);
            println!(rt; "a round over {count} workers, of which one takes 300 ms: {took:?} us")?;
        }
        Timed::Transfer => {
            let took = times::transfer(&rt, rt.alloc(), count, 16_000_000);
            println!(rt; "a transfer of one package by {count} workers: {took:?} us")?;
        }
    }
    Ok(())
}
