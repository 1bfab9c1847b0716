//! Rows of reports. Each line of the input adds to the lists of a run, by the numbers that calls, replies, events and
//! refusals have in records, and `block <hex>` spells the bytes that a call's byte above 255 stands for; a line `print`
//! prints the report of the lists, short and full, where they stand in their order, and begins new ones. `report_bench N` builds the lists of a report of N lines and prints the microseconds of
//! its printing and its bytes, for `bench/report.sh`; `report_bench N lists` only builds the lists.
//!
//! Layer: stands on `report`; nothing stands on it. It promises no time.
#![tactic(auto)]

mod answers;
mod codes;
mod events;
mod lists;
mod rows;
mod times;

use std::{env, io};
use ucm_ports::StdSource;

fn main(rt: HostRuntime) -> io::Result<()> {
    let mut count = 0u64;
    let mut is_printed = true;
    for word in env::args(&rt)?.skip(1) {
        match word.as_str().parse::<u64>() {
            Ok(number) => count = number,
            Err(_) => is_printed = false,
        }
    }
    if count > 0 {
        let took = times::print(&rt, rt.alloc(), count, is_printed);
        return println!(rt; "{took:?}");
    }
    let mut source = StdSource::new(rt.stdin());
    rows::print(&rt, &mut source)
}
