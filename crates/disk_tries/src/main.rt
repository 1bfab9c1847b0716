//! Tries over a disk in memory: appends, switches of halves, a log of tallies and torn pages, each stopped, or failing,
//! at each of its calls. It prints what each left, and `stdout` is the table of what must be left. Given a number it
//! appends so many records of 20 bytes to a half instead, for `bench/journal.sh`.
//!
//! Layer: at the top of the disks; nothing stands on it.
#![tactic(auto)]

mod append_rows;
mod long_journal;
mod mishap;
mod note_rows;
mod switch_rows;
mod tally;
mod tally_log;
mod tally_start;
mod tally_tries;
mod tear_rows;
mod tries;
mod turns;

use std::{env, io};

fn main(rt: HostRuntime) -> io::Result<()> {
    let mut count = None;
    for word in env::args(&rt)?.skip(1) {
        count = word.parse::<u64>().ok();
    }
    if let Some(count) = count {
        return long_journal::print(&rt, count);
    }
    append_rows::print(&rt)?;
    long_journal::print(&rt, 1_000)?;
    switch_rows::print(&rt)?;
    note_rows::print(&rt)?;
    tear_rows::print(&rt)
}
