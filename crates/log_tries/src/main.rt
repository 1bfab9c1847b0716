//! Rows over bytes of records, states, events and folds, and over a master's list on a disk in memory: what it answers,
//! and what it is revived to where an add is stopped, or fails, at one of its calls, within a switch of its halves too.
//! It prints what each gave, and `stdout` is the table of what must be given. Standard input has the rows of bytes.
//! Given a number it adds so many campaigns to a list instead, for `bench/list.sh`.
//!
//! Layer: at the top of the disks and codecs; nothing stands on it.
#![tactic(auto)]

mod byte_rows;
mod codec_rows;
mod list_rows;
mod long_list;
mod switch_rows;
mod tries;

use std::{env, io};
use ucm_ports::StdSource;

fn main(rt: HostRuntime) -> io::Result<()> {
    let mut campaigns = None;
    for word in env::args(&rt)?.skip(1) {
        campaigns = word.parse::<u32>().ok();
    }
    if let Some(campaigns) = campaigns {
        return long_list::print(&rt, campaigns);
    }
    let mut source = StdSource::new(rt.stdin());
    byte_rows::print(&rt, &mut source)?;
    list_rows::print(&rt)?;
    switch_rows::print(&rt)
}
