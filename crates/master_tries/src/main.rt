//! Rows over a shared list of the master: one thread adds a script of twelve events while another polls, over disks in
//! memory that stop or fail at each of the script's calls. Each reply and each poll is compared with the list that the
//! gate hands back. It prints what each gave, and `stdout` is the table of what must be given.
//!
//! Layer: at the top of the master's gate; nothing stands on it.
#![tactic(auto)]

mod compare;
mod fresh;
mod rows;
mod script;
mod threads;

use std::io;

fn main(rt: HostRuntime) -> io::Result<()> {
    rows::print(&rt)
}
