//! How long a script takes to read.

use std::alloc::Global;
use std::io;
use std::time::{Clock, Instant};
use ucm_ports::{Source, read_all};

/// The most bytes of a script.
const LIMIT: usize = 67_108_864;

/// How many lines of clients and of fates a script of a run has.
fn of_run(alloc: Global, input: &[u8]) -> Option<(usize, usize)> {
    let script = run_script::read_script(alloc, input).ok()?;
    let clients = script.lines.clients.as_slice().len();
    let fates = script.lines.fates.as_slice().len();
    Some((clients, fates))
}

/// How many lines of clients a script for `replay` has.
fn of_replay(alloc: Global, input: &[u8]) -> Option<(usize, usize)> {
    let script = scenario::read_script(alloc, input, scenario::Command::Replay).ok()?;
    Some((script.events.as_slice().len(), 0))
}

/// Prints in how many microseconds a script is read, how many lines of clients and fates it has, and its bytes.
pub fn print<R: Print + AllocGlobal + Clock, S: Source>(
    rt: &R,
    source: &mut S,
    is_replay: bool,
) -> io::Result<()> {
    let alloc = rt.alloc();
    let Ok(input) = read_all(alloc, source, LIMIT) else {
        return println!(rt; "no text");
    };
    let start = Instant::now(rt)?;
    let read = if is_replay {
        of_replay(alloc, input.as_slice())
    } else {
        of_run(alloc, input.as_slice())
    };
    let took = start.elapsed(rt)?.as_micros();
    let bytes = input.len();
    match read {
        Some((clients, fates)) => println!(rt; "{took} {clients} {fates} {bytes}"),
        None => println!(rt; "no script"),
    }
}
