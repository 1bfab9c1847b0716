//! How long a report takes.

use crate::lists::{Lists, named, shown};
use report::print_report;
use std::alloc::Global;
use std::time::{Clock, Instant};

/// The lists of a report of so many lines: a node's calls that bring blocks, and its units.
fn lists(alloc: Global, count: u64) -> Option<Lists> {
    let mut lists = Lists::new(alloc);
    lists.begin(&[7, 0, 0])?;
    lists.happen(&[0, 1], 0)?;
    lists.go_on(alloc, crate::codes::node(1))?;
    for number in 1..count {
        if number % 2 == 0 {
            lists.work(&[1, 1])?;
        } else {
            lists.enter(alloc, &[0, 1, number, 2, 1, number, 64, 97, 0, 0, 0])?;
        }
    }
    lists.go_on(alloc, None)?;
    Some(lists)
}

/// The microseconds in which a report of so many lines is printed, and its bytes.
pub fn print<R: Clock>(
    rt: &R,
    alloc: Global,
    count: u64,
    is_printed: bool,
) -> Option<(u128, usize)> {
    let shown = shown(lists(alloc, count)?, named(alloc, &[]).ok()?);
    if !is_printed || !shown.is_shown() {
        return None;
    }
    let start = Instant::now(rt).ok()?;
    let report = print_report(alloc, &shown, true).ok()?;
    let took = start.elapsed(rt).ok()?.as_micros();
    Some((took, report.len()))
}
