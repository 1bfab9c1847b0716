//! The rows of reports.

use crate::codes::{at, node};
use crate::lists::{Brought, Lists, bring, named, shown};
use report::print_report;
use std::alloc::{AllocError, Global};
use std::{io, str};
use ucm_ports::{Source, read_all};
use ucm_text::{bytes_of_hex, cut_at, number_of, words_of};

/// The most bytes of all lines.
const LIMIT: usize = 65_536;

/// The numbers of a line, behind its first word.
fn numbers(alloc: Global, words: &[&[u8]]) -> Result<Vec<u64>, AllocError> {
    let mut numbers = Vec::new(alloc);
    for word in words {
        numbers.push(number_of(word).unwrap_or(0))?;
    }
    Ok(numbers)
}

/// Adds what a line says, if it says anything.
fn add(
    alloc: Global,
    lists: &mut Lists,
    brought: &mut Vec<Brought>,
    word: &[u8],
    numbers: &[u64],
) -> Option<()> {
    if word == b"campaign".as_slice() {
        lists.begin(numbers)
    } else if word == b"opening".as_slice() {
        lists.open(alloc, numbers)
    } else if word == b"named".as_slice() {
        brought.push(bring(alloc, numbers)?).ok()
    } else if word == b"event".as_slice() {
        lists.happen(numbers, 0)
    } else if word == b"later".as_slice() {
        lists.happen(numbers, 1)
    } else if word == b"node".as_slice() {
        lists.go_on(alloc, node(at(numbers, 0)))
    } else if word == b"entry".as_slice() {
        lists.enter(alloc, numbers)
    } else if word == b"unit".as_slice() {
        lists.work(numbers)
    } else if word == b"left".as_slice() {
        lists.leave(numbers)
    } else if word == b"line".as_slice() {
        lists.answer(alloc, numbers)
    } else {
        None
    }
}

/// Prints a report.
fn show<R: Print + AllocGlobal>(rt: &R, mut lists: Lists, brought: &[Brought]) -> io::Result<()> {
    let alloc = rt.alloc();
    let Some(()) = lists.go_on(alloc, None) else {
        return println!(rt; "no memory");
    };
    let Ok(named) = named(alloc, brought) else {
        return println!(rt; "no memory");
    };
    let shown = shown(lists, named);
    if !shown.is_shown() {
        return println!(rt; "in another order");
    }
    for full in [false, true] {
        let Ok(report) = print_report(alloc, &shown, full) else {
            return println!(rt; "no memory");
        };
        let Ok(text) = str::from_utf8(report.as_slice()) else {
            return println!(rt; "no text");
        };
        print!(rt; "{text}")?;
    }
    Ok(())
}

/// Reads a line: `print` prints the lists and begins new ones, `block` keeps the bytes that it spells, and other lines
/// add to the lists.
fn take<R: Print + AllocGlobal>(
    rt: &R,
    lists: &mut Lists,
    brought: &mut Vec<Brought>,
    words: &[&[u8]],
) -> io::Result<()> {
    let alloc = rt.alloc();
    let [word, more @ ..] = words else {
        return Ok(());
    };
    if *word == b"print".as_slice() {
        let whole = std::mem::replace(lists, Lists::new(alloc));
        show(rt, whole, brought.as_slice())?;
        brought.clear();
        return Ok(());
    }
    if let (true, [digits]) = (*word == b"block".as_slice(), more) {
        if let Ok(Some(bytes)) = bytes_of_hex(alloc, digits) {
            lists.kept = bytes;
        }
        return Ok(());
    }
    let Ok(numbers) = numbers(alloc, more) else {
        return println!(rt; "no memory");
    };
    if add(alloc, lists, brought, word, numbers.as_slice()).is_none() {
        println!(rt; "no row")?;
    }
    Ok(())
}

/// Prints the reports of the rows.
pub fn print<R: Print + AllocGlobal, S: Source>(rt: &R, source: &mut S) -> io::Result<()> {
    let alloc = rt.alloc();
    let Ok(text) = read_all(alloc, source, LIMIT) else {
        return println!(rt; "no text");
    };
    let Ok(lines) = cut_at(alloc, text.as_slice(), b'\n') else {
        return println!(rt; "no lines");
    };
    let mut lists = Lists::new(alloc);
    let mut brought = Vec::new(alloc);
    for line in lines.as_slice() {
        let Ok(words) = words_of(alloc, line) else {
            return println!(rt; "no words");
        };
        if !line.is_empty() {
            take(rt, &mut lists, &mut brought, words.as_slice())?;
        }
    }
    Ok(())
}
