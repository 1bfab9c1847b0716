//! The rows.
use crate::show::{show_mishaps, show_script};
use recipe::{Kind, PackError, pack};
use run_script::{ScriptError, read_script};
use std::alloc::{AllocError, Global};
use std::{io, str};
use ucm_ports::{Source, read_all};
use ucm_text::{bytes_of_hex, cut_at, number_of};

/// The most bytes of all rows.
const LIMIT: usize = 1_048_576;

/// What is printed of a script.
#[derive(Clone, Copy)]
enum Seen {
    Whole,
    Mishaps,
}

/// Prints what is read of each row.
pub fn print<R: Print + AllocGlobal, S: Source>(rt: &R, source: &mut S) -> io::Result<()> {
    let alloc = rt.alloc();
    let Ok(text) = read_all(alloc, source, LIMIT) else {
        return println!(rt; "no text");
    };
    let Ok(rows) = cut_at(alloc, text.as_slice(), b'\n') else {
        return println!(rt; "no rows");
    };
    let mut base = Vec::new(alloc);
    let mut behind = Vec::new(alloc);
    for row in rows.as_slice() {
        let (word, lines) = first_word(row);
        if word == b"recipe".as_slice() {
            base = ended(alloc, b"", lines).unwrap_or(Vec::new(alloc));
            print_packed(rt, lines, base.as_slice(), Seen::Whole)?;
        } else if word == b"with".as_slice() {
            print_with(rt, base.as_slice(), lines, Seen::Whole)?;
        } else if word == b"each".as_slice() {
            print_each(rt, base.as_slice(), lines)?;
        } else if word == b"many".as_slice() {
            print_many(rt, lines)?;
        } else if word == b"behind".as_slice() {
            behind = bytes_in(alloc, lines);
        } else if word == b"text".as_slice() {
            print_text(rt, lines, behind.as_slice())?;
        } else if word == b"bytes".as_slice() {
            print_read(rt, lines, bytes_in(alloc, lines).as_slice(), Seen::Whole)?;
        }
    }
    Ok(())
}

/// The first word of a row, and what stands behind its blank.
fn first_word(row: &[u8]) -> (&[u8], &[u8]) {
    for place in 0..row.len() {
        if row[place] == b' ' {
            return (&row[..place], &row[place + 1..]);
        }
    }
    (row, b"")
}

/// The bytes that digits spell; none, where they are out of form.
fn bytes_in(alloc: Global, digits: &[u8]) -> Vec<u8> {
    match bytes_of_hex(alloc, digits) {
        Ok(Some(bytes)) => bytes,
        _ => Vec::new(alloc),
    }
}

/// Lines, and behind them those of a row, each with its line feed.
fn ended(alloc: Global, above: &[u8], lines: &[u8]) -> Result<Vec<u8>, AllocError> {
    let mut text = Vec::from_slice(alloc, above)?;
    for b in lines {
        text.push(if *b == b'|' { b'\n' } else { *b })?;
    }
    text.push(b'\n')?;
    Ok(text)
}

/// A row's lines with a number in place of each `%`.
fn numbered(alloc: Global, lines: &[u8], number: u64) -> Result<Vec<u8>, AllocError> {
    let digits = format!(in alloc; "{number}")?;
    let mut text = Vec::new(alloc);
    for b in lines {
        if *b == b'%' {
            text.extend_from_slice(digits.as_bytes())?;
        } else {
            text.push(*b)?;
        }
    }
    Ok(text)
}

/// A number, and the lines behind it.
fn counted(row: &[u8]) -> (u64, &[u8]) {
    let (count, lines) = first_word(row);
    (number_of(count).unwrap_or(0), lines)
}

/// Prints what is read of the recipe with these lines behind its own.
fn print_with<R: Print + AllocGlobal>(
    rt: &R,
    base: &[u8],
    lines: &[u8],
    seen: Seen,
) -> io::Result<()> {
    match ended(rt.alloc(), base, lines) {
        Ok(recipe) => print_packed(rt, lines, recipe.as_slice(), seen),
        Err(_) => println!(rt; "no memory"),
    }
}

/// Prints the same for each number up to one.
fn print_each<R: Print + AllocGlobal>(rt: &R, base: &[u8], row: &[u8]) -> io::Result<()> {
    let (count, lines) = counted(row);
    for k in 0..count {
        match numbered(rt.alloc(), lines, k + 1) {
            Ok(lines) => print_with(rt, base, lines.as_slice(), Seen::Mishaps)?,
            Err(_) => println!(rt; "no memory")?,
        }
    }
    Ok(())
}

/// Prints what is read of a script of a line for each number, the highest first.
fn print_many<R: Print + AllocGlobal>(rt: &R, row: &[u8]) -> io::Result<()> {
    let (count, line) = counted(row);
    match many(rt.alloc(), count, line) {
        Ok(text) => print_read(rt, row, text.as_slice(), Seen::Whole),
        Err(_) => println!(rt; "no memory"),
    }
}

fn many(alloc: Global, count: u64, line: &[u8]) -> Result<Vec<u8>, AllocError> {
    let mut text = Vec::new(alloc);
    for k in 0..count {
        let line = numbered(alloc, line, count - k)?;
        text.extend_from_slice(line.as_slice())?;
        text.push(b'\n')?;
    }
    Ok(text)
}

/// Prints what is read of lines with these bytes behind them.
fn print_text<R: Print + AllocGlobal>(rt: &R, lines: &[u8], behind: &[u8]) -> io::Result<()> {
    let Ok(mut text) = ended(rt.alloc(), b"", lines) else {
        return println!(rt; "no memory");
    };
    match text.extend_from_slice(behind) {
        Ok(()) => print_read(rt, lines, text.as_slice(), Seen::Whole),
        Err(_) => println!(rt; "no memory"),
    }
}

/// Prints what is read of the script that a recipe makes.
fn print_packed<R: Print + AllocGlobal>(
    rt: &R,
    row: &[u8],
    recipe: &[u8],
    seen: Seen,
) -> io::Result<()> {
    match pack(rt.alloc(), recipe, Kind::Script) {
        Ok(script) => print_read(rt, row, script.as_slice(), seen),
        Err(PackError::Refused { line, why }) => println!(rt; "not packed: line {line} {why}"),
        Err(PackError::OutOfMemory) => println!(rt; "no memory"),
    }
}

/// Prints a row, and what is read of its script.
fn print_read<R: Print + AllocGlobal>(
    rt: &R,
    row: &[u8],
    script: &[u8],
    seen: Seen,
) -> io::Result<()> {
    let row = str::from_utf8(row).unwrap_or("?");
    match (read_script(rt.alloc(), script), seen) {
        (Ok(script), Seen::Whole) => {
            println!(rt; "{row} =>")?;
            show_script(rt, &script)
        }
        (Ok(script), Seen::Mishaps) => {
            println!(rt; "{row} =>")?;
            show_mishaps(rt, &script.lines)
        }
        (Err(ScriptError::Refused(refusal)), _) => println!(rt; "{row} => {refusal}"),
        (Err(ScriptError::OutOfMemory), _) => println!(rt; "no memory"),
    }
}
