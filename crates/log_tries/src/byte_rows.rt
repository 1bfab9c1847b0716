//! The rows of bytes: lines that were made by hand from the format, each a kind and bytes in hexadecimal.
use crate::codec_rows::{Kind, Read, read_as};
use std::alloc::{AllocError, Global};
use std::io;
use ucm_ports::{Source, read_all};
use ucm_text::{bytes_of_hex, cut_at, words_of};

/// The most bytes of all lines.
const LIMIT: usize = 65_536;

/// Prints how the bytes of each line are read.
pub fn print<R: Print + AllocGlobal, S: Source>(rt: &R, source: &mut S) -> io::Result<()> {
    let Ok(text) = read_all(rt.alloc(), source, LIMIT) else {
        return println!(rt; "no text");
    };
    let Ok(lines) = cut_at(rt.alloc(), text.as_slice(), b'\n') else {
        return println!(rt; "no lines");
    };
    for line in lines.as_slice() {
        if !line.is_empty() {
            let read = read_line(rt.alloc(), line);
            println!(rt; "{read:?}")?;
        }
    }
    Ok(())
}

/// How the bytes of a line are read, if it is one.
fn read_line(alloc: Global, line: &[u8]) -> Result<Option<Read>, AllocError> {
    let words = words_of(alloc, line)?;
    let [word, digits] = words.as_slice() else {
        return Ok(None);
    };
    let Some(kind) = kind_of(word) else {
        return Ok(None);
    };
    let Some(bytes) = bytes_of_hex(alloc, digits)? else {
        return Ok(None);
    };
    let read = read_as(alloc, kind, bytes.as_slice())?;
    Ok(Some(read))
}

fn kind_of(word: &[u8]) -> Option<Kind> {
    if word == b"record".as_slice() {
        Some(Kind::Record)
    } else if word == b"state".as_slice() {
        Some(Kind::State)
    } else if word == b"event".as_slice() {
        Some(Kind::Event)
    } else if word == b"fold".as_slice() {
        Some(Kind::Fold)
    } else {
        None
    }
}
