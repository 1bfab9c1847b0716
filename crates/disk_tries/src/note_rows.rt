//! The table of a log of tallies. A half takes two notes of 900,000 bytes, and a third one switches: it prepares the
//! other half, opens it, writes the record and its gate, in four writes and four syncs.

use crate::mishap::Mishap;
use crate::tally_tries::{NoteError, NoteTried, try_third_note};
use disk_core::FailKind;
use disk_mem::Tear;
use std::alloc::Global;
use std::io;

/// Formatting and the two notes before make six writes and seven syncs.
const FAILS: [(FailKind, u64); 9] = [
    (FailKind::Write, 7),
    (FailKind::Sync, 8),
    (FailKind::Write, 8),
    (FailKind::Sync, 9),
    (FailKind::Write, 9),
    (FailKind::Sync, 10),
    (FailKind::Write, 10),
    (FailKind::Sync, 11),
    (FailKind::Write, 11),
];

/// The gates alone are one byte long, so keeping it decides.
const STOPS: [(Tear, u64, u64); 9] = [
    (Tear::Keep, 7, 100),
    (Tear::Keep, 8, 0),
    (Tear::Keep, 8, 1),
    (Tear::Old, 8, 1),
    (Tear::Ones, 8, 0),
    (Tear::Ones, 9, 0),
    (Tear::Keep, 10, 0),
    (Tear::Old, 10, 1),
    (Tear::Ones, 10, 0),
];

/// What a revive says is what is read again, and where the switch failed the note is lost.
pub fn print<R: Print + AllocGlobal>(rt: &R) -> io::Result<()> {
    println!(rt; "a third note of 900000 bytes:")?;
    for (kind, call) in FAILS {
        print_note(rt, Tear::Keep, Mishap::Fail { kind, call })?;
    }
    for (tear, write, keep) in STOPS {
        print_note(rt, tear, Mishap::Stop { write, keep })?;
    }
    Ok(())
}

fn print_note<R: Print + AllocGlobal>(rt: &R, tear: Tear, mishap: Mishap) -> io::Result<()> {
    let left = note_under(rt.alloc(), tear, mishap);
    println!(rt; "{tear:?}, {mishap:?}: {left:?}")
}

fn note_under(alloc: Global, tear: Tear, mishap: Mishap) -> Result<NoteTried, NoteError> {
    let plan = mishap.plan(alloc)?;
    try_third_note(alloc, tear, &plan)
}
