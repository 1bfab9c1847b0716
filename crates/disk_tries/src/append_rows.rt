//! The table of appends. A record takes five bytes and its payload, and one byte must remain for the next gate.
ghost use Rattle.std.specs.Prelude.{◌<◌};

use crate::mishap::Mishap;
use crate::tries::{Tried, TryError, try_append, try_three};
use disk_core::FailKind;
use std::alloc::Global;
use std::io;

/// An append makes two writes, two syncs and no read, and a list one read: a third or a second one isn't there to fail.
const MISHAPS: [Mishap; 11] = [
    Mishap::Stop { write: 2, keep: 0 },
    Mishap::Stop { write: 2, keep: 1 },
    Mishap::Stop { write: 2, keep: 2 },
    Mishap::Fail {
        kind: FailKind::Write,
        call: 1,
    },
    Mishap::Fail {
        kind: FailKind::Sync,
        call: 1,
    },
    Mishap::Fail {
        kind: FailKind::Write,
        call: 2,
    },
    Mishap::Fail {
        kind: FailKind::Sync,
        call: 2,
    },
    Mishap::Fail {
        kind: FailKind::Write,
        call: 3,
    },
    Mishap::Fail {
        kind: FailKind::Sync,
        call: 3,
    },
    Mishap::Fail {
        kind: FailKind::Read,
        call: 1,
    },
    Mishap::Fail {
        kind: FailKind::Read,
        call: 2,
    },
];

/// Stopped at its first write, whatever is kept, an append leaves the list; at its second it adds the record just where
/// the gate byte is kept. A failure leaves the list before or with it.
pub fn print<R: Print + AllocGlobal>(rt: &R) -> io::Result<()> {
    println!(rt; "in an area of 64 bytes, behind a record of 20 bytes, one of 33:")?;
    for keep in 0..=40 {
        print_append(rt, 64, Mishap::Stop { write: 1, keep })?;
    }
    for mishap in MISHAPS {
        print_append(rt, 64, mishap)?;
    }
    println!(rt; "in an area of 63 bytes:")?;
    print_append(rt, 63, Mishap::Nothing)?;
    println!(rt; "behind both an empty record, in areas of 64 and 69 bytes:")?;
    print_third(rt, 64)?;
    print_third(rt, 69)
}

fn print_append<R: Print + AllocGlobal>(rt: &R, len: u64, mishap: Mishap) -> io::Result<()>
    requires { 0 < len }
{
    let left = append_under(rt.alloc(), len, mishap);
    println!(rt; "{mishap:?}: {left:?}")
}

fn print_third<R: Print + AllocGlobal>(rt: &R, len: u64) -> io::Result<()>
    requires { 0 < len }
{
    let ended = try_three(rt.alloc(), len, &[7; 20], &[8; 33], &[]);
    println!(rt; "{ended:?}")
}

fn append_under(alloc: Global, len: u64, mishap: Mishap) -> Result<Tried, TryError>
    requires { 0 < len }
{
    let plan = mishap.plan(alloc)?;
    try_append(alloc, len, &plan, &[7; 20], &[8; 33])
}
