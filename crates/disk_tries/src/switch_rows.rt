//! The table of switches. The generation, the length and the state of a body are 17 bytes here.
ghost use Rattle.std.specs.Prelude.{◌<◌};

use crate::mishap::Mishap;
use crate::tries::TryError;
use crate::turns::{Turned, try_second, try_third};
use disk_core::FailKind;
use std::alloc::Global;
use std::io;

/// A switch to a half whose gate is open closes the gate, writes the body and opens the gate.
const STOPS: [(u64, u64); 9] = [
    (1, 0),
    (1, 1),
    (2, 0),
    (2, 8),
    (2, 13),
    (2, 2_000_000),
    (3, 0),
    (3, 1),
    (4, 0),
];

/// Before a switch the other half is read, in two reads; it makes one read, three writes and three syncs, of which to
/// prepare takes five calls and to open two, and no more are there to fail.
const FAILS: [(FailKind, u64); 11] = [
    (FailKind::Read, 2),
    (FailKind::Read, 3),
    (FailKind::Write, 1),
    (FailKind::Sync, 1),
    (FailKind::Write, 2),
    (FailKind::Sync, 2),
    (FailKind::Write, 3),
    (FailKind::Sync, 3),
    (FailKind::Write, 4),
    (FailKind::Sync, 4),
    (FailKind::Read, 8),
];

/// Until the gate is open again the other half, of generation 2, counts.
pub fn print<R: Print + AllocGlobal>(rt: &R) -> io::Result<()> {
    println!(rt; "a switch back to half 2, from generation 2 to 3:")?;
    for (write, keep) in STOPS {
        print_third(rt, 2, Mishap::Stop { write, keep })?;
    }
    println!(rt; "the same with half 0:")?;
    for (kind, call) in FAILS {
        print_third(rt, 0, Mishap::Fail { kind, call })?;
    }
    println!(rt; "where its gate isn't open, with a write and a sync fewer:")?;
    print_second(
        rt,
        Mishap::Fail {
            kind: FailKind::Write,
            call: 3,
        },
    )?;
    print_second(
        rt,
        Mishap::Fail {
            kind: FailKind::Sync,
            call: 3,
        },
    )
}

fn print_third<R: Print + AllocGlobal>(rt: &R, half: u8, mishap: Mishap) -> io::Result<()>
    requires { half < 4 }
{
    let left = third_under(rt.alloc(), half, mishap);
    println!(rt; "{mishap:?}: {left:?}")
}

fn print_second<R: Print + AllocGlobal>(rt: &R, mishap: Mishap) -> io::Result<()> {
    let left = second_under(rt.alloc(), mishap);
    println!(rt; "{mishap:?}: {left:?}")
}

fn third_under(alloc: Global, half: u8, mishap: Mishap) -> Result<Turned, TryError>
    requires { half < 4 }
{
    let plan = mishap.plan(alloc)?;
    try_third(alloc, half, &plan, b"state")
}

fn second_under(alloc: Global, mishap: Mishap) -> Result<Turned, TryError> {
    let plan = mishap.plan(alloc)?;
    try_second(alloc, 0, &plan, b"state")
}
