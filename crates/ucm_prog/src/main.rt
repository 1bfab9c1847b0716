//! The program `ucm`: update managers of a vehicle's computers.
//!
//! Layer: the top. Its one contract is that of [`plain::ucm_plain`], which `main` calls: what a
//! command writes is the output that the definitions in `specs/` say, and each exit status has its
//! cause.
#![tactic(auto)]

ghost use Rattle.std.specs.Prelude.{IfOk};
ghost use Rattle.ucm_prog.specs.Disks.{AreDisks, IsUnused};

mod commands;
mod inspect;
mod inspect_vehicle;
mod output;
mod pack;
mod plain;
mod replay;
mod status;

use disk_core::Disk;
use disk_mem::MemDisk;
use status::ExitStatus;
use std::alloc::{AllocError, Global};
use std::env;
use std::io::{self, ErrorKind};
use std::process::ExitCode;
use std::rt::Env;
use ucm_base::limits::NODE_LIMIT;
use ucm_ports::{StdSink, StdSource};

/// The bytes of a node's disk.
const NODE_DISK: u64 = 2_348_810_240;

/// The bytes of the master's disk.
const MASTER_DISK: u64 = 4_194_304;

/// The program's words, or why they can't be had.
fn words<R: Env + Alloc<A = Global>>(rt: &R) -> io::Result<Vec<String>> {
    let mut words = Vec::new(rt.alloc());
    for word in env::args(rt)?.skip(1) {
        words.push(word)?;
    }
    Ok(words)
}

/// The master's disk, and behind it those of eight nodes, each of zeros.
fn new_disks(alloc: Global) -> Result<Vec<MemDisk>, AllocError>
    ensures { IfOk result (λ v. AreDisks (λ size d. IsUnused size (⟦<MemDisk as Disk>⟧.seen d)
        (⟦<MemDisk as Disk>⟧.images d) (⟦<MemDisk as Disk>⟧.armed d)) v.items) }
{
    let mut disks = Vec::new(alloc);
    disks.push(MemDisk::new(alloc, MASTER_DISK)?)?;
    'nodes: for node in 0..NODE_LIMIT {
        disks.push(MemDisk::new(alloc, NODE_DISK)?)?;
    }
    Ok(disks)
}

fn main(rt: HostRuntime) -> ExitCode {
    let alloc = rt.alloc();
    let mut source = StdSource::new(rt.stdin());
    let mut sink = StdSink::new(rt.stdout());
    let Ok(disks) = new_disks(alloc) else {
        return ExitCode::from(ExitStatus::OutOfMemory.code());
    };
    let (status, _) = match words(&rt) {
        Ok(words) => plain::ucm_plain(alloc, words.as_slice(), &mut source, &mut sink, disks),
        Err(e) if e.kind() == ErrorKind::OutOfMemory => (ExitStatus::OutOfMemory, disks),
        Err(_) => plain::ucm_plain(alloc, &[], &mut source, &mut sink, disks),
    };
    ExitCode::from(status.code())
}
