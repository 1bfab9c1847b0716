//! A journal of many records, for a bench.

use crate::tries::{TryError, fresh};
use disk_core::Disk;
use journal::list;
use std::alloc::Global;
use std::io;

/// The bytes of a disk with halves 0 and 1, and of the journal of one of them.
const DISK: u64 = 4_194_304;

const JOURNAL: u64 = 1_835_008;

/// Appends payloads of 15 bytes, as many as `count` says, and prints how many are read again.
pub fn print<R: Print + AllocGlobal>(rt: &R, count: u64) -> io::Result<()> {
    let left = append_many(rt.alloc(), count);
    println!(rt; "{count} appends: {left:?}")
}

/// How many records are read after so many appends, and how often the disk failed.
fn append_many(alloc: Global, count: u64) -> Result<(usize, u64), TryError> {
    let (mut disk, mut journal) = fresh(alloc, DISK, JOURNAL)?;
    for _record in 0..count {
        if let Err(fault) = journal.append(alloc, &mut disk, &[7; 15]) {
            return Err(TryError::Before(fault));
        }
    }
    match list(alloc, &mut disk, journal.area) {
        Ok(records) => Ok((records.len(), disk.faults())),
        Err(fault) => Err(TryError::Read(fault)),
    }
}
