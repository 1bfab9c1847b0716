//! The table of tears, at the end of a node's disk.

use disk_core::Disk;
use disk_mem::{MemDisk, Tear};
use std::alloc::Global;
use std::io;

/// The bytes of a node's disk.
const NODE_DISK: u64 = 2_348_810_240;

/// After a restart the bytes that were written without a sync are kept, old, or ones.
pub fn print<R: Print + AllocGlobal>(rt: &R) -> io::Result<()> {
    println!(rt; "a disk of {NODE_DISK} bytes, its last eight, of which four were written:")?;
    for tear in [Tear::Keep, Tear::Old, Tear::Ones] {
        let bytes = restarted(rt.alloc(), NODE_DISK, tear);
        println!(rt; "{tear:?}: {bytes:?}")?;
    }
    Ok(())
}

/// Four bytes are written at the end of a fresh disk, without a sync; what is read there, before them too, after a
/// restart.
fn restarted(alloc: Global, size: u64, tear: Tear) -> Option<Vec<u8>> {
    let mut disk = MemDisk::torn(alloc, size, tear).ok()?;
    disk.reserve(1, 4).ok()?;
    let last_four = disk.size().checked_sub(4)?;
    disk.write(last_four, &[7; 4]).ok()?;
    disk.restart().ok()?;
    let last_eight = disk.size().checked_sub(8)?;
    disk.read(last_eight, 8).ok()
}
