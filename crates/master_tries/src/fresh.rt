//! A list on a fresh disk.
ghost use Rattle.std.specs.Prelude.{◌≡◌, ◌≤◌, ◌+◌, None, IfOk};
ghost use Rattle.disk_core.specs.Plans.{no_faults};
ghost use Rattle.checkpoint.specs.Halves.{layout_of};
ghost use Rattle.decision_log.specs.Known.{IsKnown};
ghost use Rattle.master_tries.specs.declared.fresh.TryError.TheVariants.{Memory as no_memory};

use decision_log::MasterLog;
use disk_core::Disk;
use disk_mem::{MemDisk, Tear};
use std::alloc::{AllocError, Global};

/// The bytes of a disk with halves 0 and 1.
const TWO_HALVES: u64 = 4_194_304;

/// Why nothing was tried.
#[derive(Clone, Copy, Debug, PartialEq, Eq, Drop)]
pub enum TryError {
    Memory,
    /// The list wasn't made.
    Format,
}

impl From<AllocError> for TryError {
    ghost from_gives = { λ _ e. e ≡ no_memory };

    fn from(_: AllocError) -> Self {
        TryError::Memory
    }
}

/// An empty list on a fresh disk of two halves.
pub fn fresh(alloc: Global, tear: Tear) -> Result<MasterLog<MemDisk>, TryError>
    ensures known { IfOk result (λ log. IsKnown log.log log.campaign.fold log.pending
        (⟦<MemDisk as Disk>⟧.seen log.disk) (⟦<MemDisk as Disk>⟧.images log.disk)) }
    ensures unarmed { IfOk result (λ log. ⟦<MemDisk as Disk>⟧.armed log.disk ≡ no_faults) }
{
    formatted(alloc, TWO_HALVES, tear)
}

/// An empty list on a fresh disk of `size` bytes.
fn formatted(alloc: Global, size: u64, tear: Tear) -> Result<MasterLog<MemDisk>, TryError>
    requires { (layout_of 0).upper + (layout_of 0).journal_at + (layout_of 0).journal_len
        ≤ size }
    ensures known { IfOk result (λ log. IsKnown log.log log.campaign.fold log.pending
        (⟦<MemDisk as Disk>⟧.seen log.disk) (⟦<MemDisk as Disk>⟧.images log.disk)) }
    ensures unarmed { IfOk result (λ log. ⟦<MemDisk as Disk>⟧.armed log.disk ≡ no_faults) }
{
    let disk = MemDisk::torn(alloc, size, tear)?;
    match MasterLog::format(alloc, disk) {
        Ok(log) => Ok(log),
        Err((_disk, _fault)) => Err(TryError::Format),
    }
}
