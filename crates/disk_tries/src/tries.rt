//! A journal on a fresh disk, and an append under a plan.
ghost use Rattle.std.specs.Prelude.{◌≡◌, ◌≤◌, ◌<◌, ◌^◌, length, IfOk};
ghost use Rattle.disk_core.specs.Images.{EachImage};
ghost use Rattle.disk_core.specs.Plans.{no_faults};
ghost use Rattle.journal.specs.Ready.{IsReady};
ghost use Rattle.disk_tries.specs.declared.tries.TryError.TheVariants.{Memory as no_memory, Read as not_read, Turn as not_turned};

use crate::turns::TurnError;
use disk_area::Area;
use disk_core::{Disk, FaultPlan, ReadError};
use disk_mem::MemDisk;
use journal::{Journal, JournalError, list};
use std::alloc::{AllocError, Global};

/// Why nothing was tried.
#[derive(Clone, Copy, Debug, PartialEq, Eq, Drop)]
pub enum TryError {
    Memory,
    /// The append before the plan was armed didn't succeed.
    Before(JournalError),
    /// The list wasn't read again.
    Read(ReadError),
    /// A switch before the plan was armed didn't succeed.
    Turn(TurnError),
    /// The disk didn't restart.
    Restart,
}

impl From<AllocError> for TryError {
    ghost from_gives = { λ _ e. e ≡ no_memory };

    fn from(_: AllocError) -> Self {
        TryError::Memory
    }
}

impl From<ReadError> for TryError {
    ghost from_gives = { λ fault e. e ≡ not_read fault };

    fn from(fault: ReadError) -> Self {
        TryError::Read(fault)
    }
}

impl From<TurnError> for TryError {
    ghost from_gives = { λ fault e. e ≡ not_turned fault };

    fn from(fault: TurnError) -> Self {
        TryError::Turn(fault)
    }
}

/// How an append ended, how many records were read after a restart, and how often the disk had failed.
#[derive(Debug, Drop)]
pub struct Tried {
    pub ended: Result<(), JournalError>,
    pub records: usize,
    pub faults: u64,
}

/// A disk of `size` zeros with a fresh journal on its first `len` bytes.
pub fn fresh(alloc: Global, size: u64, len: u64) -> Result<(MemDisk, Journal), AllocError>
    requires some { 0 < len }
    requires inside { len ≤ size }
    ensures ready { IfOk result (λ made. EachImage (⟦<MemDisk as Disk>⟧.images made.0)
        (IsReady made.1.area made.1.used)) }
    ensures area { IfOk result (λ made. (made.1.area.at ≡ 0) × (made.1.area.len ≡ len)) }
    ensures size { IfOk result (λ made. length (⟦<MemDisk as Disk>⟧.seen made.0) ≡ size) }
    ensures unarmed { IfOk result (λ made. ⟦<MemDisk as Disk>⟧.armed made.0 ≡ no_faults) }
{
    let disk = MemDisk::new(alloc, size)?;
    Ok((disk, Journal::fresh(Area::of(0, len))))
}

/// Appends the first payload, arms the plan, appends the second one, restarts and reads the list again.
pub fn try_append(
    alloc: Global,
    len: u64,
    plan: &FaultPlan,
    first: &[u8],
    second: &[u8],
) -> Result<Tried, TryError>
    requires some { 0 < len }
    requires first_short { length first.now < 2 ^ 32 }
    requires second_short { length second.now < 2 ^ 32 }
{
    let (mut disk, mut journal) = fresh(alloc, len, len)?;
    let area = journal.area;
    if let Err(fault) = journal.append(alloc, &mut disk, first) {
        return Err(TryError::Before(fault));
    }
    disk.arm(plan)?;
    let ended = journal.append(alloc, &mut disk, second);
    let faults = disk.faults();
    if let Err(_) = disk.restart() {
        return Err(TryError::Restart);
    }
    match list(alloc, &mut disk, area) {
        Ok(records) => Ok(Tried {
            ended,
            records: records.len(),
            faults,
        }),
        Err(fault) => Err(TryError::Read(fault)),
    }
}

/// Appends the three payloads to a fresh journal: how the last append ends, where the first two succeed.
pub fn try_three(
    alloc: Global,
    len: u64,
    first: &[u8],
    second: &[u8],
    third: &[u8],
) -> Result<Result<(), JournalError>, TryError>
    requires some { 0 < len }
    requires first_short { length first.now < 2 ^ 32 }
    requires second_short { length second.now < 2 ^ 32 }
    requires third_short { length third.now < 2 ^ 32 }
{
    let (mut disk, mut journal) = fresh(alloc, len, len)?;
    if let Err(fault) = journal.append(alloc, &mut disk, first) {
        return Err(TryError::Before(fault));
    }
    if let Err(fault) = journal.append(alloc, &mut disk, second) {
        return Err(TryError::Before(fault));
    }
    Ok(journal.append(alloc, &mut disk, third))
}
