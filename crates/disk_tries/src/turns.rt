//! Switches from half to half, the last of them under a plan.
ghost use Rattle.std.specs.Prelude.{◌≡◌, ◌<◌, ◌≤◌, length, OnOk, IfOk, true};
ghost use Rattle.disk_core.specs.Images.{Only};
ghost use Rattle.disk_core.specs.Plans.{no_faults};
ghost use Rattle.checkpoint.specs.Halves as halves;
ghost use Rattle.checkpoint.specs.Counting as counting;
ghost use Rattle.disk_tries.specs.Fits.{Fits};
ghost use Rattle.disk_tries.specs.declared.turns.TurnError.TheVariants.{Read as not_read, Store as not_stored};

use crate::tries::TryError;
use checkpoint::{HalfBytes, StoreError, open_half, other, prepare, read_half};
use disk_core::{Disk, FaultPlan, ReadError};
use disk_mem::MemDisk;
use std::alloc::{AllocError, Global};

/// The bytes of a disk with four halves.
const FOUR_HALVES: u64 = 67_108_864;

/// Why a switch didn't end well.
#[derive(Clone, Copy, Debug, PartialEq, Eq, Drop)]
pub enum TurnError {
    /// The generation isn't above that of the other half.
    NotNewer,
    /// A half wasn't read.
    Read(ReadError),
    /// A half wasn't prepared or opened.
    Store(StoreError),
}

impl From<ReadError> for TurnError {
    ghost from_gives = { λ fault e. e ≡ not_read fault };

    fn from(fault: ReadError) -> Self {
        TurnError::Read(fault)
    }
}

impl From<StoreError> for TurnError {
    ghost from_gives = { λ fault e. e ≡ not_stored fault };

    fn from(fault: StoreError) -> Self {
        TurnError::Store(fault)
    }
}

/// How the last switch ended, the generations of the half and of the other one after a restart, where they read, and
/// how often the disk had failed.
#[derive(Debug, Drop)]
pub struct Turned {
    pub ended: Result<(), TurnError>,
    pub half: Option<u64>,
    pub beside: Option<u64>,
    pub faults: u64,
}

/// Switches to the other half with generation 1, arms the plan, and switches to the half with generation 2.
#[tactic(auto, using(crate::proofs::FourHalves::each_fits))]
pub fn try_second(
    alloc: Global,
    half: u8,
    plan: &FaultPlan,
    state: &[u8],
) -> Result<Turned, TryError>
    requires half { half < 4 }
    requires short { length state.now ≤ 131072 }
{
    let mut disk = blank(alloc, half, FOUR_HALVES)?;
    turn(alloc, &mut disk, other(half), 1, state)?;
    turn_under(alloc, disk, half, 2, plan, state)
}

/// Switches to the half with generation 1 and to the other one, arms the plan, and switches to the half again, whose
/// gate is open.
#[tactic(auto, using(crate::proofs::FourHalves::each_fits))]
pub fn try_third(
    alloc: Global,
    half: u8,
    plan: &FaultPlan,
    state: &[u8],
) -> Result<Turned, TryError>
    requires half { half < 4 }
    requires short { length state.now ≤ 131072 }
{
    let mut disk = blank(alloc, half, FOUR_HALVES)?;
    turn(alloc, &mut disk, half, 1, state)?;
    turn(alloc, &mut disk, other(half), 2, state)?;
    turn_under(alloc, disk, half, 3, plan, state)
}

/// Arms the plan, switches, restarts and reads both halves.
fn turn_under(
    alloc: Global,
    mut disk: MemDisk,
    half: u8,
    generation: u64,
    plan: &FaultPlan,
    state: &[u8],
) -> Result<Turned, TryError>
    requires half { half < 4 }
    requires nothing_pending { Only (⟦<MemDisk as Disk>⟧.seen disk)
        (⟦<MemDisk as Disk>⟧.images disk) }
    requires pair { halves.HasPair (halves.layout_of half) (⟦<MemDisk as Disk>⟧.seen disk) }
    requires unarmed { ⟦<MemDisk as Disk>⟧.armed disk ≡ no_faults }
    requires short { length state.now ≤ (halves.layout_of half).state_max }
{
    disk.arm(plan)?;
    let ended = turn(alloc, &mut disk, half, generation, state);
    let faults = disk.faults();
    if let Err(_) = disk.restart() {
        return Err(TryError::Restart);
    }
    let read = read_half(&mut disk, half)?;
    let beside = read_half(&mut disk, other(half))?;
    Ok(Turned {
        ended,
        half: read.map(|body| body.generation),
        beside: beside.map(|body| body.generation),
        faults,
    })
}

/// A disk of `size` zeros.
fn blank(alloc: Global, half: u8, size: u64) -> Result<MemDisk, AllocError>
    requires { Fits size (halves.layout_of half) }
    ensures nothing_pending { IfOk result (λ d.
        Only (⟦<MemDisk as Disk>⟧.seen d) (⟦<MemDisk as Disk>⟧.images d)) }
    ensures pair { IfOk result (λ d.
        halves.HasPair (halves.layout_of half) (⟦<MemDisk as Disk>⟧.seen d)) }
    ensures unarmed { IfOk result (λ d. ⟦<MemDisk as Disk>⟧.armed d ≡ no_faults) }
{
    let _ = half;
    MemDisk::new(alloc, size)
}

/// Switches to a half.
fn turn(
    alloc: Global,
    disk: &mut MemDisk,
    half: u8,
    generation: u64,
    state: &[u8],
) -> Result<(), TurnError>
    requires half { half < 4 }
    requires nothing_pending { Only (⟦<MemDisk as Disk>⟧.seen disk.old)
        (⟦<MemDisk as Disk>⟧.images disk.old) }
    requires pair { halves.HasPair (halves.layout_of half) (⟦<MemDisk as Disk>⟧.seen disk.old) }
    requires short { length state.now ≤ (halves.layout_of half).state_max }
    ensures durable { OnOk result (Only (⟦<MemDisk as Disk>⟧.seen disk.new)
        (⟦<MemDisk as Disk>⟧.images disk.new)) }
    ensures plan { ⟦<MemDisk as Disk>⟧.armed disk.new ≡ ⟦<MemDisk as Disk>⟧.armed disk.old }
    ensures size { length (⟦<MemDisk as Disk>⟧.seen disk.new)
        ≡ length (⟦<MemDisk as Disk>⟧.seen disk.old) }
{
    let beside = read_half(disk, other(half))?;
    if !is_newer(generation, &beside) {
        return Err(TurnError::NotNewer);
    }
    prepare(alloc, disk, half, generation, state)?;
    Ok(open_half(disk, half)?)
}

/// The generation is above that of the half, where it reads.
fn is_newer(generation: u64, half: &Option<HalfBytes>) -> bool
    ensures { result ≡ true → counting.IsNewer generation half.now }
{
    match half {
        Some(body) => body.generation < generation,
        None => true,
    }
}
