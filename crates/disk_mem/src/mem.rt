//! The disk in memory.
ghost use Rattle.std.specs.Prelude.{◌≡◌, replicate, IfOk};
ghost use Rattle.disk_core.specs.Images.{Only};
ghost use Rattle.disk_core.specs.Plans.{no_faults};
ghost use Rattle.disk_mem.specs.Obeys.{IsNew, IsFresh};

use crate::medium::Medium;
use crate::strikes::{Fate, Strikes};
use crate::tear::Tear;
use disk_core::{DeviceError, Disk, FailKind, FaultPlan, ReadError};
use fault_count::one_more;
use std::alloc::{AllocError, Global};

/// A disk in memory. It keeps a record of its writes and syncs, from which its crash images follow,
/// and has memory for the pages and pieces that were written.
///
/// A call fails just where the armed plan says so; after a stop every read, write and sync fails until `restart`.
#[derive(Drop)]
pub struct MemDisk {
    alloc: Global,
    medium: Medium,
    strikes: Strikes,
    faults: u64,
}

impl MemDisk {
    ghost use Rattle.std.specs.Prelude.{◌||◌, ◌≤◌, if◌then◌else◌};
    ghost use Rattle.disk_mem.specs.Strikes.{fate_of, numbers_of, counted, is_stop, is_bad};
    ghost use Rattle.fault_count.specs.Faults.{one_more};

    /// A disk of `size` zeros that keeps the bytes as they stand when it restarts.
    pub fn new(alloc: Global, size: u64) -> Result<MemDisk, AllocError>
        ensures zeros { IfOk result (λ d. ⟦<MemDisk as Disk>⟧.seen d ≡ replicate size 0) }
        ensures nothing_pending { IfOk result (λ d.
            Only (⟦<MemDisk as Disk>⟧.seen d) (⟦<MemDisk as Disk>⟧.images d)) }
        ensures no_plan { IfOk result (λ d. ⟦<MemDisk as Disk>⟧.armed d ≡ no_faults) }
        ensures calm { IfOk result IsNew }
        ensures tears { IfOk result (IsFresh Tear.Keep size) }
    {
        MemDisk::torn(alloc, size, Tear::Keep)
    }

    /// A disk of `size` zeros. When it restarts, each range that was written since the last sync that succeeded, also
    /// by a write that failed, holds what the tear says.
    pub fn torn(alloc: Global, size: u64, tear: Tear) -> Result<MemDisk, AllocError>
        ensures zeros { IfOk result (λ d. ⟦<MemDisk as Disk>⟧.seen d ≡ replicate size 0) }
        ensures nothing_pending { IfOk result (λ d.
            Only (⟦<MemDisk as Disk>⟧.seen d) (⟦<MemDisk as Disk>⟧.images d)) }
        ensures no_plan { IfOk result (λ d. ⟦<MemDisk as Disk>⟧.armed d ≡ no_faults) }
        ensures calm { IfOk result IsNew }
        ensures tears { IfOk result (IsFresh tear size) }
    {
        Ok(MemDisk {
            alloc,
            medium: Medium::new(alloc, size, tear),
            strikes: Strikes {
                plan: FaultPlan::none(alloc),
                stopped: false,
                reads: 0,
                writes: 0,
                syncs: 0,
            },
            faults: 0,
        })
    }

    /// What becomes of the next call of this kind. A failure is counted.
    fn strike(&mut self, kind: FailKind) -> Fate
        ensures fate { result ≡ fate_of kind self.old.strikes }
        ensures stopped { self.new.strikes.stopped ≡ (self.old.strikes.stopped || is_stop result) }
        ensures numbers { numbers_of self.new.strikes ≡ counted kind self.old.strikes }
        ensures plan { self.new.strikes.plan ≡ self.old.strikes.plan }
        ensures faults { self.new.faults
            ≡ (if is_bad result then one_more self.old.faults else self.old.faults) }
        ensures no_fewer { self.old.faults ≤ self.new.faults }
        ensures medium { self.new.medium ≡ self.old.medium }
    {
        let fate = self.strikes.next_fate(kind);
        if fate.is_bad() {
            self.faults = one_more(self.faults);
        }
        fate
    }
}

impl Disk for MemDisk {
    ghost use Rattle.std.specs.Prelude.{length, ℕ};
    ghost use Rattle.std.proofs.Common.{inl};
    ghost use Rattle.disk_mem.specs.Medium.{course, images, left, room_of};
    ghost use Rattle.disk_mem.specs.Laws.{only_now, reads_as_image, image_size};
    ghost use Rattle.disk_mem.specs.Obeys.{Obeys};

    ghost seen = { λ d. d.medium.pages.bytes };

    ghost images = { λ d. images d.medium };

    ghost moment = { λ d. length d.medium.events.items };

    ghost left_since = { λ d. left d.medium };

    ghost fault_count = { λ d. d.faults };

    ghost armed = { λ d. d.strikes.plan };

    ghost room = { λ d. room_of d.medium };

    ghost obeys = { Obeys };

    fn size(&self) -> u64 {
        self.medium.pages.size()
    }

    fn faults(&self) -> u64 {
        self.faults
    }

    fn reserve(&mut self, writes: u32, bytes: u64) -> Result<(), AllocError> {
        self.medium.reserve(self.alloc, writes, bytes)
    }

    fn read(&mut self, at: u64, len: usize) -> Result<Vec<u8>, ReadError> {
        if self.strike(FailKind::Read).is_bad() {
            return Err(ReadError::Failed);
        }
        Ok(self.medium.pages.read(self.alloc, at, len)?)
    }

    fn write(&mut self, at: u64, bytes: &[u8]) -> Result<(), DeviceError> {
        let fate = self.strike(FailKind::Write);
        self.medium.write(at, bytes, fate.kept(bytes.len()));
        if fate.is_bad() {
            return Err(DeviceError);
        }
        Ok(())
    }

    fn sync(&mut self) -> Result<(), DeviceError> {
        if self.strike(FailKind::Sync).is_bad() {
            return Err(DeviceError);
        }
        self.medium.sync();
        Ok(())
    }

    fn restart(&mut self) -> Result<(), DeviceError> {
        self.strikes.stopped = false;
        self.medium.restart();
        Ok(())
    }

    fn arm(&mut self, plan: &FaultPlan) -> Result<(), AllocError> {
        self.strikes = Strikes {
            plan: plan.copy(self.alloc)?,
            stopped: false,
            reads: 0,
            writes: 0,
            syncs: 0,
        };
        Ok(())
    }

    ghost reads_as_image = { λ d.
        reads_as_image (course d.medium) d.medium.pages.bytes d.medium.replayed };

    ghost image_size = { λ d c here.
        image_size (course d.medium) d.medium.pages.bytes c d.medium.replayed here };

    ghost size_fits = { λ d. d.medium.small };

    ghost counts_now = { λ d t c le here. inl here };

    ghost only_now = { λ d c left. only_now d.medium.tear (length d.medium.pages.bytes)
        d.medium.events.items d.medium.pieces.items c left };
}
