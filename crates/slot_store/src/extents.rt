//! A staging on a disk.
ghost use Rattle.std.specs.Prelude.{◌≡◌, ◌≤◌, length, refl};
ghost use Rattle.slot_store.specs.Extents.{node_places, held_in, HasExtents};
ghost use Rattle.slot_store.specs.Leaves.{Leaves};
ghost use Rattle.slot_store.specs.Laws.{held_fits};

use crate::places::extent;
use disk_core::{DeviceError, Disk, ReadError};
use transfer_blocks::{Area, Staging, StagingError};

/// The areas of a node on a disk that it owns until it gives it back.
#[derive(Drop)]
pub struct Extents<D: Disk> {
    pub disk: D,
}

impl<D: Disk> Extents<D> {
    pub fn of(disk: D) -> Extents<D>
        requires { HasExtents node_places (D.seen disk) }
        ensures disk { result.disk ≡ disk }
        ensures fit { ⟦<Extents<D> as Staging>⟧.is_fit result }
    {
        Extents { disk }
    }

    /// Gives the disk back.
    pub fn into_disk(self) -> D
        ensures { result ≡ self.disk }
    {
        let Extents { disk } = self;
        disk
    }
}

impl<D: Disk> Staging for Extents<D> {
    ghost areas = { λ s. held_in node_places (D.seen s.disk) };

    ghost fault_count = { λ s. D.fault_count s.disk };

    ghost is_fit = { λ s. HasExtents node_places (D.seen s.disk) };

    ghost obeys = { λ old step new. Leaves D.seen D.images D.moment D.left_since D.armed
        node_places step old.disk new.disk };

    /// A write and a sync.
    fn put(&mut self, area: Area, at: u64, bytes: &[u8]) -> Result<(), StagingError> {
        self.disk.reserve(1, bytes.len() as u64)?;
        match extent(area).write_synced(&mut self.disk, at, bytes) {
            Ok(()) => Ok(()),
            Err(DeviceError) => Err(StagingError::Failed),
        }
    }

    /// A read.
    fn get(&mut self, area: Area, at: u64, len: usize) -> Result<Vec<u8>, StagingError> {
        match extent(area).read(&mut self.disk, at, len) {
            Ok(bytes) => Ok(bytes),
            Err(ReadError::Failed) => Err(StagingError::Failed),
            Err(ReadError::OutOfMemory) => Err(StagingError::OutOfMemory),
        }
    }

    fn faults(&self) -> u64 {
        self.disk.faults()
    }

    ghost areas_fit = { λ s. held_fits node_places refl (D.seen s.disk) };
}
