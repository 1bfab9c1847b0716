//! Why a half wasn't written.
ghost use Rattle.std.specs.Prelude.{◌≡◌};
ghost use Rattle.checkpoint.specs.declared.fault.StoreError.TheVariants.{Failed as faulted, OutOfMemory as no_memory};
ghost use Rattle.checkpoint.specs.Faults.{fault_of};

use disk_core::{DeviceError, ReadError};
use std::alloc::AllocError;

#[derive(Clone, Copy, Debug, PartialEq, Eq, Drop)]
pub enum StoreError {
    /// The disk failed.
    Failed,
    /// Want of memory; nothing was written.
    OutOfMemory,
}

impl From<AllocError> for StoreError {
    ghost from_gives = { λ _ e. e ≡ no_memory };

    fn from(_: AllocError) -> Self {
        StoreError::OutOfMemory
    }
}

impl From<DeviceError> for StoreError {
    ghost from_gives = { λ _ e. e ≡ faulted };

    fn from(_: DeviceError) -> Self {
        StoreError::Failed
    }
}

impl From<ReadError> for StoreError {
    ghost from_gives = { λ fault e. e ≡ fault_of fault };

    fn from(fault: ReadError) -> Self {
        match fault {
            ReadError::Failed => StoreError::Failed,
            ReadError::OutOfMemory => StoreError::OutOfMemory,
        }
    }
}
