//! How a call of a disk ends where it doesn't succeed.
ghost use Rattle.std.specs.Prelude.{◌≡◌};
ghost use Rattle.disk_core.specs.declared.fault.ReadError.TheVariants.{Failed as faulted, OutOfMemory as no_memory};

use std::alloc::AllocError;

/// The device failed; its count of faults rose in this call.
#[derive(Clone, Copy, Debug, PartialEq, Eq, Drop)]
pub struct DeviceError;

/// Why a read gave no bytes.
#[derive(Clone, Copy, Debug, PartialEq, Eq, Drop)]
pub enum ReadError {
    Failed,
    OutOfMemory,
}

impl From<AllocError> for ReadError {
    ghost from_gives = { λ _ e. e ≡ no_memory };

    fn from(_: AllocError) -> Self {
        ReadError::OutOfMemory
    }
}

impl From<DeviceError> for ReadError {
    ghost from_gives = { λ _ e. e ≡ faulted };

    fn from(_: DeviceError) -> Self {
        ReadError::Failed
    }
}
