//! Why an append didn't succeed.
ghost use Rattle.std.specs.Prelude.{◌≡◌};
ghost use Rattle.journal.specs.declared.fault.JournalError.TheVariants.{Failed as faulted, OutOfMemory as no_memory};

use disk_core::DeviceError;
use std::alloc::AllocError;

#[derive(Clone, Copy, Debug, PartialEq, Eq, Drop)]
pub enum JournalError {
    /// The record doesn't fit into the area; nothing was written.
    Full,
    /// The disk failed; the list is as before or has the payload.
    Failed,
    /// Want of memory; nothing was written.
    OutOfMemory,
}

impl From<AllocError> for JournalError {
    ghost from_gives = { λ _ e. e ≡ no_memory };

    fn from(_: AllocError) -> Self {
        JournalError::OutOfMemory
    }
}

impl From<DeviceError> for JournalError {
    ghost from_gives = { λ _ e. e ≡ faulted };

    fn from(_: DeviceError) -> Self {
        JournalError::Failed
    }
}
