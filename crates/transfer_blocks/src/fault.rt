//! How a call of a staging ends where it doesn't succeed.
ghost use Rattle.std.specs.Prelude.{◌≡◌};
ghost use Rattle.transfer_blocks.specs.declared.fault.StagingError.TheVariants.{OutOfMemory as no_memory};

use std::alloc::AllocError;

/// Why a put or a get didn't succeed.
#[derive(Clone, Copy, Debug, PartialEq, Eq, Drop)]
pub enum StagingError {
    /// What keeps the areas failed; its count of faults rose in this call.
    Failed,
    OutOfMemory,
}

impl From<AllocError> for StagingError {
    ghost from_gives = { λ _ e. e ≡ no_memory };

    fn from(_: AllocError) -> Self {
        StagingError::OutOfMemory
    }
}
