//! Why bytes are no package.

use manifest::ManifestError;
use std::alloc::{AllocError, AllocFailed};

/// The first fault of bytes that are no package; places count bytes from 0.
#[derive(Clone, Copy, Debug, PartialEq, Eq)]
pub enum PackageError {
    /// What stands from the place on doesn't fit the fields before it.
    PackageInconsistent { place: u64 },
    /// A manifest's text is no manifest, or a cluster's name stands in two parts.
    InvalidManifest,
    OutOfMemory,
}

impl From<AllocError> for PackageError {
    ghost use Rattle.std.specs.Prelude.{◌≡◌};
    ghost use Rattle.package_reader.specs.declared.fault.PackageError.TheVariants.{OutOfMemory};

    ghost from_gives = { λ _ e. e ≡ OutOfMemory };

    fn from(_refused: AllocError) -> PackageError {
        PackageError::OutOfMemory
    }
}

impl<T: Drop> From<AllocFailed<T>> for PackageError {
    ghost use Rattle.std.specs.Prelude.{◌≡◌};
    ghost use Rattle.package_reader.specs.declared.fault.PackageError.TheVariants.{OutOfMemory};

    ghost from_gives = { λ _ e. e ≡ OutOfMemory };

    fn from(_refused: AllocFailed<T>) -> PackageError {
        PackageError::OutOfMemory
    }
}
