//! Why bytes are no vehicle package.

use package_reader::PackageError;
use std::alloc::{AllocError, AllocFailed};
use ucm_base::{ClusterName, NodeId};

/// The first fault of bytes that are no vehicle package; places count bytes from 0.
#[derive(Clone, Copy)]
pub enum VehicleError {
    /// What stands from the place on doesn't fit the fields before it.
    VehicleInconsistent { place: u64 },
    /// The plan's text is no plan of these packages.
    InvalidPlan,
    /// The package at this place of the list is none.
    PackageRefused { index: u16, fault: PackageError },
    /// A step changes a cluster that an earlier step changes on the same node.
    ClusterTwice { node: NodeId, name: ClusterName },
    OutOfMemory,
}

impl From<AllocError> for VehicleError {
    ghost use Rattle.std.specs.Prelude.{◌≡◌};
    ghost use Rattle.vehicle_package.specs.declared.fault.VehicleError.TheVariants.{OutOfMemory};

    ghost from_gives = { λ _ e. e ≡ OutOfMemory };

    fn from(_refused: AllocError) -> VehicleError {
        VehicleError::OutOfMemory
    }
}

impl<T: Drop> From<AllocFailed<T>> for VehicleError {
    ghost use Rattle.std.specs.Prelude.{◌≡◌};
    ghost use Rattle.vehicle_package.specs.declared.fault.VehicleError.TheVariants.{OutOfMemory};

    ghost from_gives = { λ _ e. e ≡ OutOfMemory };

    fn from(_refused: AllocFailed<T>) -> VehicleError {
        VehicleError::OutOfMemory
    }
}
