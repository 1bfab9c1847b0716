//! What is printed of the fault of bytes that are no vehicle package.

use crate::VehicleError;
use std::fmt;

impl fmt::Display for VehicleError {
    ghost use Rattle.std.specs.Prelude.{Some};
    ghost use Rattle.vehicle_package.specs.Printed.{fault_text};

    ghost output = { λ fault. Some (fault_text fault) };

    fn fmt<W: fmt::Write>(&self, f: &mut fmt::Formatter<W>) -> fmt::Result {
        match self {
            VehicleError::VehicleInconsistent { place } => write!(f, "VehicleInconsistent {place}"),
            VehicleError::InvalidPlan => write!(f, "InvalidPlan"),
            VehicleError::PackageRefused { index, fault } => write!(f, "package {index} {fault}"),
            VehicleError::ClusterTwice { node, name } => write!(f, "ClusterTwice {node} {name}"),
            VehicleError::OutOfMemory => write!(f, "OutOfMemory"),
        }
    }
}
