//! What is printed of the fault of bytes that are no package.

use crate::PackageError;
use std::fmt;

impl fmt::Display for PackageError {
    ghost use Rattle.std.specs.Prelude.{Some};
    ghost use Rattle.package_reader.specs.Printed.{fault_text};

    ghost output = { λ fault. Some (fault_text fault) };

    fn fmt<W: fmt::Write>(&self, f: &mut fmt::Formatter<W>) -> fmt::Result {
        match self {
            PackageError::PackageInconsistent { place } => write!(f, "PackageInconsistent {place}"),
            PackageError::InvalidManifest => write!(f, "InvalidManifest"),
            PackageError::OutOfMemory => write!(f, "OutOfMemory"),
        }
    }
}
