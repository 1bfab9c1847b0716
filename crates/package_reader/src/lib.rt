//! Software packages of one to sixteen parts, read and printed.
//!
//! Layer: stands on `manifest`, `wire` and the kit's `sha2`; the node and the vehicle packages stand on it.
//! Its one contract: bytes are read exactly where they are a package, the first fault is answered where they
//! are not, and what is printed is read as what it was printed of.
#![tactic(auto)]

mod display;
mod fault;
mod fields;
mod laws;
mod layout;
mod names;
mod packed;
mod payload;
mod print;
mod read;
mod span;

pub use fault::PackageError;
pub use laws::a_package_is_one;
pub use layout::{COUNT_SIZE, DIGEST_SIZE, LENGTH_SIZE, MARK_SIZE, parts_place};
pub use packed::{Packages, Packed};
pub use print::{PrintError, are_parts, is_too_large, package_size, print_package, seal_package};
pub use read::{Contents, read_package};
pub use span::Span;
