//! Manifests of software packages: JSON texts (RFC 8259) with exactly five keys.
//!
//! Layer: stands on `ucm_base` and the kit's `serde_json` and `hex`; `package_reader` stands on it.
//! Its one contract: a manifest is read exactly where the text has the form.
#![tactic(auto)]

mod digest;
mod print;
mod read;

pub use print::print_manifest;
pub use read::{ManifestError, read_manifest};
