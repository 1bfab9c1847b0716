//! The script of a number: a campaign that brings sixteen packages to eight nodes.
//!
//! Layer: stands on `run_script`, `vehicle_package`, `package_reader`, `manifest` and `ucm_base`, and on the kit's
//! `sha2`; the program stands on it.
//! Its one contract: `demo_script` gives exactly the script of its number, in the form of every script that is read.
#![tactic(auto)]

mod packages;
mod script;

pub use script::demo_script;
