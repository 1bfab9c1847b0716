//! Workers that run the drivers of a campaign's nodes beside each other.
//!
//! Layer: stands on `sub_core` (drivers) and `package_reader`; the run of a campaign stands on it.
//! Its one contract: each worker's subordinate went from its old state to its new one by just the sends and units
//! that its driver asked for, and the worker holds this driver's finding, whatever the others do.
#![tactic(auto)]

mod rounds;
mod sending;
mod worker;

pub use rounds::{end_all, prepare_all};
pub use worker::Worker;
