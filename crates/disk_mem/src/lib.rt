//! A disk in memory that keeps the model, with the stops and failures of its plan and a tear at each restart.
//!
//! Layer: stands on `disk_core`; tests and programs hand it to the durable crates.
//! Its one contract: [`MemDisk`] is a disk of the model, and a call of it fails just where its plan says so.
#![tactic(auto)]

mod event;
mod fate;
mod leaf;
mod medium;
mod mem;
mod page;
mod pages;
mod slots;
mod strikes;
mod tear;

pub use mem::MemDisk;
pub use tear::Tear;
