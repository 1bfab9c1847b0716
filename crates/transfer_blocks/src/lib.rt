//! The transfers of a node, and the areas in which their bytes and the clusters' contents lie.
//!
//! Layer: stands on `pm_types`, whose transfer table it carries out; `node_core` stands on it.
//! Its one contract: the four calls of [`table`] are the transfer table, and after a put on a [`Staging`] the area
//! holds the bytes at their place, all else being as before.
#![tactic(auto)]

mod area;
mod content;
mod contents;
mod fault;
mod found;
mod judge;
pub mod lookup;
mod mem;
mod ready;
mod staging;
pub mod table;

pub use area::Area;
pub use fault::StagingError;
pub use found::Found;
pub use mem::MemStaging;
pub use ready::{find_ending, find_taking};
pub use staging::Staging;

#[cfg(test)]
mod tests;
