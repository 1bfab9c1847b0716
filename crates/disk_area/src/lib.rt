//! Windows of a disk: places count from the window's start, and no byte outside it changes.
//!
//! Layer: stands on `disk_core`; `journal`, `checkpoint` and the extents stand on it.
//! Its one contract: a call of an [`Area`] is the disk's call in the window, and the rest of the disk stays.
#![tactic(auto)]

mod area;

pub use area::Area;
