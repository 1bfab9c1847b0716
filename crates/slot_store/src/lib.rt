//! The areas of a node on its disk: the bytes of each transfer and of each side of a cluster in an extent of their own.
//!
//! Layer: stands on `disk_area` and `transfer_blocks`; the durable node stands on it.
//! Its one contract: [`Extents`] is a staging; at every moment of a put each crash image is one of before it, torn in
//! the range that is put, so that whatever a state names elsewhere stands, and once it succeeded nothing is pending.
#![tactic(auto)]

mod extents;
mod laws;
mod places;

pub use extents::Extents;
pub use laws::{extents_lie_apart, runs_leave_what_they_put};
pub use places::{Places, extent};
