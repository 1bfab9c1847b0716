//! Sets of ranges that don't meet, each on a track of its own.
//!
//! Layer: the bottom; scripts of a run use it to see what stands twice.
//! Its one contract: whether a range meets one that was added, in a time that grows with the logarithm of their number.
#![tactic(auto)]

mod set;

pub use set::RangeSet;
