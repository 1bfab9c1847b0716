//! Wire fields: big-endian numbers, and byte strings behind their length.
//!
//! Layer: stands on nothing; the packages, the records of a journal and the stored states are spelled with it.
//! Its one contract: a put appends the exact spelling, a take reads it back and leaves the rest, and no spelling of
//! a field begins another.
#![tactic(auto)]

mod put;
mod take;
#[cfg(test)]
mod tests;
mod unique;

pub use put::{put_bytes, put_u8, put_u16, put_u32, put_u64};
pub use take::{take_bytes, take_u8, take_u16, take_u32, take_u64};
pub use unique::no_spelling_begins_another;
