//! Words and numbers of a line, and hexadecimal text.
//!
//! Layer: stands on the kit's `hex` alone; whatever reads scripts stands on it.
//! Its one contract: each reader answers the value exactly where the bytes are in its form.
#![tactic(auto)]

mod hexadecimal;
mod numbers;
mod words;

pub use hexadecimal::bytes_of_hex;
pub use numbers::number_of;
pub use words::{Words, cut_at, words_of};
