//! Recipes: scripts with lines that make software packages and a vehicle package, and what is packed of them.
//!
//! Layer: stands on `scenario` (the words of lines), `package_reader`, `vehicle_package` and the kit's
//! `sha2`; the program stands on it.
//! Its one contract: `pack` answers exactly the bytes that the recipe makes, or its first refused
//! line and why.
#![tactic(auto)]

mod fault;
mod made;
mod packing;
mod parts;
mod recipe;
mod words;

pub use fault::PackError;
pub use packing::{Kind, pack};
