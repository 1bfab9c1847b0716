//! Checkpoints: two halves of a disk, of which one counts, and the switch from one to the other.
//!
//! Layer: stands on `disk_area` and `wire`; the stores of nodes and of the master stand on it.
//! Its one contract: `prepare` leaves a half as it was or as nothing, `open_half` as nothing or as what was stored in
//! it, and both leave the other half; so a switch to a half that doesn't count keeps what counts until that half is
//! open.
//!
//! A half is a gate byte, open where it is 1; the generation in eight bytes; the state behind its length of four bytes;
//! zeros; and the half's journal. Where the four halves begin and how long their parts are is the table in `layout`.
#![tactic(auto)]

mod counting;
mod fault;
mod layout;
mod open;
mod read;
mod writing;

pub use counting::{a_switch_keeps_the_state, the_half_that_counts};
pub use fault::StoreError;
pub use layout::{Layout, journal_area, layout_of, other};
pub use open::{open_half, open_reserved};
pub use read::{HalfBytes, read_half};
pub use writing::prepare;
