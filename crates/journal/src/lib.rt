//! The journal of a disk's area: a list of payloads that grows by one record, or stays.
//!
//! Layer: stands on `disk_area` and `wire`; the stores of nodes and of the master stand on it.
//! Its one contract: at every moment of `append` each crash image holds the list before, or the list with the payload.
//!
//! A record is a gate byte, which is 1, the payload behind its length of four bytes, and the next record's gate byte.
//! The gate byte of a record is written last, after a sync; it stands closed on the disk before that.
#![tactic(auto)]

mod append;
mod fault;
mod grammar;
mod reading;
mod records;

pub use append::Journal;
pub use fault::JournalError;
pub use grammar::a_shut_gate_ends_the_list;
pub use reading::list;
pub use records::{Payload, Records};
