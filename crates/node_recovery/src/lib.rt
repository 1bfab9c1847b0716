//! The stored state that a node's disk stands for: the text of the half that counts, after the records in its journal.
//!
//! Layer: stands on `event_log` (the log of events), `event_codec` (records and states as bytes) and `transfer_blocks`
//! (the transfer table); the durable node stands on it.
//! Its one contract: [`recover`] finds the state that the image stands for. It reads no package, and judges no call
//! again: a record has its reply, and an accepted exit its parts.
#![tactic(auto)]

mod calls;
mod destination;
mod fold;
mod laws;
mod opening;
mod plan;
mod present;
mod sessions;
mod units;

pub use laws::{what_a_call_does_is_recorded, what_a_record_makes, what_a_unit_does_is_recorded};
pub use opening::{Found, OpenError, recover};
pub use present::Present;
