//! The master's list behind a turn: one seat adds to it, and any number of seats poll it without waiting.
//!
//! Layer: stands on `turn_gate` (one history behind a turn) and `decision_log` (the list on its disk); the run of a
//! campaign stands on it.
//! Its one contract: between the turns of the one seat that adds nothing enters the list, so what this seat has seen
//! and its one doubt tell the whole list, which `close` hands back with the log.
#![tactic(auto)]

mod answers;
mod gate;
mod opening;
mod shared;
mod steps;

pub use answers::LookAnswer;
pub use decision_log::AddAnswer;
pub use gate::{MasterGate, MasterSeat};
pub use opening::Opening;
pub use shared::SharedLog;
