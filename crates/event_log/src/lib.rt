//! A durable log of events over a pair of halves: a state's text in the half that counts, and the records behind it.
//!
//! Layer: stands on `journal` and `checkpoint`; the stores of nodes and of the master are made from it.
//! Its one contract: at every moment of a call each crash image stands for the state before its one event or after it,
//! and a log can be opened from it; after a fault `revive` says which.
//!
//! A record that doesn't fit behind the others switches the halves first: the present state is written to the other
//! half with the next generation, and the log goes on there, behind no record.
#![tactic(auto)]

mod find;
mod format;
mod frames;
mod log;
mod revive;
mod runs;
mod stored;

pub use find::{Found, open};
pub use frames::writes_elsewhere_leave_the_log;
pub use log::Log;
pub use revive::Revived;
pub use runs::a_run_stands_for_its_events;
pub use stored::Stored;
