//! A node behind a turn: its clients call it from several threads, each by a seat of its own.
//!
//! Layer: stands on `turn_gate` (one history behind a turn) and `node_store` (the node on its disk); the run of a
//! campaign stands on it.
//! Its one contract: what the seats saw is one legal history of the node, true to the names that fail, which `close`
//! hands back with the node.
#![tactic(auto)]

mod answers;
mod asking;
mod gate;
mod opening;
mod shared;
mod steps;
mod working;

pub use answers::AskAnswer;
pub use gate::{NodeGate, NodeSeat, NodeSeats};
pub use node_store::{NodeAnswer, WorkAnswer};
pub use opening::Opening;
pub use shared::SharedNode;
