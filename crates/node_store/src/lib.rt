//! A node on its disk: each event is durable before it is answered.
//!
//! Layer: stands on `node_core` (what a call or a unit makes of a stored state), `node_recovery` (the state that a disk
//! stands for), `slot_store` (the areas of a node in extents) and `event_log` (the log of events); the gate of a node
//! stands on it.
//! Its one contract: at every moment of a call each crash image serves for the node before its one event or after it;
//! after an answer it serves for the node after the event.
//!
//! The order of writes: a block to its slot, or a unit's bytes to the inactive side, and a sync; then the record.
#![tactic(auto)]

mod answers;
mod asking;
mod calls;
mod laws;
mod making;
mod node;
mod recording;
mod reviving;
mod text;
mod working;

pub use answers::{NodeAnswer, WorkAnswer};
pub use laws::{events_make_one_entry, what_is_open_serves, what_serves_can_be_opened};
pub use node::Node;
