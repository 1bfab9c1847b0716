//! The events of a script, done one after another by one node on its disk.
//!
//! Layer: stands on `scenario` (the script), `node_store` (the node on its disk) and `report` (what an answer prints); the
//! program's top calls stand on it.
//! Its one contract: what is printed is what one history of the node says, in which the event of a line without a reply
//! stands once or not at all; a crash at the end leaves that node, or the one with the last such event.
#![tactic(auto)]

mod events;
mod forming;
mod given;
mod laws;
mod running;

pub use given::Given;
pub use laws::what_is_done_is_legal;
pub use running::{Replayed, replay};
