//! The answers to a node's queries, as filters over the lists of its state.
//!
//! Layer: stands on `pm_types` and `ucm_base`; the node's core stands on it.
//! Its one contract: each function answers what the definition of its query says, over the lists as they are stored.
//! That this is the definition's answer of the state for which they stand is in `proofs/Answered.antt`.
#![tactic(auto)]

mod infos;
mod lines;
mod progress;

pub use infos::{change_info, cluster_info, packages};
pub use lines::history;
pub use progress::process_progress;
