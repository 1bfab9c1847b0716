//! The first need that a list of clusters leaves unmet.
//!
//! Layer: stands on `ucm_base`; the node's core stands on it.
//! Its one contract: `missing` answers the first need, by cluster and then by place, that no cluster of the list meets.
#![tactic(auto)]

mod unmet;

pub use unmet::{Needing, missing};
