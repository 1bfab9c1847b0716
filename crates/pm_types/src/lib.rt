//! The data of a node's calls, replies, entries and state, and what they mean.
//!
//! Layer: stands on `ucm_base` and the kit's `circular_buffer`; every crate that speaks of a node's events stands on
//! it.
//! Its one contract: the definitions in `specs/`. They say what a node's state is and when it is valid, the tables of
//! refusals, the transfer, status and work tables, one step, legal histories, and the answers to queries.
#![tactic(auto)]

mod calls;
mod clusters;
mod contents;
mod display;
mod history;
mod queries;
mod replies;
mod state;
mod status;
mod text;
mod transfers;

pub use calls::{Call, CallName};
pub use clusters::{Change, Cluster, Extent};
pub use contents::{Contents, units_of};
pub use history::{Entry, Happened, Line, LineList, NewestLines};
pub use queries::{
    Answer, ChangeInfo, ChangeList, ClusterInfo, ClusterList, PackageInfo, PackageList, Query,
};
pub use replies::{EndMark, IdList, Reached, Refusal, Reply, SessionMark, Synced, Worked};
pub use state::{Changes, Clusters, Kept, Session, State, StoredTransfer, TransferList, Transfers};
pub use status::{Outcome, Phase, Status};
pub use transfers::{ExitVerdict, Header};
