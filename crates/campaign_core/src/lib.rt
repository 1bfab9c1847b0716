//! The master's table: which event may follow a list of events, and what the list says.
//!
//! Layer: stands on `pm_types` (outcomes and refusals of a node) and `ucm_base` (nodes and call
//! numbers); the decision log, the world of the campaign law and the report stand on it.
//! Its one contract: `Campaign::apply` refuses an event exactly where the table does, and else the
//! fold is that of the list with the event.
#![tactic(auto)]

mod campaign;
mod display;
mod earlier;
mod events;
mod fold;
mod laws;
mod table;
mod views;

pub use campaign::Campaign;
pub use earlier::CampaignList;
pub use events::{
    CampaignRefusal, CampaignResult, Cause, Decision, MasterEvent, MasterList, Phase, Vote,
};
pub use fold::{Current, Fold};
pub use laws::an_allowed_event_changes_the_fold;
pub use views::{CampaignState, CampaignView, CurrentView};
