//! The master's list on a disk: events of a campaign, each durable before it is answered.
//!
//! Layer: stands on `event_log` (the durable log), `event_codec` (the spellings of events and folds) and
//! `campaign_core` (the table and its fold); the master's gate stands on it.
//! Its one contract: at every moment of a call each crash image stands for the fold before its one event or after it,
//! and a list can be opened from it; after a fault `revive` says which.
//!
//! What it adds to the log below is what an event is, when it is allowed, and how both are spelled.
#![tactic(auto)]

mod answers;
mod fold;
mod laws;
mod list;
mod start;

pub use answers::{AddAnswer, MasterRevived};
pub use laws::{a_known_list_can_be_opened, an_image_of_a_fold_can_be_opened};
pub use list::MasterLog;
pub use start::MasterOpenError;
