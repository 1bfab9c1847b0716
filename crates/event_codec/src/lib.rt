//! Records and states of a node, events and state of the master, as bytes and back.
//!
//! Layer: stands on `pm_types`, `campaign_core`, `manifest` and `wire`; the stores of a node and of the master stand on
//! it, and its rows are in `log_tries`.
//! Its one contract: a put appends the spelling of a value, or a list of its own has it, a take gives the value that
//! bytes are the spelling of and none exactly where they are no value's, and no two values have one spelling.
#![tactic(auto)]

mod calls;
mod campaigns;
mod clusters;
mod fields;
mod lines;
mod master;
mod nodes;
mod numbers;
mod records;
mod replies;
mod state;
mod taking;
mod texts;
mod whole;

pub use calls::StoredCall;
pub use master::{event_bytes, fold_bytes};
pub use records::{Record, put_record};
pub use state::put_state;
pub use whole::{
    no_spelling_begins_another, spellings_of_the_master_are_short, take_event, take_fold,
    take_record, take_state, what_is_spelled_is_read,
};
