//! Scripts: the lines that say what is done to a node, and why a text is no script.
//!
//! Layer: stands on `pm_types`, `ucm_base` and `ucm_text`; recipes and the commands that run scripts
//! stand on it.
//! Its one contract: a text is read exactly as the grammar in `specs/` says, or refused at the
//! first line that is out of it, with the first reason.
#![tactic(auto)]

mod attachments;
mod blocks;
mod events;
mod lines;
mod script;
mod why;
mod words;

pub use attachments::{Attached, Attachments};
pub use blocks::{BlockSource, plain_block};
pub use events::{Event, EventLine, NodeEvent, ScriptCall, call_of};
pub use lines::{Installed, ScriptLine, is_event_word, read_event, read_shared};
pub use script::{Command, Script, WORD_LIMIT, first_words, is_last, is_passed, read_script};
pub use why::{ScriptError, Why, WordError};
pub use words::{
    Reach, action, cut, first_piece, from_one, name, need, needs, node, number, small, version,
};
