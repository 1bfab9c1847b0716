//! The report of a run, and what is printed of answers.
//!
//! Layer: stands on `campaign_core`, `pm_types` and `ucm_base`, and on the kit's `sha2` and `hex`; the run of a
//! campaign and the program stand on it.
//! Its one contract: `print_report` writes exactly the text that the lists of a run have.
#![tactic(auto)]

mod answers;
mod blocks;
mod entries;
mod lines;
mod order;
mod print;
mod shown;

pub use answers::add_answer;
pub use print::print_report;
pub use shown::{
    EntryList, Gave, LineReply, Named, NamedList, NodeHistories, NodeHistory, Opening, OpeningList,
    ReplyList, Shown, Unreached, UnreachedList, Whose,
};
