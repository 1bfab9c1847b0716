//! What messages leave of a client's calls on a node: its own entries, and the one of which isn't known yet
//! whether it stands.
//!
//! Layer: stands on `sub_core` (calls with their replies) and `pm_types`; the gate of a node and the run cite
//! its definitions.
//! Its one contract: in whatever order and however often messages come, a client's entries are those of messages
//! that it posted, each once, in the order of their numbers.
#![tactic(auto)]

ghost use Rattle.client_calls.specs.Laws.{AnsweredStays, EntriesArePosted, MoreMayBePosted};

/// The laws of a client's calls. It does nothing; its clauses are the laws.
pub fn calls_of_a_client()
    ensures posted { EntriesArePosted }
    ensures more { MoreMayBePosted }
    ensures stays { AnsweredStays }
{}
