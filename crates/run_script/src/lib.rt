//! Scripts of a run: its campaign, its vehicle, what clients do, and what goes wrong.
//!
//! Layer: stands on `scenario` (the words and shared lines of scripts), `vehicle_package`, `range_set`, and on
//! `campaign_core`, `sub_core`, `disk_core` and `disk_mem` for phases, fates and plans; the run of a campaign stands
//! on it.
//! Its one contract: a text is read exactly as the grammar in `specs/` says, or refused at the first line that is out
//! of it, with the first reason, and then as the vehicle package's reader refuses.
#![tactic(auto)]

mod above;
mod fault;
mod lines;
mod own;
mod plan;
mod read;
mod script;
mod taken;
mod words;

pub use fault::{Refusal, ScriptError};
pub use lines::{
    AttachLine, CampaignLine, CancelLine, ClientLine, FailsLine, FateLine, FaultLine,
    InstalledLine, Lines, Point, StopLine, TimeLine,
};
pub use script::{Script, read_script};
