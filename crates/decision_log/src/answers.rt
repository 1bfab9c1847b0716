//! What the calls of a master's list answer.
use campaign_core::{CampaignRefusal, MasterEvent};

/// How an event was answered.
#[derive(Clone, Copy, Drop)]
pub enum AddAnswer {
    /// It is recorded.
    Added,
    /// The table doesn't allow it here; nothing was written.
    Refused(CampaignRefusal),
    /// The disk failed, and its count of faults rose by this much. The event is pending.
    NoReply { faults: u64 },
    OutOfMemory,
}

/// How a pending event ended.
#[derive(Clone, Copy, Drop)]
pub enum MasterRevived {
    /// It is recorded.
    Stood { event: MasterEvent },
    /// It isn't recorded, and never will be.
    Lost,
    /// None was pending.
    Nothing,
}
