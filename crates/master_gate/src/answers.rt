//! What a look gives, and the faults that answers carry.
ghost use Rattle.std.specs.Prelude.{◌≡◌};
ghost use Rattle.master_gate.specs.Adds.{rise_of, rise_of_look};

use campaign_core::CampaignView;
use decision_log::AddAnswer;

/// How a look was answered.
#[derive(Clone, Copy, Drop)]
pub enum LookAnswer {
    /// So many events are recorded, and their fold shows this.
    At { place: u64, view: CampaignView },
    /// The disk failed, and its count of faults rose by this much. What was pending still is.
    NoReply { faults: u64 },
    /// What was pending still is.
    OutOfMemory,
}

impl LookAnswer {
    /// How often the disk failed.
    pub(crate) fn faults(&self) -> u64
        ensures { result ≡ rise_of_look self.now }
    {
        match self {
            LookAnswer::NoReply { faults } => *faults,
            LookAnswer::At { .. } | LookAnswer::OutOfMemory => 0,
        }
    }
}

/// How often the disk failed in an add.
pub(crate) fn faults_of(answer: &AddAnswer) -> u64
    ensures { result ≡ rise_of answer.now }
{
    match answer {
        AddAnswer::NoReply { faults } => *faults,
        AddAnswer::Added | AddAnswer::Refused(_) | AddAnswer::OutOfMemory => 0,
    }
}
