//! How the program ends.
ghost use Rattle.std.specs.Prelude.{◌≡◌};
ghost use Rattle.ucm_prog.specs.Outcome.{code_of};

/// The exit status.
#[derive(Clone, Copy, Debug, PartialEq, Eq)]
pub enum ExitStatus {
    Successful,
    CampaignNotSuccessful,
    Usage,
    InputRefused,
    LeftUnfinished,
    ReadFault,
    WriteFault,
    OutOfMemory,
}

impl ExitStatus {
    /// The number that the process ends with.
    pub fn code(self) -> u8
        ensures { result ≡ code_of self }
    {
        match self {
            ExitStatus::Successful => 0,
            ExitStatus::CampaignNotSuccessful => 1,
            ExitStatus::Usage => 2,
            ExitStatus::InputRefused => 3,
            ExitStatus::LeftUnfinished => 4,
            ExitStatus::ReadFault => 5,
            ExitStatus::WriteFault => 6,
            ExitStatus::OutOfMemory => 7,
        }
    }
}
