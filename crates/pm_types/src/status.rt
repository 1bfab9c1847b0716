//! Where a node's session and its transfers stand.
ghost use Rattle.std.specs.Prelude.{◌≡◌};
ghost use Rattle.pm_types.specs.NodeState.{status_at, status_code};

/// The status of a node, after the state machine of the service PackageManagement (AUTOSAR Adaptive Platform,
/// release 20-11, Specification of Update and Configuration Management).
#[derive(Clone, Copy, Debug, PartialEq, Eq)]
pub enum Status {
    Idle,
    Ready,
    Processing,
    Activating,
    Verifying,
    Activated,
    RollingBack,
    RolledBack,
    CleaningUp,
}

impl Status {
    /// The code of a status, from 0 for Idle up.
    pub fn code(&self) -> u8
        ensures { result ≡ status_code self.now }
    {
        match self {
            Status::Idle => 0,
            Status::Ready => 1,
            Status::Processing => 2,
            Status::Activating => 3,
            Status::Verifying => 4,
            Status::Activated => 5,
            Status::RollingBack => 6,
            Status::RolledBack => 7,
            Status::CleaningUp => 8,
        }
    }

    /// The status of a code; Idle where no status has it.
    pub fn of_code(code: u8) -> Status
        ensures { result ≡ status_at code }
    {
        match code {
            1 => Status::Ready,
            2 => Status::Processing,
            3 => Status::Activating,
            4 => Status::Verifying,
            5 => Status::Activated,
            6 => Status::RollingBack,
            7 => Status::RolledBack,
            8 => Status::CleaningUp,
            _ => Status::Idle,
        }
    }
}

/// How far a transfer is.
#[derive(Clone, Copy, Debug, PartialEq, Eq)]
pub enum Phase {
    Transferring,
    Transferred,
    Processing,
    Processed,
}

/// What a session left: the planned clusters, or those that ran before it.
#[derive(Clone, Copy, Debug, PartialEq, Eq)]
pub enum Outcome {
    New,
    Old,
}
