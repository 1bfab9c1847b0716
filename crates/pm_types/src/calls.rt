//! The numbered calls of a node.

ghost use Rattle.std.specs.Prelude.{◌≡◌};
ghost use Rattle.pm_types.specs.Steps.{name_of};

use ucm_base::Block;

/// A numbered call.
#[derive(Drop)]
pub enum Call {
    Sync,
    TransferStart { size: u64 },
    TransferData { id: u32, counter: u64, bytes: Block },
    TransferExit { id: u32 },
    DeleteTransfer { id: u32 },
    ProcessSwPackage { id: u32, tag: u32 },
    Activate,
    Finish,
    Rollback,
    RevertProcessedSwPackages,
    Cancel { id: u32 },
}

/// Which call it is, without arguments.
#[derive(Clone, Copy, Debug, PartialEq, Eq)]
pub enum CallName {
    Sync,
    TransferStart,
    TransferData,
    TransferExit,
    DeleteTransfer,
    ProcessSwPackage,
    Activate,
    Finish,
    Rollback,
    RevertProcessedSwPackages,
    Cancel,
}

impl Call {
    /// Which call it is.
    pub fn name(&self) -> CallName
        ensures { result ≡ name_of self.now }
    {
        match self {
            Call::Sync => CallName::Sync,
            Call::TransferStart { .. } => CallName::TransferStart,
            Call::TransferData { .. } => CallName::TransferData,
            Call::TransferExit { .. } => CallName::TransferExit,
            Call::DeleteTransfer { .. } => CallName::DeleteTransfer,
            Call::ProcessSwPackage { .. } => CallName::ProcessSwPackage,
            Call::Activate => CallName::Activate,
            Call::Finish => CallName::Finish,
            Call::Rollback => CallName::Rollback,
            Call::RevertProcessedSwPackages => CallName::RevertProcessedSwPackages,
            Call::Cancel { .. } => CallName::Cancel,
        }
    }
}
