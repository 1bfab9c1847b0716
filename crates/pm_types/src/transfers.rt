//! Transfers of software packages, apart from their bytes.
ghost use Rattle.std.specs.Prelude.{◌≡◌};
ghost use Rattle.pm_types.specs.NodeState.{outlasts};

use crate::{Contents, Phase, Refusal};
use ucm_base::ClientId;

/// What the transfer table reads and writes of a transfer.
#[derive(Clone, Copy, Debug, PartialEq, Eq)]
pub struct Header {
    pub id: u32,
    pub client: ClientId,
    /// The bytes that the package has.
    pub size: u64,
    /// The bytes that came so far.
    pub received: u64,
    /// The counter that the next block carries; the first is 1.
    pub next_counter: u64,
    pub phase: Phase,
}

impl Header {
    /// Whether the transfer stays where a session ends.
    pub fn outlasts(&self) -> bool
        ensures { result ≡ outlasts self.now }
    {
        match self.phase {
            Phase::Processing | Phase::Processed => false,
            Phase::Transferring | Phase::Transferred => true,
        }
    }
}

/// What reading a transfer's bytes as a package says.
#[derive(Drop)]
pub enum ExitVerdict {
    /// The parts of the package, with the lengths of their payloads.
    Good(Contents),
    Bad(Refusal),
}
