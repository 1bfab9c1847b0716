//! What a node answers: to a numbered call, and to a request for one unit of work.
ghost use Rattle.std.specs.Prelude.{◌≡◌, ◌<◌, ◌≤◌, ◌++◌, ◌∷◌, [], length};
ghost use Rattle.ucm_base.specs.Limits.{transfer_limit};
ghost use Rattle.pm_types.specs.Refusals.{refusal_code};
ghost use Rattle.pm_types.specs.Steps.{reply_code};

use crate::{Outcome, Status};
use std::marker::Model;
use ucm_base::limits::TRANSFER_LIMIT;
use ucm_base::{CallNo, ClientId, ClusterName, ShortText};

/// Why a call is refused; its number and its words are those that scripts print.
#[derive(Clone, Copy)]
pub enum Refusal {
    InsufficientMemory,
    IncorrectSize,
    InvalidTransferId,
    OperationNotPermitted,
    IncorrectBlock,
    InsufficientData,
    PackageInconsistent {
        /// The place of the first field that isn't right, in bytes from the package's start.
        place: u64,
    },
    InvalidManifest,
    ServiceBusy,
    OldVersion,
    MissingDependencies {
        cluster: ClusterName,
        needed: ClusterName,
        req: ShortText,
    },
    ActionNotApplicable,
    TooManyClusters,
    ClusterAlreadyChanged,
}

impl Refusal {
    /// The refusal's number, 1 to 14.
    pub fn code(&self) -> u8
        ensures { result ≡ refusal_code self.now }
    {
        match self {
            Refusal::InsufficientMemory => 1,
            Refusal::IncorrectSize => 2,
            Refusal::InvalidTransferId => 3,
            Refusal::OperationNotPermitted => 4,
            Refusal::IncorrectBlock => 5,
            Refusal::InsufficientData => 6,
            Refusal::PackageInconsistent { .. } => 7,
            Refusal::InvalidManifest => 8,
            Refusal::ServiceBusy => 9,
            Refusal::OldVersion => 10,
            Refusal::MissingDependencies { .. } => 11,
            Refusal::ActionNotApplicable => 12,
            Refusal::TooManyClusters => 13,
            Refusal::ClusterAlreadyChanged => 14,
        }
    }
}

/// The node's session, as Sync shows it.
#[derive(Clone, Copy, Debug, PartialEq, Eq)]
pub struct SessionMark {
    pub owner: ClientId,
    pub tag: u32,
    pub status: Status,
}

/// How a client's last session ended.
#[derive(Clone, Copy, Debug, PartialEq, Eq)]
pub struct EndMark {
    pub tag: u32,
    pub outcome: Outcome,
}

/// At most 8 ids of transfers, seen as their list.
#[derive(Clone, Copy)]
pub struct IdList {
    ids: [u32; TRANSFER_LIMIT as usize],
    len: usize,
}

impl Model for IdList {
    ghost use Rattle.std.specs.Prelude.{ℕ, List, length, take};
    ghost use Rattle.ucm_base.specs.Limits.{transfer_limit};
    ghost use Rattle.ucm_base.specs.Padding.{IsPadded, padded, padded-again};

    ghost Value = { List ℕ };

    ghost view = { λ s. take s.len s.ids };

    ghost invariant = { λ s. IsPadded transfer_limit s.ids s.len };

    ghost inverse = { λ xs. record { ids = padded transfer_limit xs; len = length xs } };

    ghost inverse_ok = { λ s h i. record {
      ids = padded-again transfer_limit s.ids s.len h i;
      len = h.0 i;
    } };
}

impl IdList {
    /// No id.
    pub fn new() -> IdList
        ensures { result ≡ [] }
    {
        IdList {
            ids: [0; TRANSFER_LIMIT as usize],
            len: 0,
        }
    }

    /// Adds an id behind the others.
    pub fn push(&mut self, id: u32)
        requires { length self.old < transfer_limit }
        ensures { self.new ≡ self.old ++ id ∷ [] }
    {
        self.ids[self.len] = id;
        self.len += 1;
    }

    /// The ids, in order.
    pub fn as_slice(&self) -> &[u32]
        ensures ids { result.now ≡ self.now }
        ensures form { length self.now ≤ transfer_limit }
    {
        &self.ids[..self.len]
    }
}

/// What Sync shows a client.
#[derive(Clone, Copy)]
pub struct Synced {
    /// The node's session, whoever owns it.
    pub session: Option<SessionMark>,
    /// How this client's last session ended.
    pub ended: Option<EndMark>,
    /// This client's transfers, by rising ids.
    pub transfers: IdList,
}

/// The reply to a numbered call.
#[derive(Clone, Copy)]
pub enum Reply {
    Done,
    Started { id: u32 },
    Synced(Synced),
    Refused(Refusal),
}

impl Reply {
    /// The refusal's number, or 0.
    pub fn code(&self) -> u8
        ensures { result ≡ reply_code self.now }
    {
        match self {
            Reply::Refused(refusal) => refusal.code(),
            Reply::Done | Reply::Started { .. } | Reply::Synced(_) => 0,
        }
    }
}

/// What became of a numbered call: it was executed, it repeats the newest one, or it is older than that.
#[derive(Clone, Copy)]
pub enum Reached {
    Done(Reply),
    Again(Reply),
    Stale { last: CallNo },
}

/// What became of a request for one unit of work.
#[derive(Clone, Copy, Debug, PartialEq, Eq)]
pub enum Worked {
    Unit { passed: bool, after: Status },
    Nothing { status: Status },
}
