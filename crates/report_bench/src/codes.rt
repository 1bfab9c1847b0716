//! What numbers stand for.

use pm_types::{Outcome, Refusal, Status};
use ucm_base::{CallNo, ClientId, ClusterName, NodeId, ShortText};

/// The number at a place; 0 where there is none.
pub fn at(numbers: &[u64], place: usize) -> u64 {
    numbers.get(place).copied().unwrap_or(0)
}

/// The same in 32 bits.
pub fn short_at(numbers: &[u64], place: usize) -> u32 {
    u32::try_from(at(numbers, place)).unwrap_or(0)
}

pub fn status(number: u64) -> Status {
    Status::of_code(u8::try_from(number).unwrap_or(0))
}

pub fn outcome(number: u64) -> Outcome {
    if number == 0 {
        Outcome::New
    } else {
        Outcome::Old
    }
}

pub fn node(number: u64) -> Option<NodeId> {
    NodeId::of(number)
}

pub fn client(number: u64) -> Option<ClientId> {
    ClientId::of(number)
}

/// The number of a call, an epoch and a number within it.
pub fn call_no(numbers: &[u64], place: usize) -> Option<CallNo> {
    CallNo::of(
        short_at(numbers, place),
        short_at(numbers, place.saturating_add(1)),
    )
}

/// The cluster of a number.
pub fn name(number: u64) -> Option<ClusterName> {
    let text: &[u8] = match number {
        0 => b"core",
        1 => b"app",
        _ => b"radar",
    };
    ClusterName::of(text).ok()
}

/// The refusal of a number, 1 to 14, with a place where it has one.
pub fn refusal(number: u64, place: u64) -> Option<Refusal> {
    let refusal = match number {
        1 => Refusal::InsufficientMemory,
        2 => Refusal::IncorrectSize,
        3 => Refusal::InvalidTransferId,
        4 => Refusal::OperationNotPermitted,
        5 => Refusal::IncorrectBlock,
        6 => Refusal::InsufficientData,
        7 => Refusal::PackageInconsistent { place },
        8 => Refusal::InvalidManifest,
        9 => Refusal::ServiceBusy,
        10 => Refusal::OldVersion,
        11 => Refusal::MissingDependencies {
            cluster: name(1)?,
            needed: name(0)?,
            req: ShortText::of(b"^1.0.0")?,
        },
        12 => Refusal::ActionNotApplicable,
        13 => Refusal::TooManyClusters,
        14 => Refusal::ClusterAlreadyChanged,
        _ => return None,
    };
    Some(refusal)
}
