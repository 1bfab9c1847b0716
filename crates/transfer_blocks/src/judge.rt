//! The refusals of the transfer table, row by row; of a transfer that is there, from the second row on.
ghost use Rattle.std.specs.Prelude.{◌≡◌, ◌+◌, ◌<◌, ◌≤◌, None, Some};
ghost use Rattle.ucm_base.specs.Limits.{transfer_limit, package_limit, last_id};
ghost use Rattle.pm_types.specs.Refusals.{first_refusal};
ghost use Rattle.pm_types.specs.Transfers.{start_refusals, data_refusals, exit_refusals, delete_refusals};

use pm_types::{Header, Phase, Refusal};
use ucm_base::limits::{BLOCK_LIMIT, LAST_ID, PACKAGE_LIMIT, TRANSFER_LIMIT};

/// Why a transfer of this size doesn't begin, where so many are there.
pub(crate) fn start_refusal(next_id: u32, count: u64, size: u64) -> Option<Refusal>
    ensures refusal { result ≡ first_refusal (start_refusals next_id count size) }
    ensures room { result ≡ None → count < transfer_limit }
    ensures id { result ≡ None → next_id < last_id }
    ensures size { result ≡ None → size ≤ package_limit }
{
    if size == 0 {
        return Some(Refusal::IncorrectSize);
    }
    if size > PACKAGE_LIMIT || count >= TRANSFER_LIMIT || u64::from(next_id) == LAST_ID {
        return Some(Refusal::InsufficientMemory);
    }
    None
}

/// Why a transfer doesn't take a block of this size.
pub(crate) fn data_refusal(header: &Header, counter: u64, size: u64) -> Option<Refusal>
    ensures refusal { result ≡ first_refusal (data_refusals (Some header.now) counter size) }
    ensures some { result ≡ None → 0 < size }
    ensures fits { result ≡ None → header.now.received + size ≤ header.now.size }
{
    match header.phase {
        Phase::Transferring => {}
        _ => return Some(Refusal::OperationNotPermitted),
    }
    if size == 0 || size > BLOCK_LIMIT || header.next_counter != counter {
        return Some(Refusal::IncorrectBlock);
    }
    let whole = header.size;
    match header.received.checked_add(size) {
        Some(received) if received <= whole => None,
        _ => Some(Refusal::IncorrectSize),
    }
}

/// Why a transfer doesn't end, before its bytes are read.
pub(crate) fn exit_refusal(header: &Header) -> Option<Refusal>
    ensures { result ≡ first_refusal (exit_refusals (Some header.now)) }
{
    match header.phase {
        Phase::Transferring => {}
        _ => return Some(Refusal::OperationNotPermitted),
    }
    if header.received < header.size {
        return Some(Refusal::InsufficientData);
    }
    None
}

/// Why a transfer isn't deleted.
pub(crate) fn delete_refusal(header: &Header) -> Option<Refusal>
    ensures { result ≡ first_refusal (delete_refusals (Some header.now)) }
{
    match header.phase {
        Phase::Processing | Phase::Processed => Some(Refusal::OperationNotPermitted),
        Phase::Transferring | Phase::Transferred => None,
    }
}
