//! What is made ready before a block is taken, and before a transfer is closed.
ghost use Rattle.std.specs.Prelude.{◌≡◌, ◌≢◌, ◌≤◌, length, map, IfOk, IsErrOf};
ghost use Rattle.pm_types.specs.declared.calls.Call.TheVariants.{TransferData, TransferExit};
ghost use Rattle.fault_count.specs.Faults.{HasRisen};
ghost use Rattle.node_core.specs.Core.{IsReady, IsSound, holding, over};
ghost use Rattle.node_core.specs.Errors.{end_by};
ghost use Rattle.node_core.specs.Reserves.{BringsNew, Reserves};
ghost use Rattle.node_core.specs.Packages.{package_reading, refusal_of};
ghost use Rattle.node_core.specs.Prepared.{IsVerdict, stored_part};
ghost use Rattle.ucm_base.specs.Limits.{part_limit};

use crate::node::ReserveError;
use crate::prepared::Prepared;
use package_reader::{PackageError, Span, read_package};
use pm_types::{Contents, ExitVerdict, Refusal, State};
use std::alloc::{AllocError, Global};
use transfer_blocks::{Area, Staging, find_ending, find_taking};
use ucm_base::{ClientId, Part};

/// Stages a block that the table accepts behind the bytes that came.
pub(crate) fn stage<S: Staging>(
    staging: &mut S,
    state: &State,
    client: ClientId,
    id: u32,
    counter: u64,
    block: &[u8],
) -> Result<(), ReserveError>
    requires fit { S.is_fit staging.old }
    requires sound { IsSound (holding (S.areas staging.old) state.now) }
    ensures reserves { Reserves S.obeys S.areas state.now
        (BringsNew state.now client (TransferData id counter block.now))
        (λ held. IsReady (holding held state.now) client (TransferData id counter block.now))
        (end_by result) staging.old staging.new }
    ensures fit { S.is_fit staging.new }
    ensures cause { IsErrOf result ReserveError.StagingFailed
        → HasRisen (S.fault_count staging.old) (S.fault_count staging.new) }
    ensures faults { S.fault_count staging.old ≤ S.fault_count staging.new }
{
    let length = block.len() as u64;
    let Some(found) = find_taking(&state.transfers.list, client, id, counter, length) else {
        return Ok(());
    };
    let area = Area::Transfer { slot: found.slot };
    staging.put(area, found.header.received, block)?;
    Ok(())
}

/// Reads the bytes of a transfer that can be closed, and makes ready what they are.
pub(crate) fn read<S: Staging>(
    alloc: Global,
    staging: &mut S,
    state: &State,
    client: ClientId,
    id: u32,
) -> Result<Prepared, ReserveError>
    requires fit { S.is_fit staging.old }
    requires sound { IsSound (holding (S.areas staging.old) state.now) }
    ensures reserves { Reserves S.obeys S.areas state.now
        (BringsNew state.now client (TransferExit id))
        (λ held. IfOk result (λ p.
        IsReady (over held (record { state = state.now; prepared = p })) client (TransferExit id)))
        (end_by result) staging.old staging.new }
    ensures fit { S.is_fit staging.new }
    ensures cause { IsErrOf result ReserveError.StagingFailed
        → HasRisen (S.fault_count staging.old) (S.fault_count staging.new) }
    ensures faults { S.fault_count staging.old ≤ S.fault_count staging.new }
{
    let Some(found) = find_ending(&state.transfers.list, client, id) else {
        return Ok(Prepared::Nothing);
    };
    let area = Area::Transfer { slot: found.slot };
    let bytes = staging.get(area, 0, found.header.received as usize)?;
    Ok(Prepared::Verdict(verdict(alloc, bytes.as_slice())?))
}

/// What the bytes of a transfer are.
fn verdict(alloc: Global, bytes: &[u8]) -> Result<ExitVerdict, AllocError>
    ensures { IfOk result (λ v. IsVerdict v (package_reading bytes.now)) }
{
    match read_package(alloc, bytes) {
        Ok(contents) => {
            let contents = stored(alloc, contents.as_slice())?;
            Ok(ExitVerdict::Good(contents))
        }
        Err(fault) => Ok(ExitVerdict::Bad(refusal_of(fault)?)),
    }
}

/// What the node answers where bytes are no package; want of memory is no answer.
fn refusal_of(fault: PackageError) -> Result<Refusal, AllocError>
    ensures { IfOk result
        (λ refusal. (refusal_of fault ≡ refusal) × (fault ≢ PackageError.OutOfMemory)) }
{
    match fault {
        PackageError::PackageInconsistent { place } => Ok(Refusal::PackageInconsistent { place }),
        PackageError::InvalidManifest => Ok(Refusal::InvalidManifest),
        PackageError::OutOfMemory => Err(AllocError),
    }
}

/// The parts of a package with the lengths of their payloads.
fn stored(alloc: Global, parts: &[Part<Span>]) -> Result<Contents, AllocError>
    requires { length parts.now ≤ part_limit }
    ensures { IfOk result (λ contents. contents ≡ map stored_part parts.now) }
{
    let mut stored = Vec::new(alloc);
    for part in parts {
        stored.push(Part {
            manifest: part.manifest.copied(alloc)?,
            payload: part.payload.len,
        })?;
    }
    Ok(Contents::of(stored))
}
