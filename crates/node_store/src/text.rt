//! The texts of records.
ghost use Rattle.std.specs.Prelude.{◌≡◌, ◌+◌, ◌≤◌, true, IfOk, OnOk, length};
ghost use Rattle.event_codec.specs.declared.records.Record.TheVariants.{Worked};
ghost use Rattle.event_codec.specs.Records.{IsOfAKind, IsWithoutParts, RecordFits, record_spelled};
ghost use Rattle.node_recovery.specs.Recorded.{parts_brought, record_of, stored_call};
ghost use Rattle.checkpoint.specs.Halves.{layout_2};

use event_codec::{Record, StoredCall, put_record};
use node_core::Ready;
use pm_types::{Call, Contents, Reply, Status};
use std::alloc::{AllocError, Global};
use ucm_base::{CallNo, ClientId, Part};

/// The most bytes of a record.
const RECORD_LONGEST: usize = 7_340_026;

/// The most parts of a package.
const PART_LIMIT: usize = 16;

/// The text of the record of a call that was answered so.
pub(crate) fn text_of(
    alloc: Global,
    ready: &Ready,
    client: ClientId,
    no: CallNo,
    call: &Call,
    reply: &Reply,
) -> Result<Vec<u8>, AllocError>
    ensures text { IfOk result (λ text. text.items
        ≡ record_spelled (record_of ready.now client no call.now reply.now)) }
    ensures fits { OnOk result (RecordFits (record_of ready.now client no call.now reply.now)) }
    ensures short { IfOk result (λ text. length text.items + 6 ≤ layout_2.journal_len) }
{
    let record = record_of(alloc, ready, client, no, call, reply)?;
    spelled(alloc, &record)
}

/// The text of the record of a unit of work.
pub(crate) fn text_of_unit(
    alloc: Global,
    passed: bool,
    after: Status,
) -> Result<Vec<u8>, AllocError>
    ensures text { IfOk result (λ text. text.items ≡ record_spelled (Worked passed after)) }
    ensures fits { OnOk result (RecordFits (Worked passed after)) }
    ensures short { IfOk result (λ text. length text.items + 6 ≤ layout_2.journal_len) }
{
    spelled(alloc, &Record::Worked { passed, after })
}

/// The text of a record; one that is of no kind, or that a journal has no room for, is answered as want of memory.
fn spelled(alloc: Global, record: &Record) -> Result<Vec<u8>, AllocError>
    ensures text { IfOk result (λ text. text.items ≡ record_spelled «record».now) }
    ensures fits { OnOk result (RecordFits «record».now) }
    ensures short { IfOk result (λ text. length text.items + 6 ≤ layout_2.journal_len) }
{
    if !is_of_a_kind(record) {
        return Err(AllocError);
    }
    let mut text = Vec::new(alloc);
    put_record(alloc, &mut text, record)?;
    if text.len() > RECORD_LONGEST {
        return Err(AllocError);
    }
    Ok(text)
}

/// Whether a record is of a kind that there is.
fn is_of_a_kind(record: &Record) -> bool
    ensures { result ≡ true → IsOfAKind «record».now }
{
    match record {
        Record::Called { call, reply, .. } => is_without_parts(call, reply),
        Record::Exited { parts, .. } => !parts.as_slice().is_empty(),
        Record::Worked { .. } => true,
    }
}

/// Whether a call with this reply brings no parts.
fn is_without_parts(call: &StoredCall, reply: &Reply) -> bool
    ensures { result ≡ true → IsWithoutParts call.now reply.now }
{
    match call {
        StoredCall::TransferExit { .. } => matches!(reply, Reply::Refused(_)),
        _ => true,
    }
}

/// The record of a call that was answered so; that of an accepted exit has the parts of its package.
fn record_of(
    alloc: Global,
    ready: &Ready,
    client: ClientId,
    no: CallNo,
    call: &Call,
    reply: &Reply,
) -> Result<Record, AllocError>
    ensures { IfOk result (λ r. r ≡ record_of ready.now client no call.now reply.now) }
{
    match (call, reply) {
        (Call::TransferExit { id }, Reply::Done) => Ok(Record::Exited {
            client,
            no,
            id: *id,
            parts: brought(alloc, ready)?,
        }),
        _ => Ok(Record::Called {
            client,
            no,
            call: stored(call),
            reply: *reply,
        }),
    }
}

/// A copy of the parts that the verdict names which is ready.
fn brought(alloc: Global, ready: &Ready) -> Result<Contents, AllocError>
    ensures { IfOk result (λ parts. parts ≡ parts_brought ready.now) }
{
    let mut parts = Vec::new(alloc);
    for part in ready.brought() {
        let manifest = part.manifest.copied(alloc)?;
        parts.push(Part {
            manifest,
            payload: part.payload,
        })?;
    }
    if parts.len() > PART_LIMIT {
        return Err(AllocError);
    }
    Ok(Contents::of(parts))
}

/// The call, with the length of its block in place of the block.
fn stored(call: &Call) -> StoredCall
    ensures { result ≡ stored_call call.now }
{
    match call {
        Call::Sync => StoredCall::Sync,
        Call::TransferStart { size } => StoredCall::TransferStart { size: *size },
        Call::TransferData { id, counter, bytes } => StoredCall::TransferData {
            id: *id,
            counter: *counter,
            length: bytes.as_slice().len() as u32,
        },
        Call::TransferExit { id } => StoredCall::TransferExit { id: *id },
        Call::DeleteTransfer { id } => StoredCall::DeleteTransfer { id: *id },
        Call::ProcessSwPackage { id, tag } => StoredCall::ProcessSwPackage { id: *id, tag: *tag },
        Call::Activate => StoredCall::Activate,
        Call::Finish => StoredCall::Finish,
        Call::Rollback => StoredCall::Rollback,
        Call::RevertProcessedSwPackages => StoredCall::RevertProcessedSwPackages,
        Call::Cancel { id } => StoredCall::Cancel { id: *id },
    }
}
