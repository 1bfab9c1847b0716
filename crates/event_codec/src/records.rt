//! Records of a node's journal: its events, as far as recovery needs them without the bytes of packages.
ghost use Rattle.std.specs.Prelude.{◌≡◌, ◌++◌, ◌≤◌, length, IfOk, IfErr, OnOk};
ghost use Rattle.std.specs.List.{AllByRecursion};
ghost use Rattle.wire.specs.Fields.{u8_field};
ghost use Rattle.ucm_base.specs.Limits.{part_limit};
ghost use Rattle.event_codec.specs.Spelling.{◌&◌, HasBits, IsOutside};
ghost use Rattle.event_codec.specs.Clusters.{PartFits};
ghost use Rattle.event_codec.specs.Replies.{CallNoFits, IsClient, ReplyFits};
ghost use Rattle.event_codec.specs.Calls.{CallFits};
ghost use Rattle.event_codec.specs.Records.{called_spelled, exited_spelled, record_spelled, IsOfAKind, RecordFits};
ghost use Rattle.event_codec.specs.UniqueRecords.{unique-record};

use crate::StoredCall;
use crate::clusters::{Several, one_part};
use crate::fields::{put_list, put_many};
use crate::taking::{Put, Take, Unread};
use pm_types::{Contents, Reply, Status};
use std::alloc::{AllocError, Global};
use ucm_base::{CallNo, ClientId, Part};

/// An event of a node, without the bytes of packages.
#[derive(Drop)]
pub enum Record {
    /// A call and its reply; a TransferExit stands here only where it is refused.
    Called {
        client: ClientId,
        no: CallNo,
        call: StoredCall,
        reply: Reply,
    },
    /// An accepted TransferExit, with the parts of the package, one at least.
    Exited {
        client: ClientId,
        no: CallNo,
        id: u32,
        parts: Contents,
    },
    /// A unit of work.
    Worked {
        passed: bool,
        after: Status,
    },
}

/// What stands behind the fields of a call's record: the part of an accepted exit, or nothing.
fn take_behind(
    alloc: Global,
    client: ClientId,
    no: CallNo,
    call: StoredCall,
    reply: Reply,
    bytes: &[u8],
) -> Result<(Record, &[u8]), Unread>
    requires { IsClient client & CallNoFits no & CallFits call & ReplyFits reply }
    ensures taken { IfOk result (λ t. RecordFits t.0
        × (u8_field 1 ++ (called_spelled client no call reply ++ bytes.now)
        ≡ record_spelled t.0 ++ t.1.now)) }
    ensures outside { IfErr result (λ e. e ≡ Unread.Outside
        → IsOutside record_spelled RecordFits
        (u8_field 1 ++ (called_spelled client no call reply ++ bytes.now))) }
{
    match (call, reply) {
        (StoredCall::TransferExit { id }, Reply::Done) => match Part::take(alloc, bytes) {
            Ok((part, rest)) => {
                let parts = one_part(alloc, part)?;
                let record = Record::Exited {
                    client,
                    no,
                    id,
                    parts,
                };
                Ok((record, rest))
            }
            Err(unread) => Err(unread),
        },
        (StoredCall::TransferExit { .. }, Reply::Started { .. } | Reply::Synced(_)) => {
            Err(Unread::Outside)
        }
        (call, reply) => {
            let record = Record::Called {
                client,
                no,
                call,
                reply,
            };
            Ok((record, bytes))
        }
    }
}

/// What stands behind the kind of a call's record.
fn take_called(alloc: Global, bytes: &[u8]) -> Result<(Record, &[u8]), Unread>
    ensures taken { IfOk result (λ t. RecordFits t.0
        × (u8_field 1 ++ bytes.now ≡ record_spelled t.0 ++ t.1.now)) }
    ensures outside { IfErr result (λ e. e ≡ Unread.Outside
        → IsOutside record_spelled RecordFits (u8_field 1 ++ bytes.now)) }
{
    match <(ClientId, (CallNo, (StoredCall, Reply)))>::take(alloc, bytes) {
        Ok(((client, (no, (call, reply))), rest)) => {
            take_behind(alloc, client, no, call, reply, rest)
        }
        Err(unread) => Err(unread),
    }
}

/// What stands behind the kind of an accepted exit of several parts.
fn take_exited(alloc: Global, bytes: &[u8]) -> Result<(Record, &[u8]), Unread>
    ensures taken { IfOk result (λ t. RecordFits t.0
        × (u8_field 3 ++ bytes.now ≡ record_spelled t.0 ++ t.1.now)) }
    ensures outside { IfErr result (λ e. e ≡ Unread.Outside
        → IsOutside record_spelled RecordFits (u8_field 3 ++ bytes.now)) }
{
    match <(ClientId, (CallNo, (u32, Several)))>::take(alloc, bytes) {
        Ok(((client, (no, (id, several))), rest)) => {
            let record = Record::Exited {
                client,
                no,
                id,
                parts: several.contents,
            };
            Ok((record, rest))
        }
        Err(unread) => Err(unread),
    }
}

/// What stands behind the kind of a unit's record.
fn take_worked(alloc: Global, bytes: &[u8]) -> Result<(Record, &[u8]), Unread>
    ensures taken { IfOk result (λ t. RecordFits t.0
        × (u8_field 2 ++ bytes.now ≡ record_spelled t.0 ++ t.1.now)) }
    ensures outside { IfErr result (λ e. e ≡ Unread.Outside
        → IsOutside record_spelled RecordFits (u8_field 2 ++ bytes.now)) }
{
    match <(bool, Status)>::take(alloc, bytes) {
        Ok(((passed, after), rest)) => Ok((Record::Worked { passed, after }, rest)),
        Err(unread) => Err(unread),
    }
}

impl Take for Record {
    ghost spelled = { record_spelled };

    ghost fits = { RecordFits };

    ghost unique = { unique-record };

    fn take(alloc: Global, bytes: &[u8]) -> Result<(Record, &[u8]), Unread> {
        let (kind, rest) = u8::take(alloc, bytes)?;
        match kind {
            1 => take_called(alloc, rest),
            2 => take_worked(alloc, rest),
            3 => take_exited(alloc, rest),
            _ => Err(Unread::Outside),
        }
    }
}

/// Appends an accepted exit.
fn put_exited(
    alloc: Global,
    into: &mut Vec<u8>,
    client: ClientId,
    no: CallNo,
    id: u32,
    parts: &[Part<u32>],
) -> Result<(), AllocError>
    requires { length parts.now ≤ part_limit }
    ensures appended { OnOk result
        (into.new.items ≡ into.old.items ++ exited_spelled client no id parts.now) }
    ensures form { OnOk result (IsClient client & CallNoFits no & HasBits 32 id
        & AllByRecursion PartFits parts.now) }
{
    if parts.len() == 1 {
        1u8.put(alloc, into)?;
        client.put(alloc, into)?;
        no.put(alloc, into)?;
        StoredCall::TransferExit { id }.put(alloc, into)?;
        Reply::Done.put(alloc, into)?;
        put_many(alloc, into, parts)
    } else {
        3u8.put(alloc, into)?;
        client.put(alloc, into)?;
        no.put(alloc, into)?;
        id.put(alloc, into)?;
        put_list(alloc, into, parts)
    }
}

/// Appends the spelling of a record. Where memory is wanting, a part of it may stand there.
pub fn put_record(alloc: Global, into: &mut Vec<u8>, record: &Record) -> Result<(), AllocError>
    requires { IsOfAKind «record».now }
    ensures appended { OnOk result
        (into.new.items ≡ into.old.items ++ record_spelled «record».now) }
    ensures form { OnOk result (RecordFits «record».now) }
{
    match record {
        Record::Called {
            client,
            no,
            call,
            reply,
        } => {
            1u8.put(alloc, into)?;
            client.put(alloc, into)?;
            no.put(alloc, into)?;
            call.put(alloc, into)?;
            reply.put(alloc, into)
        }
        Record::Exited {
            client,
            no,
            id,
            parts,
        } => put_exited(alloc, into, *client, *no, *id, parts.as_slice()),
        Record::Worked { passed, after } => {
            2u8.put(alloc, into)?;
            passed.put(alloc, into)?;
            after.put(alloc, into)
        }
    }
}
