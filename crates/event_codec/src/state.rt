//! A node's state.
ghost use Rattle.std.specs.Prelude.{◌≡◌, ◌++◌, ◌≤◌, ◌<◌, length, IfSome, OnOk};
ghost use Rattle.std.specs.List.{AllByRecursion, flat_map};
ghost use Rattle.ucm_base.specs.Limits.{client_limit, entry_limit, line_limit, transfer_limit};
ghost use Rattle.wire.specs.Fields.{u32_field, u64_field};
ghost use Rattle.event_codec.specs.Spelling.{◌⌢◌, Any, ListFits, ManyFit, OptionFits, list_spelled, option_spelled};
ghost use Rattle.event_codec.specs.Replies.{end_mark_spelled, EndMarkFits};
ghost use Rattle.event_codec.specs.States.{HasSpelling, IsId, id_or_0, phase_spelled, header_spelled, HeaderFits, transfer_spelled, TransferFits, session_spelled, SessionFits, kept_spelled, KeptFits, LineFits, lines_spelled, state_spelled, StateFits};
ghost use Rattle.event_codec.specs.Unique.{unique-list, unique-many, unique-option};
ghost use Rattle.event_codec.specs.UniqueReplies.{unique-end_mark};
ghost use Rattle.event_codec.specs.UniqueStates.{unique-phase, unique-header, unique-transfer, unique-id, unique-session, unique-kept, unique-entries, unique-state};

use crate::fields::{put_list, put_many, take_list, take_many};
use crate::taking::{Put, Take, Unread};
use pm_types::{
    Changes, Clusters, Contents, EndMark, Header, Kept, NewestLines, Outcome, Phase, Reply,
    Session, State, Status, StoredTransfer, TransferList, Transfers,
};
use std::alloc::{AllocError, Global};
use ucm_base::limits::{CLIENT_LIMIT, TRANSFER_LIMIT};
use ucm_base::{CallNo, ClientId};

/// The entries of a node's history, 2^60.
const ENTRY_LIMIT: u64 = 1_152_921_504_606_846_976;

impl Take for Phase {
    ghost spelled = { phase_spelled };

    ghost fits = { Any };

    ghost unique = { unique-phase };

    fn take(alloc: Global, bytes: &[u8]) -> Result<(Phase, &[u8]), Unread> {
        let (code, rest) = u8::take(alloc, bytes)?;
        match code {
            0 => Ok((Phase::Transferring, rest)),
            1 => Ok((Phase::Transferred, rest)),
            2 => Ok((Phase::Processing, rest)),
            3 => Ok((Phase::Processed, rest)),
            _ => Err(Unread::Outside),
        }
    }
}

impl Put for Phase {
    fn put(&self, alloc: Global, into: &mut Vec<u8>) -> Result<(), AllocError> {
        let code: u8 = match self {
            Phase::Transferring => 0,
            Phase::Transferred => 1,
            Phase::Processing => 2,
            Phase::Processed => 3,
        };
        code.put(alloc, into)
    }
}

impl Take for Header {
    ghost spelled = { header_spelled };

    ghost fits = { HeaderFits };

    ghost unique = { unique-header };

    fn take(alloc: Global, bytes: &[u8]) -> Result<(Header, &[u8]), Unread> {
        match <(u32, (ClientId, (u64, (u64, (u64, Phase)))))>::take(alloc, bytes) {
            Ok(((id, (client, (size, (received, (next_counter, phase))))), rest)) => {
                let header = Header {
                    id,
                    client,
                    size,
                    received,
                    next_counter,
                    phase,
                };
                Ok((header, rest))
            }
            Err(unread) => Err(unread),
        }
    }
}

impl Put for Header {
    fn put(&self, alloc: Global, into: &mut Vec<u8>) -> Result<(), AllocError> {
        self.id.put(alloc, into)?;
        self.client.put(alloc, into)?;
        self.size.put(alloc, into)?;
        self.received.put(alloc, into)?;
        self.next_counter.put(alloc, into)?;
        self.phase.put(alloc, into)
    }
}

impl Take for StoredTransfer {
    ghost spelled = { transfer_spelled };

    ghost fits = { TransferFits };

    ghost unique = { unique-transfer };

    fn take(alloc: Global, bytes: &[u8]) -> Result<(StoredTransfer, &[u8]), Unread> {
        match <(Header, (u8, Contents))>::take(alloc, bytes) {
            Ok(((header, (slot, contents)), rest)) => {
                let transfer = StoredTransfer {
                    header,
                    slot,
                    contents,
                };
                Ok((transfer, rest))
            }
            Err(unread) => Err(unread),
        }
    }
}

impl Put for StoredTransfer {
    fn put(&self, alloc: Global, into: &mut Vec<u8>) -> Result<(), AllocError> {
        self.header.put(alloc, into)?;
        self.slot.put(alloc, into)?;
        self.contents.put(alloc, into)
    }
}

impl Take for TransferList {
    ghost spelled = { list_spelled transfer_spelled };

    ghost fits = { ListFits TransferFits transfer_limit };

    ghost unique = { unique-list transfer_limit unique-transfer };

    fn take(alloc: Global, bytes: &[u8]) -> Result<(TransferList, &[u8]), Unread> {
        match take_list::<StoredTransfer>(alloc, bytes, TRANSFER_LIMIT as u8) {
            Ok((transfers, rest)) => Ok((TransferList::of(transfers)?, rest)),
            Err(unread) => Err(unread),
        }
    }
}

impl Put for TransferList {
    fn put(&self, alloc: Global, into: &mut Vec<u8>) -> Result<(), AllocError> {
        put_list(alloc, into, self.as_slice())
    }
}

/// The id in processing, spelled as a number that is 0 where there is none.
#[derive(Clone, Copy)]
struct InProcessing {
    id: Option<u32>,
}

impl Take for InProcessing {
    ghost spelled = { λ p. u32_field (id_or_0 p.id) };

    ghost fits = { λ p. OptionFits IsId p.id };

    ghost unique = { unique-id };

    fn take(alloc: Global, bytes: &[u8]) -> Result<(InProcessing, &[u8]), Unread> {
        let (id, rest) = u32::take(alloc, bytes)?;
        if id == 0 {
            Ok((InProcessing { id: None }, rest))
        } else {
            Ok((InProcessing { id: Some(id) }, rest))
        }
    }
}

impl Take for Session {
    ghost spelled = { session_spelled };

    ghost fits = { SessionFits };

    ghost unique = { unique-session };

    fn take(alloc: Global, bytes: &[u8]) -> Result<(Session, &[u8]), Unread> {
        type Fields = (
            ClientId,
            (
                u32,
                (
                    Clusters,
                    (Changes, (InProcessing, (u32, (u8, Option<Outcome>)))),
                ),
            ),
        );
        match Fields::take(alloc, bytes) {
            Ok((fields, rest)) => {
                let (owner, (tag, (saved, (changes, (processing, work))))) = fields;
                let (units_done, (verified, outcome)) = work;
                let session = Session {
                    owner,
                    tag,
                    saved,
                    changes,
                    processing: processing.id,
                    units_done,
                    verified,
                    outcome,
                };
                Ok((session, rest))
            }
            Err(unread) => Err(unread),
        }
    }
}

/// Appends a session.
fn put_session(alloc: Global, into: &mut Vec<u8>, session: &Session) -> Result<(), AllocError>
    requires saved { length session.now.saved ≤ 255 }
    requires processing { IfSome session.now.processing (λ id. 0 < id) }
    ensures appended { OnOk result
        (into.new.items ≡ into.old.items ++ session_spelled session.now) }
    ensures form { OnOk result (SessionFits session.now) }
{
    session.owner.put(alloc, into)?;
    session.tag.put(alloc, into)?;
    put_list(alloc, into, session.saved.as_slice())?;
    session.changes.put(alloc, into)?;
    session.processing.unwrap_or(0).put(alloc, into)?;
    session.units_done.put(alloc, into)?;
    session.verified.put(alloc, into)?;
    session.outcome.put(alloc, into)
}

impl Take for Kept {
    ghost spelled = { kept_spelled };

    ghost fits = { KeptFits };

    ghost unique = { unique-kept };

    fn take(alloc: Global, bytes: &[u8]) -> Result<(Kept, &[u8]), Unread> {
        match <(CallNo, Reply)>::take(alloc, bytes) {
            Ok(((no, reply), rest)) => Ok((Kept { no, reply }, rest)),
            Err(unread) => Err(unread),
        }
    }
}

impl Put for Kept {
    fn put(&self, alloc: Global, into: &mut Vec<u8>) -> Result<(), AllocError> {
        self.no.put(alloc, into)?;
        self.reply.put(alloc, into)
    }
}

impl Take for [Option<Kept>; CLIENT_LIMIT as usize] {
    ghost spelled = { flat_map (option_spelled kept_spelled) };

    ghost fits = { ManyFit (OptionFits KeptFits) client_limit };

    ghost unique = { unique-many client_limit (unique-option unique-kept) };

    fn take(alloc: Global, bytes: &[u8]) -> Result<(Self, &[u8]), Unread> {
        match take_many::<Option<Kept>>(alloc, bytes, CLIENT_LIMIT as usize) {
            Ok((items, rest)) => {
                let mut last = [None; CLIENT_LIMIT as usize];
                last.copy_from_slice(items.as_slice());
                Ok((last, rest))
            }
            Err(unread) => Err(unread),
        }
    }
}

impl Take for [Option<EndMark>; CLIENT_LIMIT as usize] {
    ghost spelled = { flat_map (option_spelled end_mark_spelled) };

    ghost fits = { ManyFit (OptionFits EndMarkFits) client_limit };

    ghost unique = { unique-many client_limit (unique-option unique-end_mark) };

    fn take(alloc: Global, bytes: &[u8]) -> Result<(Self, &[u8]), Unread> {
        match take_many::<Option<EndMark>>(alloc, bytes, CLIENT_LIMIT as usize) {
            Ok((items, rest)) => {
                let mut ended = [None; CLIENT_LIMIT as usize];
                ended.copy_from_slice(items.as_slice());
                Ok((ended, rest))
            }
            Err(unread) => Err(unread),
        }
    }
}

/// The count of entries, at most 2^60.
#[derive(Clone, Copy)]
struct Entries {
    count: u64,
}

impl Take for Entries {
    ghost spelled = { λ e. u64_field e.count };

    ghost fits = { λ e. e.count ≤ entry_limit };

    ghost unique = { unique-entries };

    fn take(alloc: Global, bytes: &[u8]) -> Result<(Entries, &[u8]), Unread> {
        let (count, rest) = u64::take(alloc, bytes)?;
        if count > ENTRY_LIMIT {
            return Err(Unread::Outside);
        }
        Ok((Entries { count }, rest))
    }
}

impl Take for State {
    ghost spelled = { state_spelled };

    ghost fits = { StateFits };

    ghost unique = { unique-state };

    fn take(alloc: Global, bytes: &[u8]) -> Result<(State, &[u8]), Unread> {
        type Lasts = [Option<Kept>; CLIENT_LIMIT as usize];
        type Ends = [Option<EndMark>; CLIENT_LIMIT as usize];
        type History = (Lasts, (Ends, (Entries, NewestLines)));
        type Fields = (
            Status,
            (u32, (Clusters, (TransferList, (Option<Session>, History)))),
        );
        match Fields::take(alloc, bytes) {
            Ok((fields, rest)) => {
                let (status, (next_id, (running, (transfers, (session, history))))) = fields;
                let (last, (ended, (entries, lines))) = history;
                let state = State {
                    status,
                    transfers: Transfers::of(next_id, transfers),
                    running,
                    session,
                    last,
                    ended,
                    entries: entries.count,
                    lines,
                };
                Ok((state, rest))
            }
            Err(unread) => Err(unread),
        }
    }
}

/// Appends the option of a session.
fn put_session_if_any(
    alloc: Global,
    into: &mut Vec<u8>,
    session: &Option<Session>,
) -> Result<(), AllocError>
    requires saved { IfSome session.now (λ x. length x.saved ≤ 255) }
    requires processing { IfSome session.now (λ x. IfSome x.processing (λ id. 0 < id)) }
    ensures appended { OnOk result
        (into.new.items ≡ into.old.items ++ option_spelled session_spelled session.now) }
    ensures form { OnOk result (OptionFits SessionFits session.now) }
{
    match session {
        None => 0u8.put(alloc, into),
        Some(session) => {
            1u8.put(alloc, into)?;
            put_session(alloc, into, session)
        }
    }
}

/// Appends what is kept of each client.
fn put_clients(
    alloc: Global,
    into: &mut Vec<u8>,
    last: &[Option<Kept>],
    ended: &[Option<EndMark>],
) -> Result<(), AllocError>
    ensures appended { OnOk result (into.new.items ≡ into.old.items
        ++ (flat_map (option_spelled kept_spelled) last.now
        ⌢ flat_map (option_spelled end_mark_spelled) ended.now)) }
    ensures last { OnOk result (AllByRecursion (OptionFits KeptFits) last.now) }
    ensures ended { OnOk result (AllByRecursion (OptionFits EndMarkFits) ended.now) }
{
    put_many(alloc, into, last)?;
    put_many(alloc, into, ended)
}

/// Appends the count of entries, and the newest lines.
fn put_history(
    alloc: Global,
    into: &mut Vec<u8>,
    entries: u64,
    lines: &NewestLines,
) -> Result<(), AllocError>
    ensures appended { OnOk result
        (into.new.items ≡ into.old.items ++ (u64_field entries ⌢ lines_spelled lines.now)) }
    ensures form { OnOk result (ListFits LineFits line_limit lines.now) }
{
    entries.put(alloc, into)?;
    lines.put(alloc, into)
}

/// Appends the spelling of a state. Where memory is wanting, a part of it may stand there.
pub fn put_state(alloc: Global, into: &mut Vec<u8>, state: &State) -> Result<(), AllocError>
    requires { HasSpelling state.now }
    ensures appended { OnOk result
        (into.new.items ≡ into.old.items ++ state_spelled state.now) }
    ensures form { OnOk result (StateFits state.now) }
{
    state.status.put(alloc, into)?;
    state.transfers.next_id.put(alloc, into)?;
    put_list(alloc, into, state.running.as_slice())?;
    state.transfers.list.put(alloc, into)?;
    put_session_if_any(alloc, into, &state.session)?;
    put_clients(alloc, into, &state.last, &state.ended)?;
    put_history(alloc, into, state.entries, &state.lines)
}
