//! The calls on transfers, and what a session changes of them. None takes memory.
ghost use Rattle.std.specs.Prelude.{◌≡◌, ◌≤◌, ◌+◌, length};
ghost use Rattle.ucm_base.specs.Limits.{package_limit};
ghost use Rattle.std.specs.Option.{option_or};
ghost use Rattle.pm_types.specs.Refusals.{first_refusal};
ghost use Rattle.pm_types.specs.Steps.{refused_or};
ghost use Rattle.pm_types.specs.Transfers.{start_refusals, data_refusals, exit_refusals, delete_refusals, grown, in_phase};
ghost use Rattle.transfer_blocks.specs.Table.{IsTable, bad_refusal, cleaned, good_parts, moved, received, stored_header, unless_refused, whole, with_fresh, with_stored, without};

use crate::judge;
use crate::lookup::{find, lowest_free, place_of, place_of_id};
use pm_types::{ExitVerdict, Header, Phase, Refusal, Reply, Transfers};
use ucm_base::ClientId;

/// What TransferStart is refused with, if anything.
pub fn start_refusal(transfers: &Transfers, size: u64) -> Option<Refusal>
    ensures { result ≡ first_refusal
        (start_refusals transfers.now.next_id (length transfers.now.list) size) }
{
    let count = transfers.list.as_slice().len() as u64;
    judge::start_refusal(transfers.next_id, count, size)
}

/// What TransferData of a block of this length is refused with, if anything.
pub fn block_refusal(
    transfers: &Transfers,
    client: ClientId,
    id: u32,
    counter: u64,
    length: u64,
) -> Option<Refusal>
    ensures { result ≡ first_refusal
        (data_refusals (stored_header transfers.now.list client id) counter length) }
{
    match find(&transfers.list, client, id) {
        Some(found) => judge::data_refusal(&found.header, counter, length),
        None => Some(Refusal::InvalidTransferId),
    }
}

/// What TransferExit is refused with before the bytes are read, if anything.
pub fn exit_refusal(transfers: &Transfers, client: ClientId, id: u32) -> Option<Refusal>
    ensures { result ≡ first_refusal
        (exit_refusals (stored_header transfers.now.list client id)) }
{
    match find(&transfers.list, client, id) {
        Some(found) => judge::exit_refusal(&found.header),
        None => Some(Refusal::InvalidTransferId),
    }
}

/// What DeleteTransfer is refused with, if anything.
pub fn delete_refusal(transfers: &Transfers, client: ClientId, id: u32) -> Option<Refusal>
    ensures { result ≡ first_refusal
        (delete_refusals (stored_header transfers.now.list client id)) }
{
    match find(&transfers.list, client, id) {
        Some(found) => judge::delete_refusal(&found.header),
        None => Some(Refusal::InvalidTransferId),
    }
}

/// TransferStart: a transfer of this size begins, in the lowest free slot.
pub fn start(transfers: &mut Transfers, client: ClientId, size: u64) -> Reply
    requires table { IsTable transfers.old }
    ensures reply { result ≡ refused_or (Reply.Started transfers.old.next_id) (first_refusal
        (start_refusals transfers.old.next_id (length transfers.old.list) size)) }
    ensures table { transfers.new
        ≡ unless_refused result transfers.old (with_fresh client size transfers.old) }
    ensures form { IsTable transfers.new }
{
    let list = transfers.list.as_slice();
    let id = transfers.next_id;
    if let Some(refusal) = judge::start_refusal(id, list.len() as u64, size) {
        return Reply::Refused(refusal);
    }
    let slot = lowest_free(list);
    let header = Header {
        id,
        client,
        size,
        received: 0,
        next_counter: 1,
        phase: Phase::Transferring,
    };
    transfers.list.begin(header, slot);
    transfers.next_id += 1;
    Reply::Started { id }
}

/// TransferData: the transfer has a block of this length more.
pub fn block(
    transfers: &mut Transfers,
    client: ClientId,
    id: u32,
    counter: u64,
    length: u64,
) -> Reply
    requires table { IsTable transfers.old }
    ensures reply { result ≡ refused_or Reply.Done (first_refusal
        (data_refusals (stored_header transfers.old.list client id) counter length)) }
    ensures table { transfers.new ≡ unless_refused result transfers.old
        (with_stored id (received length) transfers.old) }
    ensures form { IsTable transfers.new }
{
    let Some(at) = place_of(&transfers.list, client, id) else {
        return Reply::Refused(Refusal::InvalidTransferId);
    };
    let header = at.header;
    if let Some(refusal) = judge::data_refusal(&header, counter, length) {
        return Reply::Refused(refusal);
    }
    transfers.list.set_header(at.place, grown(header, length));
    Reply::Done
}

/// TransferExit: the transfer is whole, and its bytes are what the verdict says of them.
pub fn exit(transfers: &mut Transfers, client: ClientId, id: u32, verdict: ExitVerdict) -> Reply
    requires table { IsTable transfers.old }
    ensures reply { result ≡ refused_or Reply.Done (option_or
        (first_refusal (exit_refusals (stored_header transfers.old.list client id)))
        (bad_refusal verdict)) }
    ensures table { transfers.new ≡ unless_refused result transfers.old
        (with_stored id (whole (good_parts verdict)) transfers.old) }
    ensures form { IsTable transfers.new }
{
    let Some(at) = place_of(&transfers.list, client, id) else {
        return Reply::Refused(Refusal::InvalidTransferId);
    };
    let header = at.header;
    if let Some(refusal) = judge::exit_refusal(&header) {
        return Reply::Refused(refusal);
    }
    match verdict {
        ExitVerdict::Bad(refusal) => Reply::Refused(refusal),
        ExitVerdict::Good(contents) => {
            let whole = in_phase(header, Phase::Transferred);
            transfers.list.set_whole(at.place, whole, contents);
            Reply::Done
        }
    }
}

/// DeleteTransfer: the transfer is gone, and its slot is free.
pub fn delete(transfers: &mut Transfers, client: ClientId, id: u32) -> Reply
    requires table { IsTable transfers.old }
    ensures reply { result ≡ refused_or Reply.Done
        (first_refusal (delete_refusals (stored_header transfers.old.list client id))) }
    ensures table { transfers.new
        ≡ unless_refused result transfers.old (without id transfers.old) }
    ensures form { IsTable transfers.new }
{
    let Some(at) = place_of(&transfers.list, client, id) else {
        return Reply::Refused(Refusal::InvalidTransferId);
    };
    if let Some(refusal) = judge::delete_refusal(&at.header) {
        return Reply::Refused(refusal);
    }
    transfers.list.remove(id);
    Reply::Done
}

/// The transfers that were processed or are in processing are gone, and their slots are free.
pub fn clean(transfers: &mut Transfers)
    requires table { IsTable transfers.old }
    ensures table { transfers.new ≡ cleaned transfers.old }
    ensures form { IsTable transfers.new }
{
    transfers.list.remove_processed();
}

/// The transfer of this id, where it is there, is in this phase.
pub fn set_phase(transfers: &mut Transfers, id: u32, phase: Phase)
    requires table { IsTable transfers.old }
    ensures table { transfers.new ≡ with_stored id (moved phase) transfers.old }
    ensures form { IsTable transfers.new }
{
    if let Some(at) = place_of_id(&transfers.list, id) {
        transfers
            .list
            .set_header(at.place, in_phase(at.header, phase));
    }
}

/// The header after a block of this length.
fn grown(mut header: Header, length: u64) -> Header
    requires received { header.received + length ≤ header.size }
    requires counter { header.next_counter ≤ header.received + 1 }
    requires size { header.size ≤ package_limit }
    ensures { result ≡ grown length header }
{
    header.received += length;
    header.next_counter += 1;
    header
}

/// The header in another phase.
fn in_phase(mut header: Header, phase: Phase) -> Header
    ensures { result ≡ in_phase phase header }
{
    header.phase = phase;
    header
}
