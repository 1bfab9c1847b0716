//! What a call that was answered does to a stored state.
ghost use Rattle.std.specs.Prelude.{◌≡◌, ◌<◌, [], None, OnOk, length, replicate};
ghost use Rattle.ucm_base.specs.Limits.{entry_limit};
ghost use Rattle.pm_types.specs.declared.calls.Call.TheVariants as calls;
ghost use Rattle.pm_types.specs.declared.history.Happened.TheVariants.{Numbered};
ghost use Rattle.pm_types.specs.declared.replies.Reply.TheVariants.{Done};
ghost use Rattle.pm_types.specs.Sessions.{put_back, take_up};
ghost use Rattle.pm_types.specs.Steps.{accept, answer_with, execute, name_of, reply_code, with_entry, with_kept};
ghost use Rattle.pm_types.specs.Transfers.{delete, start, take_block};
ghost use Rattle.transfer_blocks.specs.Table.{IsTable, with_slots};
ghost use Rattle.node_core.specs.Core.{table_of};
ghost use Rattle.event_codec.specs.declared.calls.StoredCall.TheVariants.{DeleteTransfer, TransferData, TransferExit, TransferStart};
ghost use Rattle.node_recovery.specs.Allowed.{MayAnswer, table_refusal};
ghost use Rattle.node_recovery.specs.Folds.{call_of};

use crate::sessions::{lead, put_back, take_up};
use event_codec::StoredCall;
use pm_types::{CallName, Contents, ExitVerdict, Happened, Kept, Reply, State};
use std::alloc::{AllocError, Global};
use transfer_blocks::table;
use ucm_base::{CallNo, ClientId};

/// Does what a call does that has this reply, keeps its number and the reply, and writes its line.
pub(crate) fn do_call(
    alloc: Global,
    state: &mut State,
    client: ClientId,
    no: CallNo,
    call: &StoredCall,
    reply: &Reply,
) -> Result<(), AllocError>
    requires table { IsTable (table_of state.old) }
    requires entries { state.old.entries < entry_limit }
    requires may { MayAnswer state.old client call.now reply.now }
    ensures { OnOk result (state.new ≡ execute (with_slots state.old.transfers []) state.old
        client no (call_of call.now) reply.now) }
{
    answer(alloc, state, client, call, reply)?;
    enter(state, client, no, name_of(call), reply);
    Ok(())
}

/// Does what an accepted exit does whose package has these parts, keeps its number and writes its line.
pub(crate) fn close(state: &mut State, client: ClientId, no: CallNo, id: u32, parts: Contents)
    requires table { IsTable (table_of state.old) }
    requires entries { state.old.entries < entry_limit }
    requires may { table_refusal state.old client (TransferExit id) ≡ None }
    ensures { state.new ≡ execute (with_slots state.old.transfers parts) state.old
        client no (calls.TransferExit id) Done }
{
    exit(state, client, id, parts);
    enter(state, client, no, CallName::TransferExit, &Reply::Done);
}

/// Does what a call does that has this reply; one that is refused does nothing.
fn answer(
    alloc: Global,
    state: &mut State,
    client: ClientId,
    call: &StoredCall,
    reply: &Reply,
) -> Result<(), AllocError>
    requires table { IsTable (table_of state.old) }
    requires may { MayAnswer state.old client call.now reply.now }
    ensures answered { OnOk result (state.new ≡ answer_with (with_slots state.old.transfers [])
        state.old client (call_of call.now) reply.now) }
{
    match reply {
        Reply::Refused(_) => Ok(()),
        _ => accept(alloc, state, client, call),
    }
}

/// Does what an accepted call does.
fn accept(
    alloc: Global,
    state: &mut State,
    client: ClientId,
    call: &StoredCall,
) -> Result<(), AllocError>
    requires table { IsTable (table_of state.old) }
    requires may { table_refusal state.old client call.now ≡ None }
    ensures { OnOk result (state.new ≡ accept (with_slots state.old.transfers [])
        state.old client (call_of call.now)) }
{
    match *call {
        StoredCall::Sync => {}
        StoredCall::TransferStart { size } => start(state, client, size),
        StoredCall::TransferData {
            id,
            counter,
            length,
        } => take_block(state, client, id, counter, length),
        StoredCall::TransferExit { id } => exit(state, client, id, Contents::none(alloc)),
        StoredCall::DeleteTransfer { id } => delete(state, client, id),
        StoredCall::ProcessSwPackage { id, tag } => {
            take_up(alloc, state, client, id, tag)?;
            lead(state, call);
        }
        StoredCall::Cancel { id } => {
            put_back(state, id);
            lead(state, call);
        }
        StoredCall::Activate
        | StoredCall::Finish
        | StoredCall::Rollback
        | StoredCall::RevertProcessedSwPackages => lead(state, call),
    }
    Ok(())
}

/// TransferStart, which is accepted.
fn start(state: &mut State, client: ClientId, size: u64)
    requires table { IsTable (table_of state.old) }
    requires may { table_refusal state.old client (TransferStart size) ≡ None }
    ensures { state.new ≡ start (with_slots state.old.transfers []) state.old client size }
{
    table::start(&mut state.transfers, client, size);
}

/// TransferData, which is accepted.
fn take_block(state: &mut State, client: ClientId, id: u32, counter: u64, length: u32)
    requires table { IsTable (table_of state.old) }
    requires may { table_refusal state.old client (TransferData id counter length) ≡ None }
    ensures { state.new ≡ take_block (with_slots state.old.transfers []) state.old id
        (replicate length 0) }
{
    table::block(&mut state.transfers, client, id, counter, u64::from(length));
}

/// TransferExit, which is accepted, of a package of these parts.
fn exit(state: &mut State, client: ClientId, id: u32, parts: Contents)
    requires table { IsTable (table_of state.old) }
    requires may { table_refusal state.old client (TransferExit id) ≡ None }
    ensures { state.new
        ≡ accept (with_slots state.old.transfers parts) state.old client (calls.TransferExit id) }
{
    table::exit(&mut state.transfers, client, id, ExitVerdict::Good(parts));
}

/// DeleteTransfer, which is accepted.
fn delete(state: &mut State, client: ClientId, id: u32)
    requires table { IsTable (table_of state.old) }
    requires may { table_refusal state.old client (DeleteTransfer id) ≡ None }
    ensures { state.new ≡ delete (with_slots state.old.transfers []) state.old id }
{
    table::delete(&mut state.transfers, client, id);
}

/// Keeps a call's number and its reply, and writes its line.
fn enter(state: &mut State, client: ClientId, no: CallNo, call: CallName, reply: &Reply)
    requires entries { state.old.entries < entry_limit }
    ensures { state.new ≡ with_entry (Numbered client no call (reply_code reply.now))
        (with_kept client no reply.now state.old) }
{
    state.last[client.number() as usize] = Some(Kept { no, reply: *reply });
    let happened = Happened::Numbered {
        client,
        no,
        call,
        refusal: reply.code(),
    };
    state.lines.push(state.entries, happened);
    state.entries += 1;
}

/// Which call it is.
fn name_of(call: &StoredCall) -> CallName
    ensures { result ≡ name_of (call_of call.now) }
{
    match call {
        StoredCall::Sync => CallName::Sync,
        StoredCall::TransferStart { .. } => CallName::TransferStart,
        StoredCall::TransferData { .. } => CallName::TransferData,
        StoredCall::TransferExit { .. } => CallName::TransferExit,
        StoredCall::DeleteTransfer { .. } => CallName::DeleteTransfer,
        StoredCall::ProcessSwPackage { .. } => CallName::ProcessSwPackage,
        StoredCall::Activate => CallName::Activate,
        StoredCall::Finish => CallName::Finish,
        StoredCall::Rollback => CallName::Rollback,
        StoredCall::RevertProcessedSwPackages => CallName::RevertProcessedSwPackages,
        StoredCall::Cancel { .. } => CallName::Cancel,
    }
}
