//! What clients do: numbered calls, units of work and queries.
ghost use Rattle.std.specs.Prelude.{◌≡◌, IfOk, Ok, Err, map};
ghost use Rattle.scenario.specs.Readings.{IsRead};
ghost use Rattle.scenario.specs.Events.{call_alone, call_in, call_meant, call_with, data_call, history_query, process_call, progress_query, query_alone, query_in};

use crate::attachments::Attachments;
use crate::blocks::{BlockSource, block, size};
use crate::why::{Why, WordError};
use crate::words::{number, small};
use pm_types::{Call, Query};
use std::alloc::{AllocError, Global};
use ucm_base::{CallNo, ClientId, NodeId};

/// A call as its words give it, with its block's bytes not spelled out yet.
#[derive(Drop)]
pub enum ScriptCall {
    Sync,
    TransferStart {
        size: u64,
    },
    TransferData {
        id: u32,
        counter: u64,
        block: BlockSource,
    },
    TransferExit {
        id: u32,
    },
    DeleteTransfer {
        id: u32,
    },
    ProcessSwPackage {
        id: u32,
        tag: u32,
    },
    Activate,
    Finish,
    Rollback,
    RevertProcessedSwPackages,
    Cancel {
        id: u32,
    },
}

/// What a client does.
#[derive(Drop)]
pub enum Event {
    Call {
        client: ClientId,
        no: CallNo,
        call: ScriptCall,
    },
    Work {
        client: ClientId,
    },
    Ask {
        client: ClientId,
        query: Query,
    },
}

/// What a client does on a node.
#[derive(Drop)]
pub struct NodeEvent {
    pub node: NodeId,
    pub event: Event,
}

/// What a client does at a line.
#[derive(Drop)]
pub struct EventLine {
    /// The line's number, from 1.
    pub line: u64,
    pub event: Event,
}

/// The call that a script's call stands for, among the attached bytes.
pub fn call_of(alloc: Global, call: &ScriptCall, attached: &[u8]) -> Result<Call, AllocError>
    ensures { IfOk result (λ made. made ≡ call_meant attached.now call.now) }
{
    match call {
        ScriptCall::TransferData { id, counter, block } => {
            let bytes = block.make(alloc, attached)?;
            Ok(Call::TransferData {
                id: *id,
                counter: *counter,
                bytes,
            })
        }
        ScriptCall::Sync => Ok(Call::Sync),
        ScriptCall::TransferStart { size } => Ok(Call::TransferStart { size: *size }),
        ScriptCall::TransferExit { id } => Ok(Call::TransferExit { id: *id }),
        ScriptCall::DeleteTransfer { id } => Ok(Call::DeleteTransfer { id: *id }),
        ScriptCall::ProcessSwPackage { id, tag } => Ok(Call::ProcessSwPackage {
            id: *id,
            tag: *tag,
        }),
        ScriptCall::Activate => Ok(Call::Activate),
        ScriptCall::Finish => Ok(Call::Finish),
        ScriptCall::Rollback => Ok(Call::Rollback),
        ScriptCall::RevertProcessedSwPackages => Ok(Call::RevertProcessedSwPackages),
        ScriptCall::Cancel { id } => Ok(Call::Cancel { id: *id }),
    }
}

/// A call of one word.
fn named_call(name: &[u8]) -> Result<ScriptCall, Why>
    ensures { result ≡ call_alone name.now }
{
    if name == b"sync".as_slice() {
        Ok(ScriptCall::Sync)
    } else if name == b"activate".as_slice() {
        Ok(ScriptCall::Activate)
    } else if name == b"finish".as_slice() {
        Ok(ScriptCall::Finish)
    } else if name == b"rollback".as_slice() {
        Ok(ScriptCall::Rollback)
    } else if name == b"revert".as_slice() {
        Ok(ScriptCall::RevertProcessedSwPackages)
    } else {
        Err(Why::Value)
    }
}

/// A call of two words.
fn call_with_word(attachments: &Attachments, name: &[u8], word: &[u8]) -> Result<ScriptCall, Why>
    ensures { result ≡ call_with attachments.now name.now word.now }
{
    if name == b"start".as_slice() {
        let size = size(attachments, word)?;
        Ok(ScriptCall::TransferStart { size })
    } else if name == b"exit".as_slice() {
        let id = small(word)?;
        Ok(ScriptCall::TransferExit { id })
    } else if name == b"delete".as_slice() {
        let id = small(word)?;
        Ok(ScriptCall::DeleteTransfer { id })
    } else if name == b"cancel".as_slice() {
        let id = small(word)?;
        Ok(ScriptCall::Cancel { id })
    } else {
        Err(Why::Value)
    }
}

/// The call `process <id> <tag>`.
fn process(name: &[u8], id: &[u8], tag: &[u8]) -> Result<ScriptCall, Why>
    ensures { result ≡ process_call name.now id.now tag.now }
{
    if name != b"process".as_slice() {
        return Err(Why::Value);
    }
    let id = small(id)?;
    let tag = small(tag)?;
    Ok(ScriptCall::ProcessSwPackage { id, tag })
}

/// The call `data <id> <counter> <block>`.
fn data(
    alloc: Global,
    attachments: &Attachments,
    name: &[u8],
    id: &[u8],
    counter: &[u8],
    bytes: &[u8],
) -> Result<ScriptCall, WordError>
    ensures { IsRead result
        (data_call attachments.now name.now id.now counter.now bytes.now) }
{
    if name != b"data".as_slice() {
        return Err(WordError::Refused(Why::Value));
    }
    let id = small(id)?;
    let counter = number(counter)?;
    let block = block(alloc, attachments, bytes)?;
    Ok(ScriptCall::TransferData { id, counter, block })
}

/// The call of these words.
pub(crate) fn call(
    alloc: Global,
    attachments: &Attachments,
    words: &[&[u8]],
) -> Result<ScriptCall, WordError>
    ensures { IsRead result (call_in attachments.now (map (λ w. w.now) words.now)) }
{
    match words {
        [name] => Ok(named_call(name)?),
        [name, word] => Ok(call_with_word(attachments, name, word)?),
        [name, id, tag] => Ok(process(name, id, tag)?),
        [name, id, counter, bytes] => data(alloc, attachments, name, id, counter, bytes),
        _ => Err(WordError::Refused(Why::Form)),
    }
}

/// A query of one word.
fn named_query(name: &[u8]) -> Result<Query, Why>
    ensures { result ≡ query_alone name.now }
{
    if name == b"status".as_slice() {
        Ok(Query::CurrentStatus)
    } else if name == b"clusters".as_slice() {
        Ok(Query::GetSwClusterInfo)
    } else if name == b"changes".as_slice() {
        Ok(Query::GetSwClusterChangeInfo)
    } else if name == b"packages".as_slice() {
        Ok(Query::GetSwPackages)
    } else {
        Err(Why::Value)
    }
}

/// The query `progress <id>`.
fn progress(name: &[u8], id: &[u8]) -> Result<Query, Why>
    ensures { result ≡ progress_query name.now id.now }
{
    if name != b"progress".as_slice() {
        return Err(Why::Value);
    }
    let id = small(id)?;
    Ok(Query::GetSwProcessProgress { id })
}

/// The query `history <ge> <lt>`.
fn history(name: &[u8], ge: &[u8], lt: &[u8]) -> Result<Query, Why>
    ensures { result ≡ history_query name.now ge.now lt.now }
{
    if name != b"history".as_slice() {
        return Err(Why::Value);
    }
    let ge = number(ge)?;
    let lt = number(lt)?;
    Ok(Query::GetHistory { ge, lt })
}

/// The query of these words.
pub(crate) fn query(words: &[&[u8]]) -> Result<Query, Why>
    ensures { result ≡ query_in (map (λ w. w.now) words.now) }
{
    match words {
        [name] => named_query(name),
        [name, id] => progress(name, id),
        [name, ge, lt] => history(name, ge, lt),
        _ => Err(Why::Form),
    }
}
