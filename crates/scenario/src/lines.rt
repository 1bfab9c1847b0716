//! Lines, as their words give them.
ghost use Rattle.std.specs.Prelude.{◌≡◌, ◌≤◌, ◌∷◌, [], IfOk, IfErr, Ok, Err, length, map};
ghost use Rattle.ucm_base.specs.Limits.{need_limit};
ghost use Rattle.scenario.specs.declared.why.Why.{Why};
ghost use Rattle.scenario.specs.Readings.{IsRead};
ghost use Rattle.scenario.specs.Lines.{ask_line, attach_line, call_line, client_query, cluster_line, cluster_on, event_line, fails_line, installed_line, is_call_form, is_event, is_later, is_query_form, line_in, line_named, numbered_call, shared_line, short_line, time_line, work_line};

use crate::attachments::Attachments;
use crate::blocks::{BlockSource, block};
use crate::events::{Event, NodeEvent, call, query};
use crate::why::{Why, WordError};
use crate::words::{Reach, call_no, client, name, needs, node, number, version};
use std::alloc::Global;
use ucm_base::limits::{NEED_LIMIT, TIME_LIMIT};
use ucm_base::{ClusterName, Needs, NodeId, VersionText};

/// A cluster that is installed when the node is formatted.
#[derive(Drop)]
pub struct Installed {
    pub name: ClusterName,
    pub version: VersionText,
    pub needs: Needs,
    pub block: BlockSource,
}

/// A line whose words are in their forms.
#[derive(Drop)]
pub enum ScriptLine {
    /// The start time.
    Time(u64),
    Installed { node: NodeId, cluster: Installed },
    Happens(NodeEvent),
    /// This cluster's verdict fails on the node.
    Fails { node: NodeId, name: ClusterName },
    /// This many of the attached bytes have this name.
    Attach { name: ClusterName, len: u64 },
}

/// The line `time <n>`. This and each below is read by the words behind its first.
fn read_time(words: &[&[u8]]) -> Result<ScriptLine, Why>
    ensures { result ≡ time_line (map (λ w. w.now) words.now) }
{
    match words {
        [word] => start_time(word),
        _ => Err(Why::Form),
    }
}

/// A start time, at most 2^62.
fn start_time(word: &[u8]) -> Result<ScriptLine, Why>
    ensures { result ≡ time_line (word.now ∷ []) }
{
    let n = number(word)?;
    if n <= TIME_LIMIT {
        Ok(ScriptLine::Time(n))
    } else {
        Err(Why::Value)
    }
}

/// An installed cluster, by its words.
fn read_cluster(
    alloc: Global,
    attachments: &Attachments,
    named: &[u8],
    versioned: &[u8],
    bytes: &[u8],
    needed: &[&[u8]],
) -> Result<Installed, WordError>
    requires { length needed.now ≤ need_limit }
    ensures line { IfOk result (λ l. cluster_line attachments.now named.now versioned.now bytes.now
        (map (λ w. w.now) needed.now) ≡ Ok l) }
    ensures refused { IfErr result (λ e. (why : Why) → e ≡ WordError.Refused why
        → cluster_line attachments.now named.now versioned.now bytes.now
        (map (λ w. w.now) needed.now) ≡ Err why) }
{
    let name = name(named)?;
    let version = version(alloc, versioned)?;
    let block = block(alloc, attachments, bytes)?;
    let needs = needs(alloc, needed)?;
    Ok(Installed {
        name,
        version,
        needs,
        block,
    })
}

/// A cluster of a node, by its words.
fn read_cluster_on(
    alloc: Global,
    reach: Reach,
    attachments: &Attachments,
    at: &[u8],
    named: &[u8],
    versioned: &[u8],
    bytes: &[u8],
    needed: &[&[u8]],
) -> Result<ScriptLine, WordError>
    requires { length needed.now ≤ need_limit }
    ensures line { IfOk result (λ l. cluster_on reach attachments.now at.now named.now versioned.now
        bytes.now (map (λ w. w.now) needed.now) ≡ Ok l) }
    ensures refused { IfErr result (λ e. (why : Why) → e ≡ WordError.Refused why
        → cluster_on reach attachments.now at.now named.now versioned.now bytes.now
        (map (λ w. w.now) needed.now) ≡ Err why) }
{
    let node = node(reach, at)?;
    let cluster = read_cluster(alloc, attachments, named, versioned, bytes, needed)?;
    Ok(ScriptLine::Installed { node, cluster })
}

/// The line `installed <node> <cluster> <version> <block> <need>*`, with at most 16 needs.
fn read_installed(
    alloc: Global,
    reach: Reach,
    attachments: &Attachments,
    words: &[&[u8]],
) -> Result<ScriptLine, WordError>
    ensures line { IfOk result (λ l. installed_line reach attachments.now
        (map (λ w. w.now) words.now) ≡ Ok l) }
    ensures refused { IfErr result (λ e. (why : Why) → e ≡ WordError.Refused why
        → installed_line reach attachments.now (map (λ w. w.now) words.now) ≡ Err why) }
{
    match words {
        [at, named, versioned, bytes, needed @ ..] => {
            if needed.len() as u64 > NEED_LIMIT {
                return Err(WordError::Refused(Why::Form));
            }
            read_cluster_on(
                alloc,
                reach,
                attachments,
                at,
                named,
                versioned,
                bytes,
                needed,
            )
        }
        _ => Err(WordError::Refused(Why::Form)),
    }
}

/// Whether these are as many words as a call has.
fn is_call(words: &[&[u8]]) -> bool
    ensures { result ≡ is_call_form (map (λ w. w.now) words.now) }
{
    words.len() >= 1 && words.len() <= 4
}

/// A client's call, by its words.
fn client_call(
    alloc: Global,
    reach: Reach,
    attachments: &Attachments,
    at: &[u8],
    client_word: &[u8],
    number_word: &[u8],
    words: &[&[u8]],
) -> Result<NodeEvent, WordError>
    ensures { IsRead result
        (numbered_call reach attachments.now at.now client_word.now number_word.now
        (map (λ w. w.now) words.now)) }
{
    let node = node(reach, at)?;
    let client = client(reach, client_word)?;
    let no = call_no(number_word)?;
    let call = call(alloc, attachments, words)?;
    Ok(NodeEvent {
        node,
        event: Event::Call { client, no, call },
    })
}

/// The line `call <node> <client> <no> <call>`.
fn read_call(
    alloc: Global,
    reach: Reach,
    attachments: &Attachments,
    words: &[&[u8]],
) -> Result<NodeEvent, WordError>
    ensures { IsRead result (call_line reach attachments.now (map (λ w. w.now) words.now)) }
{
    match words {
        [at, client, number, call @ ..] => {
            if !is_call(call) {
                return Err(WordError::Refused(Why::Form));
            }
            client_call(alloc, reach, attachments, at, client, number, call)
        }
        _ => Err(WordError::Refused(Why::Form)),
    }
}

/// The line `work <node> <client>`.
fn read_work(reach: Reach, words: &[&[u8]]) -> Result<NodeEvent, Why>
    ensures { result ≡ work_line reach (map (λ w. w.now) words.now) }
{
    match words {
        [at, client] => client_works(reach, at, client),
        _ => Err(Why::Form),
    }
}

/// A client's unit, by its words.
fn client_works(reach: Reach, at: &[u8], client_word: &[u8]) -> Result<NodeEvent, Why>
    ensures { result ≡ work_line reach (at.now ∷ client_word.now ∷ []) }
{
    let node = node(reach, at)?;
    let client = client(reach, client_word)?;
    Ok(NodeEvent {
        node,
        event: Event::Work { client },
    })
}

/// Whether these are as many words as a query has.
fn is_query(words: &[&[u8]]) -> bool
    ensures { result ≡ is_query_form (map (λ w. w.now) words.now) }
{
    words.len() >= 1 && words.len() <= 3
}

/// A client's query, by its words.
fn client_asks(
    reach: Reach,
    at: &[u8],
    client_word: &[u8],
    words: &[&[u8]],
) -> Result<NodeEvent, Why>
    ensures { result
        ≡ client_query reach at.now client_word.now (map (λ w. w.now) words.now) }
{
    let node = node(reach, at)?;
    let client = client(reach, client_word)?;
    let query = query(words)?;
    Ok(NodeEvent {
        node,
        event: Event::Ask { client, query },
    })
}

/// The line `ask <node> <client> <query>`.
fn read_ask(reach: Reach, words: &[&[u8]]) -> Result<NodeEvent, Why>
    ensures { result ≡ ask_line reach (map (λ w. w.now) words.now) }
{
    match words {
        [at, client, query @ ..] => {
            if !is_query(query) {
                return Err(Why::Form);
            }
            client_asks(reach, at, client, query)
        }
        _ => Err(Why::Form),
    }
}

/// The line `fails <node> <cluster>`.
fn read_fails(reach: Reach, words: &[&[u8]]) -> Result<ScriptLine, Why>
    ensures { result ≡ fails_line reach (map (λ w. w.now) words.now) }
{
    match words {
        [at, named] => failing_on(reach, at, named),
        _ => Err(Why::Form),
    }
}

/// A cluster that fails on a node, by its words.
fn failing_on(reach: Reach, at: &[u8], named: &[u8]) -> Result<ScriptLine, Why>
    ensures { result ≡ fails_line reach (at.now ∷ named.now ∷ []) }
{
    let node = node(reach, at)?;
    let name = name(named)?;
    Ok(ScriptLine::Fails { node, name })
}

/// The line `attach <name> <length>`.
fn read_attach(words: &[&[u8]]) -> Result<ScriptLine, Why>
    ensures { result ≡ attach_line (map (λ w. w.now) words.now) }
{
    match words {
        [named, size] => named_bytes(named, size),
        _ => Err(Why::Form),
    }
}

/// Attached bytes, by their name and length.
fn named_bytes(named: &[u8], size: &[u8]) -> Result<ScriptLine, Why>
    ensures { result ≡ attach_line (named.now ∷ size.now ∷ []) }
{
    let name = name(named)?;
    let len = number(size)?;
    Ok(ScriptLine::Attach { name, len })
}

/// The line of `replay` of these words, below what the lines above attach.
pub(crate) fn read_line(
    alloc: Global,
    attachments: &Attachments,
    words: &[&[u8]],
) -> Result<ScriptLine, WordError>
    ensures { IsRead result (line_in attachments.now (map (λ w. w.now) words.now)) }
{
    match words {
        [first, words @ ..] => read_named(alloc, attachments, first, words),
        _ => Err(WordError::Refused(Why::Form)),
    }
}

/// Whether lines of this first word aren't served yet.
fn is_later_word(word: &[u8]) -> bool
    ensures { result ≡ is_later word.now }
{
    word == b"stop".as_slice() || word == b"fault".as_slice()
}

/// The line of `replay` of this first word and of these behind it.
fn read_named(
    alloc: Global,
    attachments: &Attachments,
    first: &[u8],
    words: &[&[u8]],
) -> Result<ScriptLine, WordError>
    ensures { IsRead result (line_named attachments.now first.now (map (λ w. w.now) words.now)) }
{
    if is_later_word(first) {
        return Err(WordError::Refused(Why::Later));
    }
    read_shared(alloc, Reach::OneNode, attachments, first, words)
}

/// Whether a client does something by lines of this first word.
pub fn is_event_word(word: &[u8]) -> bool
    ensures { result ≡ is_event word.now }
{
    word == b"call".as_slice() || word == b"work".as_slice() || word == b"ask".as_slice()
}

/// What a client does, by a line's first word and those behind it.
pub fn read_event(
    alloc: Global,
    reach: Reach,
    attachments: &Attachments,
    first: &[u8],
    words: &[&[u8]],
) -> Result<NodeEvent, WordError>
    ensures { IsRead result
        (event_line reach attachments.now first.now (map (λ w. w.now) words.now)) }
{
    if first == b"call".as_slice() {
        read_call(alloc, reach, attachments, words)
    } else if first == b"work".as_slice() {
        Ok(read_work(reach, words)?)
    } else {
        Ok(read_ask(reach, words)?)
    }
}

/// A line that scripts of every command may have, by its first word and those behind it.
pub fn read_shared(
    alloc: Global,
    reach: Reach,
    attachments: &Attachments,
    first: &[u8],
    words: &[&[u8]],
) -> Result<ScriptLine, WordError>
    ensures { IsRead result
        (shared_line reach attachments.now first.now (map (λ w. w.now) words.now)) }
{
    if is_event_word(first) {
        let event = read_event(alloc, reach, attachments, first, words)?;
        Ok(ScriptLine::Happens(event))
    } else if first == b"installed".as_slice() {
        read_installed(alloc, reach, attachments, words)
    } else {
        Ok(read_short(reach, first, words)?)
    }
}

/// A line that takes no memory.
fn read_short(reach: Reach, first: &[u8], words: &[&[u8]]) -> Result<ScriptLine, Why>
    ensures { result ≡ short_line reach first.now (map (λ w. w.now) words.now) }
{
    if first == b"time".as_slice() {
        read_time(words)
    } else if first == b"fails".as_slice() {
        read_fails(reach, words)
    } else if first == b"attach".as_slice() {
        read_attach(words)
    } else {
        Err(Why::Form)
    }
}
