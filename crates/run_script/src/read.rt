//! Lines of a run, as their words give them.
ghost use Rattle.std.specs.Prelude.{◌≡◌, ◌∷◌, [], map, IfOk};
ghost use Rattle.run_script.specs.InForm.{IsDone, IsLine, IsShared};
ghost use Rattle.scenario.specs.declared.words.Reach.TheVariants.{Vehicle};
ghost use Rattle.scenario.specs.Lines.{event_line, shared_line};
ghost use Rattle.scenario.specs.Readings.{IsRead};
ghost use Rattle.run_script.specs.RunLines.{as_word, campaign_line, cancel_line, event_behind, fate_line, fault_line, is_own, is_setup_form, line_in, line_named, own_line, setup_line, stop_line};

use crate::lines::{FateLine, FaultLine, Point, StopLine};
use crate::words::{campaign, disk, fate, kind, point, range};
use scenario::{
    Attachments, NodeEvent, Reach, ScriptLine, Why, WordError, from_one, is_event_word, node,
    number, read_event, read_shared,
};
use std::alloc::Global;

/// A line whose words are in their forms.
#[derive(Drop)]
pub enum RunLine {
    /// A line that `replay` has, too.
    Shared(ScriptLine),
    Setup(NodeEvent),
    Stop(StopLine),
    Fault(FaultLine),
    Campaign(u32),
    Cancel(Point),
    Fate(FateLine),
}

/// A stop, by its words.
fn stop_at(line: u64, disk_word: &[u8], write: &[u8], keep: &[u8]) -> Result<RunLine, Why>
    ensures read { result ≡ stop_line line (disk_word.now ∷ write.now ∷ keep.now ∷ []) }
    ensures form { IfOk result IsLine }
{
    let disk = disk(disk_word)?;
    let write = from_one(write)?;
    let keep = number(keep)?;
    Ok(RunLine::Stop(StopLine {
        line,
        disk,
        write,
        keep,
    }))
}

/// The line `stop <disk> <write> <keep>`. This and each below is read by the words behind its first.
fn read_stop(line: u64, words: &[&[u8]]) -> Result<RunLine, Why>
    ensures read { result ≡ stop_line line (map (λ w. w.now) words.now) }
    ensures form { IfOk result IsLine }
{
    match words {
        [disk, write, keep] => stop_at(line, disk, write, keep),
        _ => Err(Why::Form),
    }
}

/// Failing calls, by their words.
fn fault_at(line: u64, disk_word: &[u8], kind_word: &[u8], calls: &[u8]) -> Result<RunLine, Why>
    ensures read { result ≡ fault_line line (disk_word.now ∷ kind_word.now ∷ calls.now ∷ []) }
    ensures form { IfOk result IsLine }
{
    let disk = disk(disk_word)?;
    let kind = kind(kind_word)?;
    let calls = range(calls)?;
    Ok(RunLine::Fault(FaultLine {
        line,
        disk,
        kind,
        first: calls.first,
        last: calls.last,
    }))
}

/// The line `fault <disk> <kind> <a>` or `<a>-<b>`.
fn read_fault(line: u64, words: &[&[u8]]) -> Result<RunLine, Why>
    ensures read { result ≡ fault_line line (map (λ w. w.now) words.now) }
    ensures form { IfOk result IsLine }
{
    match words {
        [disk, kind, calls] => fault_at(line, disk, kind, calls),
        _ => Err(Why::Form),
    }
}

/// A campaign, by its word.
fn campaign_of(word: &[u8]) -> Result<RunLine, Why>
    ensures read { result ≡ campaign_line (word.now ∷ []) }
    ensures form { IfOk result IsLine }
{
    let k = campaign(word)?;
    Ok(RunLine::Campaign(k))
}

/// The line `campaign <k>`.
fn read_campaign(words: &[&[u8]]) -> Result<RunLine, Why>
    ensures read { result ≡ campaign_line (map (λ w. w.now) words.now) }
    ensures form { IfOk result IsLine }
{
    match words {
        [word] => campaign_of(word),
        _ => Err(Why::Form),
    }
}

/// A cancel, by its word.
fn cancel_at(word: &[u8]) -> Result<RunLine, Why>
    ensures read { result ≡ cancel_line (word.now ∷ []) }
    ensures form { IfOk result IsLine }
{
    let point = point(word)?;
    Ok(RunLine::Cancel(point))
}

/// The line `cancel <point>`.
fn read_cancel(words: &[&[u8]]) -> Result<RunLine, Why>
    ensures read { result ≡ cancel_line (map (λ w. w.now) words.now) }
    ensures form { IfOk result IsLine }
{
    match words {
        [word] => cancel_at(word),
        _ => Err(Why::Form),
    }
}

/// What becomes of attempts, by its words.
#[tactic(auto, using(crate::proofs::Reached::is_node))]
fn fate_of(line: u64, at: &[u8], attempts: &[u8], word: &[u8]) -> Result<RunLine, Why>
    ensures read { result ≡ fate_line line (at.now ∷ attempts.now ∷ word.now ∷ []) }
    ensures form { IfOk result IsLine }
{
    let node = node(Reach::Vehicle, at)?;
    let attempts = range(attempts)?;
    let fate = fate(attempts.last, word)?;
    Ok(RunLine::Fate(FateLine {
        line,
        node,
        first: attempts.first,
        last: attempts.last,
        fate,
    }))
}

/// The line `fate <node> <a>` or `<a>-<b>`, and then the fate.
fn read_fate(line: u64, words: &[&[u8]]) -> Result<RunLine, Why>
    ensures read { result ≡ fate_line line (map (λ w. w.now) words.now) }
    ensures form { IfOk result IsLine }
{
    match words {
        [at, attempts, fate] => fate_of(line, at, attempts, fate),
        _ => Err(Why::Form),
    }
}

/// A number of words that no line of the setup has together with its first is a matter of that word.
fn as_word(why: Why) -> Why
    ensures { result ≡ as_word why }
{
    match why {
        Why::Form => Why::Value,
        Why::Value => Why::Value,
        Why::Unknown => Why::Unknown,
        Why::Twice => Why::Twice,
        Why::Limit => Why::Limit,
        Why::Bytes => Why::Bytes,
        Why::Missing => Why::Missing,
        Why::Later => Why::Later,
    }
}

/// What a client does, by the first word of its line and those behind it.
fn read_done(
    alloc: Global,
    attachments: &Attachments,
    first: &[u8],
    words: &[&[u8]],
) -> Result<NodeEvent, WordError>
    ensures read { IsRead result
        (event_line Vehicle attachments.now first.now (map (λ w. w.now) words.now)) }
    ensures form { IfOk result IsDone }
{
    read_event(alloc, Reach::Vehicle, attachments, first, words)
}

/// A line that `replay` has, too, by its first word and those behind it.
fn read_common(
    alloc: Global,
    attachments: &Attachments,
    first: &[u8],
    words: &[&[u8]],
) -> Result<ScriptLine, WordError>
    ensures read { IsRead result
        (shared_line Vehicle attachments.now first.now (map (λ w. w.now) words.now)) }
    ensures form { IfOk result IsShared }
{
    read_shared(alloc, Reach::Vehicle, attachments, first, words)
}

/// What a client does in the setup, by the words behind `setup`.
fn read_event_behind(
    alloc: Global,
    attachments: &Attachments,
    first: &[u8],
    words: &[&[u8]],
) -> Result<RunLine, WordError>
    ensures read { IsRead result
        (event_behind attachments.now first.now (map (λ w. w.now) words.now)) }
    ensures form { IfOk result IsLine }
{
    if !is_event_word(first) {
        return Err(WordError::Refused(Why::Value));
    }
    match read_done(alloc, attachments, first, words) {
        Ok(event) => Ok(RunLine::Setup(event)),
        Err(WordError::Refused(why)) => Err(WordError::Refused(as_word(why))),
        Err(WordError::OutOfMemory) => Err(WordError::OutOfMemory),
    }
}

/// Whether a line of the setup has as many words.
fn is_setup(words: &[&[u8]]) -> bool
    ensures { result ≡ is_setup_form (map (λ w. w.now) words.now) }
{
    words.len() >= 2 && words.len() <= 7
}

/// The line `setup` and one of those by which clients do something.
fn read_setup(
    alloc: Global,
    attachments: &Attachments,
    words: &[&[u8]],
) -> Result<RunLine, WordError>
    ensures read { IsRead result (setup_line attachments.now (map (λ w. w.now) words.now)) }
    ensures form { IfOk result IsLine }
{
    match words {
        [first, words @ ..] => {
            if !is_setup(words) {
                return Err(WordError::Refused(Why::Form));
            }
            read_event_behind(alloc, attachments, first, words)
        }
        _ => Err(WordError::Refused(Why::Form)),
    }
}

/// Whether only scripts of a run have lines of this first word, which need no memory.
fn is_own(word: &[u8]) -> bool
    ensures { result ≡ is_own word.now }
{
    word == b"fate".as_slice()
        || word == b"stop".as_slice()
        || word == b"fault".as_slice()
        || word == b"campaign".as_slice()
        || word == b"cancel".as_slice()
}

/// A line of such a first word.
fn read_own(line: u64, first: &[u8], words: &[&[u8]]) -> Result<RunLine, Why>
    ensures read { result ≡ own_line line first.now (map (λ w. w.now) words.now) }
    ensures form { IfOk result IsLine }
{
    if first == b"fate".as_slice() {
        read_fate(line, words)
    } else if first == b"stop".as_slice() {
        read_stop(line, words)
    } else if first == b"fault".as_slice() {
        read_fault(line, words)
    } else if first == b"campaign".as_slice() {
        read_campaign(words)
    } else {
        read_cancel(words)
    }
}

/// The line of this first word and of these behind it.
fn read_named(
    alloc: Global,
    attachments: &Attachments,
    line: u64,
    first: &[u8],
    words: &[&[u8]],
) -> Result<RunLine, WordError>
    ensures read { IsRead result
        (line_named line attachments.now first.now (map (λ w. w.now) words.now)) }
    ensures form { IfOk result IsLine }
{
    if first == b"setup".as_slice() {
        read_setup(alloc, attachments, words)
    } else if is_own(first) {
        Ok(read_own(line, first, words)?)
    } else {
        let shared = read_common(alloc, attachments, first, words)?;
        Ok(RunLine::Shared(shared))
    }
}

/// The line of these words, below what the lines above attach.
pub fn read_line(
    alloc: Global,
    attachments: &Attachments,
    line: u64,
    words: &[&[u8]],
) -> Result<RunLine, WordError>
    ensures read { IsRead result (line_in line attachments.now (map (λ w. w.now) words.now)) }
    ensures form { IfOk result IsLine }
{
    match words {
        [first, words @ ..] => read_named(alloc, attachments, line, first, words),
        _ => Err(WordError::Refused(Why::Form)),
    }
}
