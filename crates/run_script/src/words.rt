//! What the words of a run's lines say.
ghost use Rattle.std.specs.Prelude.{◌≡◌, ◌≤◌, ℕ, IfOk, IfSome};
ghost use Rattle.ucm_base.specs.Limits.{node_limit};
ghost use Rattle.run_script.specs.InForm.{IsFate, IsLater, IsRange};
ghost use Rattle.run_script.specs.Words.{after_in, campaign_in, disk_in, fate_in, kind_in, named_fate, point_in, range_at, range_between, range_in, timed_fate};

use crate::lines::Point;
use campaign_core::Phase;
use disk_core::FailKind;
use scenario::{Why, cut, from_one, number, small};
use sub_core::Fate;
use ucm_base::limits::NODE_LIMIT;

/// Numbers from a first to a last one.
#[derive(Clone, Copy)]
pub struct Span {
    pub first: u64,
    pub last: u64,
}

/// A disk, 0 to 8.
pub fn disk(word: &[u8]) -> Result<u8, Why>
    ensures read { result ≡ disk_in word.now }
    ensures form { IfOk result (λ d. d ≤ node_limit) }
{
    let n = number(word)?;
    if n <= NODE_LIMIT {
        Ok(n as u8)
    } else {
        Err(Why::Value)
    }
}

/// A campaign's number, 1 to 4,294,967,295.
pub fn campaign(word: &[u8]) -> Result<u32, Why>
    ensures read { result ≡ campaign_in word.now }
    ensures form { IfOk result (λ k. 1 ≤ k) }
{
    let n = small(word)?;
    if n >= 1 { Ok(n) } else { Err(Why::Value) }
}

/// `<a>-<b>`, by what stands before and behind the dash.
fn range_between(first: &[u8], last: &[u8]) -> Result<Span, Why>
    ensures read { result ≡ range_between first.now last.now }
    ensures form { IfOk result (λ s. IsRange s.first s.last) }
{
    let first = from_one(first)?;
    let last = number(last)?;
    if first <= last {
        Ok(Span { first, last })
    } else {
        Err(Why::Value)
    }
}

/// `<a>` alone.
fn range_at(word: &[u8]) -> Result<Span, Why>
    ensures read { result ≡ range_at word.now }
    ensures form { IfOk result (λ s. IsRange s.first s.last) }
{
    let n = from_one(word)?;
    Ok(Span { first: n, last: n })
}

/// `<a>` or `<a>-<b>`.
pub fn range(word: &[u8]) -> Result<Span, Why>
    ensures read { result ≡ range_in word.now }
    ensures form { IfOk result (λ s. IsRange s.first s.last) }
{
    match cut(word, b'-') {
        Some((first, last)) => range_between(first, last),
        None => range_at(word),
    }
}

/// `read`, `write` or `sync`.
pub fn kind(word: &[u8]) -> Result<FailKind, Why>
    ensures { result ≡ kind_in word.now }
{
    if word == b"read".as_slice() {
        Ok(FailKind::Read)
    } else if word == b"write".as_slice() {
        Ok(FailKind::Write)
    } else if word == b"sync".as_slice() {
        Ok(FailKind::Sync)
    } else {
        Err(Why::Value)
    }
}

/// The point of a cancel.
pub fn point(word: &[u8]) -> Result<Point, Why>
    ensures { result ≡ point_in word.now }
{
    if word == b"syncing".as_slice() {
        Ok(Point::Syncing)
    } else if word == b"transferring".as_slice() {
        Ok(Point::InPhase(Phase::Transferring))
    } else if word == b"processing".as_slice() {
        Ok(Point::InPhase(Phase::Processing))
    } else if word == b"activating".as_slice() {
        Ok(Point::InPhase(Phase::Activating))
    } else if word == b"voted".as_slice() {
        Ok(Point::Voted)
    } else if word == b"decided".as_slice() {
        Ok(Point::Decided)
    } else {
        Err(Why::Value)
    }
}

/// An attempt not below the last one of a range, or `end`.
fn after(last: u64, word: &[u8]) -> Result<Option<u64>, Why>
    ensures read { result ≡ after_in last word.now }
    ensures form { IfOk result (IsLater last) }
{
    if word == b"end".as_slice() {
        return Ok(None);
    }
    let n = number(word)?;
    if last <= n {
        Ok(Some(n))
    } else {
        Err(Why::Value)
    }
}

/// A fate of two parts, by what stands before and behind the colon.
fn timed_fate(last: u64, kind: &[u8], word: &[u8]) -> Result<Fate, Why>
    ensures read { result ≡ timed_fate last kind.now word.now }
    ensures form { IfOk result (IsFate last) }
{
    if kind == b"late".as_slice() {
        let after = after(last, word)?;
        Ok(Fate::Late { after })
    } else if kind == b"delayed".as_slice() {
        let after = after(last, word)?;
        Ok(Fate::Delayed { after })
    } else {
        Err(Why::Value)
    }
}

/// A fate of one word, if it is one.
fn named_fate(word: &[u8]) -> Option<Fate>
    ensures read { result ≡ named_fate word.now }
    ensures form { IfSome result (λ fate. (last : ℕ) → IsFate last fate) }
{
    if word == b"lost".as_slice() {
        Some(Fate::Lost)
    } else if word == b"unanswered".as_slice() {
        Some(Fate::Unanswered)
    } else if word == b"twice".as_slice() {
        Some(Fate::Twice)
    } else {
        None
    }
}

/// The fate of attempts of which this is the last.
pub fn fate(last: u64, word: &[u8]) -> Result<Fate, Why>
    ensures read { result ≡ fate_in last word.now }
    ensures form { IfOk result (IsFate last) }
{
    match cut(word, b':') {
        Some((kind, after)) => timed_fate(last, kind, after),
        None => named_fate(word).ok_or(Why::Value),
    }
}
