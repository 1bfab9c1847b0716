//! What single words say. Whatever reads scripts or recipes shares these readers.
ghost use Rattle.std.specs.Prelude.{◌≡◌, ◌==◌, ◌<◌, ◌≤◌, ◌+◌, ◌∷◌, [], length, map, option_map, position, IfOk, IfSome, Ok, Err};
ghost use Rattle.ucm_base.specs.Limits.{need_limit};
ghost use Rattle.scenario.specs.Readings.{IsRead};
ghost use Rattle.scenario.specs.Words.{action_in, byte_in, call_no_in, client_in, cut, digit_value, first_client, from_one_in, last_node, name_in, need_in, needs_in, node_in, number_in, req_in, small_in, version_in};
ghost use Rattle.scenario.specs.Scripts.{pieces, pieces_left, size_left, text_left};

use crate::why::{Why, WordError};
use std::alloc::Global;
use ucm_base::limits::NODE_LIMIT;
use ucm_base::{
    Action, CallNo, ClientId, ClusterName, Need, Needs, NodeId, ReqText, TextError, VersionText,
};
use ucm_text::number_of;

/// The nodes and clients that the lines of a script may name.
#[derive(Clone, Copy, Debug, PartialEq, Eq)]
pub enum Reach {
    /// Node 1, and clients 0 to 31.
    OneNode,
    /// Nodes 1 to 8, and clients 1 to 31, beside whom client 0 is the master.
    Vehicle,
}

impl Reach {
    /// The last node.
    fn last_node(self) -> u64
        ensures { result ≡ last_node self }
    {
        match self {
            Reach::OneNode => 1,
            Reach::Vehicle => NODE_LIMIT,
        }
    }

    /// The first client.
    fn first_client(self) -> u64
        ensures { result ≡ first_client self }
    {
        match self {
            Reach::OneNode => 0,
            Reach::Vehicle => 1,
        }
    }
}

/// The place of the first such byte.
fn place_of(text: &[u8], at: u8) -> Option<usize>
    ensures place { result ≡ position (λ b. b == at) text.now }
    ensures inside { IfSome result (λ i. i < length text.now) }
{
    text.iter().position(|b| *b == at)
}

/// What stands before the first such byte, and what stands behind it, if it is there.
#[tactic(auto, unfolding(crate::specs::Words::cut))]
pub fn cut(text: &[u8], at: u8) -> Option<(&[u8], &[u8])>
    ensures { option_map (λ parts. (parts.0.now, parts.1.now)) result ≡ cut at text.now }
{
    let place = place_of(text, at)?;
    Some((&text[..place], &text[place + 1..]))
}

/// What stands before the first such byte, and what is left behind it.
pub fn first_piece(text: &[u8], at: u8) -> (&[u8], Option<&[u8]>)
    ensures split { pieces at text.now ≡ result.0.now ∷ pieces_left at (text_left result.1) }
    ensures size { length result.0.now + size_left (text_left result.1) ≡ length text.now }
{
    match cut(text, at) {
        Some((first, rest)) => (first, Some(rest)),
        None => (text, None),
    }
}

/// A decimal number below 2^64, without leading zeros.
pub fn number(word: &[u8]) -> Result<u64, Why>
    ensures { result ≡ number_in word.now }
{
    number_of(word).ok_or(Why::Value)
}

/// A number below 2^32.
pub fn small(word: &[u8]) -> Result<u32, Why>
    ensures { result ≡ small_in word.now }
{
    let n = number(word)?;
    match u32::try_from(n) {
        Ok(n) => Ok(n),
        Err(_) => Err(Why::Value),
    }
}

/// A number from 1 on.
pub fn from_one(word: &[u8]) -> Result<u64, Why>
    ensures read { result ≡ from_one_in word.now }
    ensures least { IfOk result (λ n. 1 ≤ n) }
{
    let n = number(word)?;
    if n >= 1 { Ok(n) } else { Err(Why::Value) }
}

/// A node that the script may name.
pub fn node(reach: Reach, word: &[u8]) -> Result<NodeId, Why>
    ensures { result ≡ node_in reach word.now }
{
    let n = number(word)?;
    if n > reach.last_node() {
        return Err(Why::Value);
    }
    NodeId::of(n).ok_or(Why::Value)
}

/// A client that the script may name.
pub(crate) fn client(reach: Reach, word: &[u8]) -> Result<ClientId, Why>
    ensures { result ≡ client_in reach word.now }
{
    let n = number(word)?;
    if n < reach.first_client() {
        return Err(Why::Value);
    }
    ClientId::of(n).ok_or(Why::Value)
}

/// A cluster's name, which is the form of an attachment's name too.
pub fn name(word: &[u8]) -> Result<ClusterName, Why>
    ensures { result ≡ name_in word.now }
{
    match ClusterName::of(word) {
        Ok(name) => Ok(name),
        Err(_) => Err(Why::Value),
    }
}

/// An epoch and a number, both from 1 on.
pub(crate) fn call_no(word: &[u8]) -> Result<CallNo, Why>
    ensures { result ≡ call_no_in word.now }
{
    let Some((epoch, within)) = cut(word, b'.') else {
        return Err(Why::Value);
    };
    let epoch = small(epoch)?;
    let within = small(within)?;
    CallNo::of(epoch, within).ok_or(Why::Value)
}

/// `install`, `update` or `remove`.
pub fn action(word: &[u8]) -> Result<Action, Why>
    ensures { result ≡ action_in word.now }
{
    if word == b"install".as_slice() {
        Ok(Action::Install)
    } else if word == b"update".as_slice() {
        Ok(Action::Update)
    } else if word == b"remove".as_slice() {
        Ok(Action::Remove)
    } else {
        Err(Why::Value)
    }
}

/// The value of a lower-case hexadecimal digit.
fn digit(b: u8) -> Option<u8>
    ensures value { result ≡ digit_value b }
    ensures small { IfSome result (λ d. d < 16) }
{
    match b {
        b'0'..=b'9' => Some(b - b'0'),
        b'a'..=b'f' => Some(b - 87),
        _ => None,
    }
}

/// Two lower-case hexadecimal digits.
pub(crate) fn byte(word: &[u8]) -> Result<u8, Why>
    ensures { result ≡ byte_in word.now }
{
    match word {
        [high, low] => byte_of(*high, *low),
        _ => Err(Why::Value),
    }
}

/// The byte of two digits.
fn byte_of(high: u8, low: u8) -> Result<u8, Why>
    ensures { result ≡ byte_in (high ∷ low ∷ []) }
{
    let high = digit(high).ok_or(Why::Value)?;
    let low = digit(low).ok_or(Why::Value)?;
    Ok(16 * high + low)
}

/// A version.
pub fn version(alloc: Global, word: &[u8]) -> Result<VersionText, WordError>
    ensures { IsRead result (version_in word.now) }
{
    match VersionText::of(alloc, word) {
        Ok(version) => Ok(version),
        Err(TextError::BadText) => Err(WordError::Refused(Why::Value)),
        Err(TextError::OutOfMemory) => Err(WordError::OutOfMemory),
    }
}

/// A version requirement.
fn req(alloc: Global, word: &[u8]) -> Result<ReqText, WordError>
    ensures { IsRead result (req_in word.now) }
{
    match ReqText::of(alloc, word) {
        Ok(req) => Ok(req),
        Err(TextError::BadText) => Err(WordError::Refused(Why::Value)),
        Err(TextError::OutOfMemory) => Err(WordError::OutOfMemory),
    }
}

/// A cluster and a requirement, joined by `@`.
pub fn need(alloc: Global, word: &[u8]) -> Result<Need, WordError>
    ensures { IsRead result (need_in word.now) }
{
    let Some((cluster, accepted)) = cut(word, b'@') else {
        return Err(WordError::Refused(Why::Value));
    };
    let name = name(cluster)?;
    let req = req(alloc, accepted)?;
    Ok(Need { name, req })
}

/// The needs of these words, of which there are at most 16.
pub fn needs(alloc: Global, words: &[&[u8]]) -> Result<Needs, WordError>
    requires { length words.now ≤ need_limit }
    ensures { IsRead result (needs_in (map (λ w. w.now) words.now)) }
{
    let mut needs = Vec::new(alloc);
    'words: for i in 0..words.len() {
        let need = need(alloc, words[i])?;
        needs.push(need)?;
    }
    Ok(Needs::of(needs))
}
