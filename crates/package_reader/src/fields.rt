//! The fields of a package, taken one after another. No call takes memory.
ghost use Rattle.std.specs.Prelude.{◌≡◌, ◌+◌, ◌<◌, ◌≤◌, length, MatchOption, IfOk};
ghost use Rattle.package_reader.specs.Fields.{block_at, end_at, end_of, fields_of, head_of, number_at, part_at, parts_at, text_at, texts_limit};
ghost use Rattle.package_reader.specs.Layout.{length_size};
ghost use Rattle.package_reader.specs.Exact.{IsExactly};
ghost use Rattle.ucm_base.specs.Limits.{part_limit};

use crate::PackageError;
use crate::layout::{COUNT_SIZE, DIGEST_SIZE, LENGTH_SIZE, MARK_SIZE};
use crate::span::{PartPlace, Span};
use arrayvec::ArrayVec;
use sha2::{Digest, Sha256};
use ucm_base::limits::{MANIFEST_LIMIT, MANIFESTS_LIMIT, PART_LIMIT};
use wire::take_u32;

/// The first bytes of a package of one part.
pub(crate) const MARK_OF_ONE: &[u8; MARK_SIZE] = b"SWP1";

/// The first bytes of a package of more parts, before their number.
pub(crate) const MARK_OF_MORE: &[u8; MARK_SIZE] = b"SWP2";

/// The most parts that a package has.
pub(crate) const MOST: usize = PART_LIMIT as usize;

/// Where the parts lie, in order.
pub(crate) type Places = ArrayVec<PartPlace, MOST>;

/// How many parts there are, and where they begin.
#[derive(Clone, Copy)]
pub(crate) struct Head {
    count: u8,
    place: usize,
}

/// The bytes that the manifests' texts of so many parts may have together.
pub(crate) fn texts_limit(count: usize) -> u64
    ensures { result ≡ texts_limit count }
{
    if count == 1 {
        MANIFEST_LIMIT
    } else {
        MANIFESTS_LIMIT
    }
}

/// Bytes that don't fit from a place on.
pub(crate) fn inconsistent(place: usize) -> PackageError
    ensures { result ≡ PackageError.PackageInconsistent place }
{
    PackageError::PackageInconsistent {
        place: place as u64,
    }
}

/// The number at a place.
fn number_at(bytes: &[u8], place: usize) -> Option<u32>
    requires { place ≤ length bytes.now }
    ensures { MatchOption result (length bytes.now < place + length_size)
        (λ n. (n ≡ number_at bytes.now place) × (place + length_size ≤ length bytes.now)) }
{
    let (number, _) = take_u32(&bytes[place..])?;
    Some(number)
}

/// The block behind its length at a place.
#[tactic(auto, unfolding(crate::specs::Fields::block_at))]
fn block_at(bytes: &[u8], place: usize) -> Result<Span, PackageError>
    requires { place ≤ length bytes.now }
    ensures block { result ≡ block_at bytes.now place }
    ensures within { IfOk result (λ span. end_of span ≤ length bytes.now) }
{
    let Some(len) = number_at(bytes, place) else {
        return Err(inconsistent(place));
    };
    let at = place + LENGTH_SIZE;
    if bytes.len() - at < len as usize {
        return Err(inconsistent(at));
    }
    Ok(Span { at, len })
}

/// A manifest's text, which may have so many bytes.
#[tactic(auto, unfolding(crate::specs::Fields::block_at))]
fn text_at(bytes: &[u8], room: u64, place: usize) -> Result<Span, PackageError>
    requires { place ≤ length bytes.now }
    ensures text { result ≡ text_at bytes.now room place }
    ensures within { IfOk result
        (λ span. (end_of span ≤ length bytes.now) × (span.len ≤ room)) }
{
    match number_at(bytes, place) {
        Some(len) if u64::from(len) > room => Err(inconsistent(place)),
        _ => block_at(bytes, place),
    }
}

/// The text and the payload of a part.
#[tactic(auto, unfolding(crate::specs::Fields::part_at))]
fn part_at(bytes: &[u8], room: u64, place: usize) -> Result<PartPlace, PackageError>
    requires { place ≤ length bytes.now }
    ensures part { result ≡ part_at bytes.now room place }
    ensures within { IfOk result
        (λ p. (end_of p.payload ≤ length bytes.now) × (p.text.len ≤ room)) }
{
    let text = text_at(bytes, room, place)?;
    let payload = block_at(bytes, text.at + text.len as usize)?;
    Ok(PartPlace { text, payload })
}

/// The parts behind the head, and the place behind them.
fn parts_at(bytes: &[u8], head: Head) -> Result<(Places, usize), PackageError>
    requires count { head.count ≤ part_limit }
    requires place { head.place ≤ length bytes.now }
    ensures parts { IsExactly (λ parts. (parts.0.items, parts.1)) result
        (parts_at head.count bytes.now (texts_limit head.count) head.place) }
    ensures within { IfOk result (λ parts. parts.1 ≤ length bytes.now) }
{
    let mut places = ArrayVec::new();
    let mut room = texts_limit(head.count as usize);
    let mut place = head.place;
    for _ in 0..head.count {
        let part = part_at(bytes, room, place)?;
        room -= u64::from(part.text.len);
        place = part.payload.at + part.payload.len as usize;
        places.push(part);
    }
    Ok((places, place))
}

/// How many parts there are, and where they begin.
fn head_of(bytes: &[u8]) -> Result<Head, PackageError>
    ensures head { result ≡ head_of bytes.now }
    ensures within { IfOk result (λ h. (h.count ≤ part_limit) × (h.place ≤ length bytes.now)) }
{
    if bytes.starts_with(MARK_OF_ONE) {
        return Ok(Head {
            count: 1,
            place: MARK_SIZE,
        });
    }
    if !bytes.starts_with(MARK_OF_MORE) {
        return Err(inconsistent(0));
    }
    match bytes.get(MARK_SIZE) {
        Some(count) if *count >= 2 && u64::from(*count) <= PART_LIMIT => Ok(Head {
            count: *count,
            place: MARK_SIZE + COUNT_SIZE,
        }),
        _ => Err(inconsistent(MARK_SIZE)),
    }
}

/// Refuses bytes that don't end with the digest (FIPS 180-4) of all before a place.
fn check_end(bytes: &[u8], place: usize) -> Result<(), PackageError>
    requires { place ≤ length bytes.now }
    ensures { result ≡ end_at bytes.now place }
{
    let (before, rest) = bytes.split_at(place);
    let digest: [u8; DIGEST_SIZE] = Sha256::digest(before);
    if !rest.starts_with(&digest) {
        return Err(inconsistent(place));
    }
    if rest.len() > digest.len() {
        return Err(inconsistent(place + digest.len()));
    }
    Ok(())
}

/// Where the parts lie, where each field is whole and the digest is that of all bytes before it.
#[tactic(auto, unfolding(crate::specs::Fields::fields_of))]
pub(crate) fn fields_of(bytes: &[u8]) -> Result<Places, PackageError>
    ensures { IsExactly (λ places. places.items) result (fields_of bytes.now) }
{
    let head = head_of(bytes)?;
    let (places, end) = parts_at(bytes, head)?;
    check_end(bytes, end)?;
    Ok(places)
}
